// What a target comes to, in one walk over its pages and those of the last one, side by side.
ghost use Rattle.std.specs.Prelude.{◌≡◌, ◌++◌, ◌∷◌, [], ◌&&◌, not, IsTrue, IfOk, OnOk, map, if◌then◌else◌};
ghost use Rattle.std.specs.FinMap.Entries.{is_sorted};
ghost use Rattle.std.specs.List.{All};
ghost use Rattle.std.specs.List.Sorted.{IsStrictlySortedBy};
ghost use Rattle.dup_names.specs.Objects.{is_in, same_obj};
ghost use Rattle.dup_names.specs.Order.{text_cmp};
ghost use Rattle.dup_model.specs.Looks.{look};
ghost use Rattle.dup_model.specs.Pages.{page_looks};
ghost use Rattle.dup_build.specs.Paths.{AreLooked, AreTouched, IsCurrent, looks_in, looks_shown};
ghost use Rattle.dup_build.specs.Stocked.{unjoined_in};
ghost use Rattle.dup_build.specs.Targets.{looks_by_path, pages_in};

use crate::stock::Stock;
use dup_names::{Look, NoMemory, Obj, Path};
use dup_render::Target;
use dup_sets::ObjSet;
use std::alloc::Global;
use std::cmp::Ordering;
use std::sync::Arc;

/// A path with its look.
pub(crate) type Page = (Path, Arc<Look, Global>);

/// The pages of a target, and the paths at which it may have another look than the last one.
#[derive(Drop)]
pub(crate) struct Turned {
    pub(crate) pages: Vec<Page>,
    pub(crate) touched: Vec<Path>,
}

/// The pages of a target, none where there is none.
pub(crate) fn pages_of(target: &Option<Target>) -> &[Page]
    ensures { looks_by_path result.now ≡ pages_in target.now }
{
    match target {
        None => &[],
        Some(target) => target.pages.items(),
    }
}

fn add_paths(paths: &mut Vec<Path>, pages: &[Page]) -> Result<(), NoMemory>
    ensures { OnOk result (paths.new.items ≡ paths.old.items ++ map (λ p. p.0) pages.now) }
{
    for page in pages {
        paths.push(page.0)?;
    }
    Ok(())
}

// Puts in a page with the look that its object has now, as touched.
fn add_touched(turned: &mut Turned, stock: &Stock, page: &(Path, Obj)) -> Result<(), NoMemory>
    requires { IsTrue (is_in stock.now.looked page.now.1) }
    ensures pages { OnOk result (looks_by_path turned.new.pages.items
        ≡ looks_by_path turned.old.pages.items ++ (page.now.0, look stock.now.content page.now.1) ∷ []) }
    ensures touched { OnOk result (turned.new.touched.items ≡ turned.old.touched.items ++ page.now.0 ∷ []) }
{
    let look = stock.look(&page.1)?;
    turned.pages.push((page.0, look))?;
    turned.touched.push(page.0)?;
    Ok(())
}

// Puts in pages that the last target doesn't have.
fn add_new(turned: &mut Turned, stock: &Stock, pages: &[(Path, Obj)]) -> Result<(), NoMemory>
    requires { AreLooked stock.now.looked pages.now }
    ensures pages { OnOk result (looks_by_path turned.new.pages.items
        ≡ looks_by_path turned.old.pages.items ++ looks_shown stock.now.content pages.now) }
    ensures touched { OnOk result (turned.new.touched.items
        ≡ turned.old.touched.items ++ map (λ p. p.0) pages.now) }
{
    for page in pages {
        add_touched(turned, stock, page)?;
    }
    Ok(())
}

// Puts in a page that the last target has: with its look there, untouched, where it shows the same object, which
// isn't among these.
fn turn_page(
    turned: &mut Turned,
    stock: &Stock,
    before: &Page,
    page: &(Path, Obj),
    once: &ObjSet,
) -> Result<(), NoMemory>
    requires looked { IsTrue (is_in stock.now.looked page.now.1) }
    requires current { IsCurrent stock.now.content stock.now.looked once.now before.now.1.value }
    ensures pages { OnOk result (looks_by_path turned.new.pages.items
        ≡ looks_by_path turned.old.pages.items ++ (page.now.0, look stock.now.content page.now.1) ∷ []) }
    ensures touched { OnOk result (turned.new.touched.items
        ≡ (if same_obj before.now.1.value.obj page.now.1 && not (is_in once.now page.now.1)
        then turned.old.touched.items else turned.old.touched.items ++ page.now.0 ∷ [])) }
{
    if before.1.obj == page.1 && !once.contains(&page.1) {
        let look = Arc::try_clone(&before.1)?;
        turned.pages.push((page.0, look))?;
        return Ok(());
    }
    add_touched(turned, stock, page)
}

/// The target of a stock, where all that is found has a look, and the touched paths in their order: those of
/// pages that are new or gone, that show another object than in the last target, or one of these. The other
/// pages have their looks there.
///
/// The cost is that of one walk over both targets' pages, side by side, with a search among these objects for
/// each path that is in both, and of a search for each touched page. No looks are compared or copied.
pub(crate) fn turn_pages(
    alloc: Global,
    stock: &Stock,
    last: &[Page],
    once: &ObjSet,
) -> Result<Turned, NoMemory>
    requires joined { unjoined_in stock.now ≡ [] }
    requires rising { IsTrue (is_sorted text_cmp (looks_by_path last.now)) }
    requires shown { All (IsCurrent stock.now.content stock.now.looked once.now)
        (looks_in (looks_by_path last.now)) }
    ensures pages { IfOk result (λ made. looks_by_path made.pages.items ≡ page_looks stock.now.content) }
    ensures touched { IfOk result (λ made.
        AreTouched once.now (looks_by_path last.now) (page_looks stock.now.content) made.touched.items) }
    ensures order { IfOk result (λ made. IsStrictlySortedBy text_cmp made.touched.items) }
{
    let pages = stock.pages();
    let mut turned = Turned {
        pages: Vec::with_capacity(alloc, pages.len())?,
        touched: Vec::new(alloc),
    };
    let mut last_at = 0;
    let mut at = 0;
    while last_at < last.len() && at < pages.len() {
        let before = &last[last_at];
        let after = &pages[at];
        match before.0.cmp(&after.0) {
            Ordering::Less => {
                turned.touched.push(before.0)?;
                last_at += 1;
            }
            Ordering::Greater => {
                add_touched(&mut turned, stock, after)?;
                at += 1;
            }
            Ordering::Equal => {
                turn_page(&mut turned, stock, before, after, once)?;
                last_at += 1;
                at += 1;
            }
        }
    }
    add_paths(&mut turned.touched, &last[last_at..])?;
    add_new(&mut turned, stock, &pages[at..])?;
    Ok(turned)
}
