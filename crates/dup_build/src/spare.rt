// Pages that are kept from the target before the last, so that the next one costs what a work changed.
ghost use Rattle.std.specs.Prelude.{◌≡◌, ◌↔◌, ◌∷◌, ◌++◌, [], Some, IsTrue, IfErr, IfOk, IfSome, OnOk, length};
ghost use Rattle.std.specs.FinMap as fin;
ghost use Rattle.std.specs.FinMap.Entries.{is_sorted};
ghost use Rattle.std.specs.List.{All};
ghost use Rattle.std.specs.List.Sorted.{IsSearchInRange, IsStrictlySortedBy};
ghost use Rattle.dup_edition.specs.Places.{IsAt, IsGap};
ghost use Rattle.dup_names.specs.Order.{text_cmp};
ghost use Rattle.dup_names.specs.Words.{Path as Word};
ghost use Rattle.dup_model.specs.Editions.{has};
ghost use Rattle.dup_model.specs.Pages.{page_looks, pages};
ghost use Rattle.dup_build.specs.Paths.{AreTouched, IsCurrent, looks_in};
ghost use Rattle.dup_build.specs.Spare.{is_of_one, objs_by_path, AreRenewed, AreTurned, HaveOwnPaths, IsSpare, ShowLooked};
ghost use Rattle.dup_build.specs.Stocked.{unjoined_in};
ghost use Rattle.dup_build.specs.Targets.{looks_by_path, pages_in};

use crate::stock::Stock;
use crate::turning::{Page, Turned, turn_pages};
use dup_names::{NoMemory, Obj, Path};
use dup_render::Target;
use dup_sets::ObjSet;
use dup_template::{Site, path_of};
use std::alloc::Global;
use std::collections::BTreeSet;

/// The pages of the target before the last, where it had the same ones, and the paths at which their looks
/// may be others than in the last one.
#[derive(Drop)]
pub(crate) struct Spare {
    pages: Vec<Page>,
    behind: Vec<Path>,
}

/// What is spare once a target is replaced by one that is as it was but at these paths: nothing where other
/// pages were listed.
pub(crate) fn spare_of(last: Option<Target>, behind: Vec<Path>, same_pages: bool) -> Option<Spare>
    ensures same { IfSome result (λ spare. IsTrue same_pages) }
    ensures pages { IfSome result (λ spare. looks_by_path spare.pages.items ≡ pages_in last) }
    ensures behind { IfSome result (λ spare. spare.behind.items ≡ behind.items) }
{
    if !same_pages {
        return None;
    }
    match last {
        None => None,
        Some(target) => Some(Spare {
            pages: target.pages.into_vec(),
            behind,
        }),
    }
}

// The place of a path, or the one where it would stand.
fn place_of(pages: &[Page], path: &Path) -> Result<usize, usize>
    requires { IsTrue (is_sorted text_cmp (looks_by_path pages.now)) }
    ensures found { IfOk result (IsAt (looks_by_path pages.now) path.now) }
    ensures absent { IfErr result (IsGap text_cmp (looks_by_path pages.now) path.now) }
    ensures within { IsSearchInRange result (length pages.now) }
{
    pages.binary_search_by(|page| page.0.cmp(path))
}

// The path at which these pages show an object, where they do.
fn page_of(site: &Site, pages: &[Page], obj: &Obj) -> Option<Path>
    requires rising { IsTrue (is_sorted text_cmp (looks_by_path pages.now)) }
    requires own { HaveOwnPaths site.now (looks_by_path pages.now) }
    ensures { (p : Word) → (result ≡ Some p)
        ↔ IsTrue (is_of_one (obj.now ∷ []) (fin.find text_cmp p (looks_by_path pages.now))) }
{
    let path = path_of(site, obj)?;
    match place_of(pages, &path) {
        Err(_) => None,
        Ok(at) => {
            if pages[at].1.obj == *obj {
                Some(path)
            } else {
                None
            }
        }
    }
}

// The paths at which these pages show one of these objects, in order.
fn paths_of(alloc: Global, site: &Site, pages: &[Page], objs: &[Obj]) -> Result<Vec<Path>, NoMemory>
    requires rising { IsTrue (is_sorted text_cmp (looks_by_path pages.now)) }
    requires own { HaveOwnPaths site.now (looks_by_path pages.now) }
    ensures shown { IfOk result (λ made. (p : Word) → has made.items p
        ≡ is_of_one objs.now (fin.find text_cmp p (looks_by_path pages.now))) }
    ensures order { IfOk result (λ made. IsStrictlySortedBy text_cmp made.items) }
{
    let mut paths = BTreeSet::new(alloc);
    for obj in objs {
        if let Some(path) = page_of(site, pages, obj) {
            paths.insert(path)?;
        }
    }
    Ok(paths.into_iter().collect(alloc)?)
}

// Gives the page at a path, if there is one, the look that its object has now.
fn renew_one(pages: &mut [Page], stock: &Stock, path: &Path) -> Result<(), NoMemory>
    requires rising { IsTrue (is_sorted text_cmp (looks_by_path pages.old)) }
    requires looked { ShowLooked stock.now.looked (looks_by_path pages.old) }
    ensures rising { OnOk result (IsTrue (is_sorted text_cmp (looks_by_path pages.new))) }
    ensures renewed { OnOk result (AreRenewed stock.now.content (path.now ∷ []) (looks_by_path pages.old)
        (looks_by_path pages.new)) }
{
    match place_of(pages, path) {
        Err(_) => Ok(()),
        Ok(at) => {
            let look = stock.look(&pages[at].1.obj)?;
            pages[at].1 = look;
            Ok(())
        }
    }
}

// Gives the pages at these paths the looks that their objects have now.
fn renew(pages: &mut [Page], stock: &Stock, paths: &[Path]) -> Result<(), NoMemory>
    requires rising { IsTrue (is_sorted text_cmp (looks_by_path pages.old)) }
    requires looked { ShowLooked stock.now.looked (looks_by_path pages.old) }
    ensures rising { OnOk result (IsTrue (is_sorted text_cmp (looks_by_path pages.new))) }
    ensures renewed { OnOk result (AreRenewed stock.now.content paths.now (looks_by_path pages.old)
        (looks_by_path pages.new)) }
{
    for path in paths {
        renew_one(pages, stock, path)?;
    }
    Ok(())
}

// The target of a stock with the last one's pages, where all that is found has a look, made of what is spare; and
// the paths of the pages that show one of these objects, in order. The other pages have their looks in the last
// target.
fn turn_spare(
    alloc: Global,
    stock: &Stock,
    last: &[Page],
    spare: Spare,
    once: &[Obj],
) -> Result<Turned, NoMemory>
    requires joined { unjoined_in stock.now ≡ [] }
    requires rising { IsTrue (is_sorted text_cmp (looks_by_path last.now)) }
    requires shown { All (IsCurrent stock.now.content stock.now.looked once.now)
        (looks_in (looks_by_path last.now)) }
    requires listed { objs_by_path (looks_by_path last.now) ≡ pages stock.now.content }
    requires spare { IsSpare (looks_by_path last.now) spare }
    ensures pages { IfOk result (λ made. looks_by_path made.pages.items ≡ page_looks stock.now.content) }
    ensures touched { IfOk result (λ made.
        AreTouched once.now (looks_by_path last.now) (page_looks stock.now.content) made.touched.items) }
    ensures order { IfOk result (λ made. IsStrictlySortedBy text_cmp made.touched.items) }
{
    let Spare {
        mut pages,
        mut behind,
    } = spare;
    let site = stock.content().site();
    // That a site is good is a fact of its type, which a proof learns by this call.
    site.parts();
    let touched = paths_of(alloc, site, last, once)?;
    behind.extend_from_slice(&touched)?;
    renew(&mut pages, stock, &behind)?;
    Ok(Turned { pages, touched })
}

/// The target of a stock, where all that is found has a look, and the touched paths in their order: those of
/// pages that are new or gone, that show another object than in the last target, or one of these. The other
/// pages have their looks there.
///
/// The cost is that of a search for each of these objects, and for each path where what is spare is behind.
/// Where nothing is spare, or the pages may be others, it is that of a walk over both targets' pages.
pub(crate) fn turn(
    alloc: Global,
    stock: &Stock,
    last: &[Page],
    spare: Option<Spare>,
    same_pages: bool,
    once: &ObjSet,
) -> Result<Turned, NoMemory>
    requires joined { unjoined_in stock.now ≡ [] }
    requires rising { IsTrue (is_sorted text_cmp (looks_by_path last.now)) }
    requires shown { All (IsCurrent stock.now.content stock.now.looked once.now)
        (looks_in (looks_by_path last.now)) }
    requires turned { AreTurned same_pages stock.now.content (looks_by_path last.now) spare }
    ensures pages { IfOk result (λ made. looks_by_path made.pages.items ≡ page_looks stock.now.content) }
    ensures touched { IfOk result (λ made.
        AreTouched once.now (looks_by_path last.now) (page_looks stock.now.content) made.touched.items) }
    ensures order { IfOk result (λ made. IsStrictlySortedBy text_cmp made.touched.items) }
{
    if same_pages {
        if let Some(spare) = spare {
            let once = once.list(alloc)?;
            let turned = turn_spare(alloc, stock, last, spare, &once)?;
            return Ok(turned);
        }
    }
    let turned = turn_pages(alloc, stock, last, once)?;
    Ok(turned)
}
