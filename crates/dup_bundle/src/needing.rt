// What lies between an edition and a target.
ghost use Rattle.std.specs.Prelude.{◌≡◌, ◌||◌, ◌&&◌, IfOk, OnOk};
ghost use Rattle.std.specs.List.{list_any};
ghost use Rattle.std.specs.List.Sorted.{IsStrictlySortedBy};
ghost use Rattle.std.specs.Option.{option_copied, option_map};
ghost use Rattle.std.specs.Ordering.{eq_by_cmp};
ghost use Rattle.dup_names.specs.Order.{text_cmp};
ghost use Rattle.dup_names.specs.Words.{Path as Word};
ghost use Rattle.dup_model.specs.Editions.{edition as edition_of, has, looks, target_looks};
ghost use Rattle.dup_model.specs.Needs.{links as link_test};
ghost use Rattle.dup_bundle.specs.Between.{is_changed as changed_between, is_needed as needed_between};
ghost use Rattle.dup_bundle.specs.Targets.{aim_of, IsByPath};

use crate::looks::{are_same, clash, links};
use crate::path_set::{add_path, listed};
use crate::sorted::SortedTarget;
use dup_edition::{Edition, Page};
use dup_names::{Look, NoMemory, Path};
use dup_render::Target;
use std::alloc::Global;
use std::collections::BTreeSet;
use std::sync::Arc;

// The look that the edition has at a path.
pub(crate) fn shown<'a>(edition: &'a Edition, path: &Path) -> Option<&'a Arc<Look, Global>>
    ensures { option_map (λ l. l.value) (option_copied result) ≡ looks (edition_of edition.now.log) path.now }
{
    match edition.get(path) {
        None => None,
        Some(page) => Some(page.look()),
    }
}

/// Whether edition and target have other looks at a path.
pub(crate) fn is_changed(edition: &Edition, target: &SortedTarget<'_>, path: &Path) -> bool
    ensures { result ≡ changed_between edition.now target.now path.now }
{
    !are_same(shown(edition, path), target.look(path))
}

/// Whether the page at a path needs the other.
pub(crate) fn is_needed(
    edition: &Edition,
    target: &SortedTarget<'_>,
    path: &Path,
    other: &Path,
) -> bool
    ensures { result ≡ needed_between edition.now target.now path.now other.now }
{
    path != other
        && (clash(target.look(path), shown(edition, other))
            || links(target.look(path), other) && shown(edition, other).is_none()
            || target.look(path).is_none() && links(shown(edition, other), path))
}

// Adds what this path needs among some pages.
fn add_shown(
    edition: &Edition,
    target: &SortedTarget<'_>,
    path: &Path,
    pages: &[Arc<Page, Global>],
    found: &mut BTreeSet<Path>,
) -> Result<(), NoMemory>
    ensures { OnOk result ((q : Word) →
        has found.new.keys q ≡
        (has found.old.keys q || list_any (λ p.
        eq_by_cmp text_cmp q p.value.path &&
        needed_between edition.now target.now path.now p.value.path) pages.now)) }
{
    for page in pages {
        if is_needed(edition, target, path, page.path()) {
            add_path(found, page.path())?;
        }
    }
    Ok(())
}

// Adds what this path needs among some links.
fn add_linked(
    edition: &Edition,
    target: &SortedTarget<'_>,
    path: &Path,
    links: &[Path],
    found: &mut BTreeSet<Path>,
) -> Result<(), NoMemory>
    ensures { OnOk result ((q : Word) →
        has found.new.keys q ≡
        (has found.old.keys q || list_any (λ p.
        eq_by_cmp text_cmp q p && needed_between edition.now target.now path.now p) links.now)) }
{
    for link in links {
        if is_needed(edition, target, path, link) {
            add_path(found, link)?;
        }
    }
    Ok(())
}

// The links of the page that the target has at a path, if it has one.
fn links_of<'a>(target: &'a SortedTarget<'_>, path: &Path) -> &'a [Path]
    ensures { (q : Word) → has result.now q ≡ link_test (target_looks target.now.pages path.now) q }
{
    match target.look(path) {
        None => &[],
        Some(look) => look.links.items(),
    }
}

/// The paths that the page at this one needs directly, in path order.
pub fn needs(
    alloc: Global,
    edition: &Edition,
    target: &Target,
    path: &Path,
) -> Result<Vec<Path>, NoMemory>
    requires { IsByPath target.now.pages }
    ensures order { IfOk result (λ paths. IsStrictlySortedBy text_cmp paths.items) }
    ensures needed { IfOk result (λ paths. (q : Word) →
        has paths.items q ≡ needed_between edition.now (aim_of target.now) path.now q) }
{
    let target = &SortedTarget::of(target);
    let mut found = BTreeSet::new(alloc);
    add_shown(edition, target, path, edition.pages(), &mut found)?;
    add_linked(edition, target, path, links_of(target, path), &mut found)?;
    let paths = listed(alloc, &found)?;
    Ok(paths)
}
