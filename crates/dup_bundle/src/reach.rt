// What is reached by needs.
ghost use Rattle.std.specs.Prelude.{◌≡◌, ◌+◌, ◌||◌, ◌&&◌, not, IfOk, OnOk, IsTrue, length};
ghost use Rattle.std.specs.List.{filter, list_all, list_any};
ghost use Rattle.std.specs.Ordering.{eq_by_cmp};
ghost use Rattle.std.specs.List.Sorted.{IsStrictlySortedBy};
ghost use Rattle.dup_names.specs.Order.{text_cmp};
ghost use Rattle.dup_names.specs.Words.{Path as Word};
ghost use Rattle.std.specs.Ordering.{is_eq};
ghost use Rattle.dup_names.specs.contracts.object.ObjOrd.TheImpl.{ghosts as order};
ghost use Rattle.dup_names.specs.declared.object.Obj.{Obj as Object};
ghost use Rattle.dup_model.specs.Bundles.{reached};
ghost use Rattle.dup_model.specs.Editions.{has};
ghost use Rattle.dup_bundle.specs.Between.{is_needed as needed_between, needs_changed, AreChanged};
ghost use Rattle.dup_bundle.specs.Hinted.{is_done, users_of, AreComplete, AreDone};

use crate::changed::Changed;
use crate::hints::Hints;
use crate::needing::is_needed;
use crate::path_set::add_path;
use crate::sorted::SortedTarget;
use dup_edition::Edition;
use dup_names::{Bytes, NoMemory, Obj, Path};
use std::alloc::Global;
use std::collections::BTreeSet;

// Adds the other path, where it is changed, this one needs it, and it is new.
fn add_if_needed(
    edition: &Edition,
    target: &SortedTarget<'_>,
    changed: &Changed,
    path: &Path,
    other: &Path,
    seen: &mut BTreeSet<Path>,
    due: &mut Vec<Path>,
) -> Result<(), NoMemory>
    requires { IsStrictlySortedBy text_cmp seen.old.keys }
    ensures seen { OnOk result ((q : Word) →
        has seen.new.keys q ≡
        (has seen.old.keys q ||
        eq_by_cmp text_cmp q other.now &&
        needs_changed edition.now target.now changed.now path.now other.now)) }
    ensures due { OnOk result ((q : Word) →
        has due.new.items q ≡ (has due.old.items q || has seen.new.keys q && not (has seen.old.keys q))) }
    ensures order { IsStrictlySortedBy text_cmp seen.new.keys }
    ensures count { OnOk result (length due.new.items + length seen.old.keys ≡
        length due.old.items + length seen.new.keys) }
{
    if seen.contains(other) {
        return Ok(());
    }
    if !(changed.has(other) && is_needed(edition, target, path, other)) {
        return Ok(());
    }
    add_path(seen, other)?;
    due.push(*other)?;
    Ok(())
}

// Adds those of the others that are changed and that this one needs, where they are new.
fn add_listed(
    edition: &Edition,
    target: &SortedTarget<'_>,
    changed: &Changed,
    path: &Path,
    others: &[Path],
    seen: &mut BTreeSet<Path>,
    due: &mut Vec<Path>,
) -> Result<(), NoMemory>
    requires { IsStrictlySortedBy text_cmp seen.old.keys }
    ensures seen { OnOk result ((q : Word) →
        has seen.new.keys q ≡
        (has seen.old.keys q ||
        has others.now q && needs_changed edition.now target.now changed.now path.now q)) }
    ensures due { OnOk result ((q : Word) →
        has due.new.items q ≡ (has due.old.items q || has seen.new.keys q && not (has seen.old.keys q))) }
    ensures order { IsStrictlySortedBy text_cmp seen.new.keys }
    ensures count { OnOk result (length due.new.items + length seen.old.keys ≡
        length due.old.items + length seen.new.keys) }
{
    for other in others {
        add_if_needed(edition, target, changed, path, other, seen, due)?;
    }
    Ok(())
}

/// Marks an object.
pub(crate) fn mark(done: &mut BTreeSet<Obj>, obj: &Obj) -> Result<(), NoMemory>
    ensures { OnOk result ((o : Object) → is_done done.new o ≡
        (is_eq (order.cmp obj.now o) || is_done done.old o)) }
{
    let template = obj.template;
    let key = obj.key;
    done.insert(Obj { template, key })?;
    Ok(())
}

// Whether all of these paths were seen.
fn are_seen(paths: &[Path], seen: &BTreeSet<Path>) -> bool
    ensures { result ≡ list_all (has seen.now.keys) paths.now }
{
    paths.iter().all(|path| seen.contains(path))
}

// Marks an object where all of these paths were seen.
fn mark_if_seen(
    done: &mut BTreeSet<Obj>,
    obj: &Obj,
    paths: &[Path],
    seen: &BTreeSet<Path>,
) -> Result<(), NoMemory>
    ensures { OnOk result ((o : Object) → is_done done.new o ≡
        (is_eq (order.cmp obj.now o) && list_all (has seen.now.keys) paths.now || is_done done.old o)) }
{
    if are_seen(paths, seen) {
        mark(done, obj)?;
        return Ok(());
    }
    Ok(())
}

// Adds the users of an object, as the hints have them, that are changed and that this path needs. It does
// nothing where all of them were seen.
fn add_object(
    edition: &Edition,
    target: &SortedTarget<'_>,
    changed: &Changed,
    hints: &Hints,
    path: &Path,
    obj: &Obj,
    done: &mut BTreeSet<Obj>,
    seen: &mut BTreeSet<Path>,
    due: &mut Vec<Path>,
) -> Result<(), NoMemory>
    requires order { IsStrictlySortedBy text_cmp seen.old.keys }
    requires done { AreDone hints.now done.old seen.old.keys }
    ensures seen { OnOk result ((q : Word) →
        has seen.new.keys q ≡
        (has seen.old.keys q || has (users_of hints.now.users obj.now) q &&
        needs_changed edition.now target.now changed.now path.now q)) }
    ensures due { OnOk result ((q : Word) →
        has due.new.items q ≡ (has due.old.items q || has seen.new.keys q && not (has seen.old.keys q))) }
    ensures order { IsStrictlySortedBy text_cmp seen.new.keys }
    ensures count { OnOk result (length due.new.items + length seen.old.keys ≡
        length due.old.items + length seen.new.keys) }
    ensures done { OnOk result (AreDone hints.now done.new seen.new.keys) }
{
    if done.contains(obj) {
        return Ok(());
    }
    let users = hints.users(obj);
    add_listed(edition, target, changed, path, users, seen, due)?;
    mark_if_seen(done, obj, users, seen)?;
    Ok(())
}

// Adds the users of these objects, as the hints have them, that are changed and that this path needs.
fn add_users(
    edition: &Edition,
    target: &SortedTarget<'_>,
    changed: &Changed,
    hints: &Hints,
    path: &Path,
    uses: &[(Obj, Bytes)],
    done: &mut BTreeSet<Obj>,
    seen: &mut BTreeSet<Path>,
    due: &mut Vec<Path>,
) -> Result<(), NoMemory>
    requires order { IsStrictlySortedBy text_cmp seen.old.keys }
    requires done { AreDone hints.now done.old seen.old.keys }
    ensures seen { OnOk result ((q : Word) →
        has seen.new.keys q ≡
        (has seen.old.keys q || list_any (λ x. has (users_of hints.now.users x.0) q) uses.now &&
        needs_changed edition.now target.now changed.now path.now q)) }
    ensures due { OnOk result ((q : Word) →
        has due.new.items q ≡ (has due.old.items q || has seen.new.keys q && not (has seen.old.keys q))) }
    ensures order { IsStrictlySortedBy text_cmp seen.new.keys }
    ensures count { OnOk result (length due.new.items + length seen.old.keys ≡
        length due.old.items + length seen.new.keys) }
    ensures done { OnOk result (AreDone hints.now done.new seen.new.keys) }
{
    for shown in uses {
        add_object(
            edition, target, changed, hints, path, &shown.0, done, seen, due,
        )?;
    }
    Ok(())
}

/// Adds the changed paths that this one needs, where they are new.
pub(crate) fn add_needed(
    edition: &Edition,
    target: &SortedTarget<'_>,
    changed: &Changed,
    hints: &Hints,
    path: &Path,
    done: &mut BTreeSet<Obj>,
    seen: &mut BTreeSet<Path>,
    due: &mut Vec<Path>,
) -> Result<(), NoMemory>
    requires changed { AreChanged edition.now target.now changed.now }
    requires hints { AreComplete hints.now edition.now target.now }
    requires order { IsStrictlySortedBy text_cmp seen.old.keys }
    requires done { AreDone hints.now done.old seen.old.keys }
    ensures seen { OnOk result ((q : Word) →
        has seen.new.keys q ≡
        (has seen.old.keys q || needs_changed edition.now target.now changed.now path.now q)) }
    ensures due { OnOk result ((q : Word) →
        has due.new.items q ≡ (has due.old.items q || has seen.new.keys q && not (has seen.old.keys q))) }
    ensures order { IsStrictlySortedBy text_cmp seen.new.keys }
    ensures count { OnOk result (length due.new.items + length seen.old.keys ≡
        length due.old.items + length seen.new.keys) }
    ensures done { OnOk result (AreDone hints.now done.new seen.new.keys) }
{
    match target.look(path) {
        None => {
            add_listed(
                edition,
                target,
                changed,
                path,
                hints.linkers(path),
                seen,
                due,
            )?;
        }
        Some(look) => {
            add_users(
                edition,
                target,
                changed,
                hints,
                path,
                look.uses.items(),
                done,
                seen,
                due,
            )?;
            add_listed(
                edition,
                target,
                changed,
                path,
                look.links.items(),
                seen,
                due,
            )?;
        }
    }
    Ok(())
}

/// The changed paths that are reached from this one by needs, itself among them. It ends once all were seen.
pub(crate) fn reach(
    alloc: Global,
    edition: &Edition,
    target: &SortedTarget<'_>,
    changed: &Changed,
    hints: &Hints,
    start: &Path,
) -> Result<BTreeSet<Path>, NoMemory>
    requires changed { AreChanged edition.now target.now changed.now }
    requires hints { AreComplete hints.now edition.now target.now }
    requires start { IsTrue (has changed.now start.now) }
    ensures { IfOk result (λ paths.
        paths.keys ≡
        filter (reached (needed_between edition.now target.now) changed.now start.now) changed.now) }
{
    let mut seen = BTreeSet::new(alloc);
    let mut due = Vec::new(alloc);
    let mut done = BTreeSet::new(alloc);
    add_path(&mut seen, start)?;
    due.push(*start)?;
    while let Some(path) = due.pop() {
        if seen.len() == changed.len() {
            return Ok(seen);
        }
        add_needed(
            edition, target, changed, hints, &path, &mut done, &mut seen, &mut due,
        )?;
    }
    Ok(seen)
}
