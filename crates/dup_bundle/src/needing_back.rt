// Which changed paths need a path.
ghost use Rattle.std.specs.Prelude.{◌≡◌, ◌||◌, ◌&&◌, true, OnOk};
ghost use Rattle.dup_names.specs.Words.{Path as Word};
ghost use Rattle.dup_model.specs.Editions.{has};
ghost use Rattle.dup_bundle.specs.Between.{is_needed as needed_between};
ghost use Rattle.dup_bundle.specs.Waiting.{Adds};

use crate::changed::Changed;
use crate::hints::{Hints, is_shown, links, uses};
use crate::needing::{is_needed, shown};
use crate::reach::mark;
use crate::sorted::SortedTarget;
use dup_edition::Edition;
use dup_names::{Bytes, NoMemory, Obj, Path};
use std::collections::BTreeSet;

// Lists those of the others that are changed and need this path.
fn list_others(
    edition: &Edition,
    target: &SortedTarget<'_>,
    changed: &Changed,
    path: &Path,
    others: &[Path],
    found: &mut Vec<Path>,
) -> Result<(), NoMemory>
    ensures { OnOk result (Adds (λ q. has changed.now q && needed_between edition.now target.now q path.now)
        found.old.items found.new.items) }
{
    for other in others {
        if changed.has(other) && is_needed(edition, target, other, path) {
            found.push(*other)?;
        }
    }
    Ok(())
}

// Lists the changed paths that will use this object, as the hints have them, and that need this path. It
// does nothing at an object that is marked, and marks it.
fn list_object(
    edition: &Edition,
    target: &SortedTarget<'_>,
    changed: &Changed,
    back: &Hints,
    path: &Path,
    obj: &Obj,
    done: &mut BTreeSet<Obj>,
    found: &mut Vec<Path>,
) -> Result<(), NoMemory>
    ensures { OnOk result (Adds (λ q. has changed.now q && needed_between edition.now target.now q path.now)
        found.old.items found.new.items) }
{
    if done.contains(obj) {
        return Ok(());
    }
    list_others(edition, target, changed, path, back.users(obj), found)?;
    mark(done, obj)?;
    Ok(())
}

// Lists the changed paths that need this one for what its page shows, at objects that aren't marked.
fn list_users(
    edition: &Edition,
    target: &SortedTarget<'_>,
    changed: &Changed,
    back: &Hints,
    path: &Path,
    old: &[(Obj, Bytes)],
    done: &mut BTreeSet<Obj>,
    found: &mut Vec<Path>,
) -> Result<(), NoMemory>
    ensures { OnOk result (Adds (λ q. has changed.now q && needed_between edition.now target.now q path.now)
        found.old.items found.new.items) }
{
    for showing in old {
        if !is_shown(uses(target.look(path)), &showing.0, &showing.1) {
            list_object(
                edition, target, changed, back, path, &showing.0, done, found,
            )?;
        }
    }
    Ok(())
}

/// Lists changed paths that need this one, at objects that aren't marked yet.
pub(crate) fn list_needing(
    edition: &Edition,
    target: &SortedTarget<'_>,
    changed: &Changed,
    back: &Hints,
    path: &Path,
    done: &mut BTreeSet<Obj>,
    found: &mut Vec<Path>,
) -> Result<(), NoMemory>
    ensures { OnOk result (Adds (λ q. has changed.now q && needed_between edition.now target.now q path.now)
        found.old.items found.new.items) }
{
    let old = shown(edition, path);
    list_users(edition, target, changed, back, path, uses(old), done, found)?;
    list_others(edition, target, changed, path, back.linkers(path), found)?;
    list_others(edition, target, changed, path, links(old), found)?;
    Ok(())
}
