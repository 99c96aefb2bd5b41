// An order of the changed paths in which strong parts of needs are found at once.
ghost use Rattle.std.specs.Prelude.{◌≡◌, true, false, IfOk, IfSome, OnOk};
ghost use Rattle.std.specs.List.Sorted.{IsStrictlySortedBy};
ghost use Rattle.dup_names.specs.Order.{text_cmp};
ghost use Rattle.dup_names.specs.Words.{Path as Word};
ghost use Rattle.dup_model.specs.Editions.{has};

use crate::changed::Changed;
use crate::hints::Hints;
use crate::needing_back::list_needing;
use crate::path_set::add_path;
use crate::sorted::SortedTarget;
use dup_edition::Edition;
use dup_names::{NoMemory, Obj, Path};
use std::alloc::Global;
use std::collections::BTreeSet;

// What is still to do at a path.
#[derive(Drop)]
struct Step {
    path: Path,
    is_left: bool,
}

// Goes back to the last path that wasn't seen. What is left on the way stands behind the order.
fn next_unseen(
    changed: &Changed,
    steps: &mut Vec<Step>,
    seen: &BTreeSet<Path>,
    order: &mut Vec<Path>,
) -> Result<Option<Path>, NoMemory>
    ensures { IfOk result (λ found. IfSome found (λ p.
        (has changed.now p ≡ true) × (has seen.now.keys p ≡ false))) }
{
    while let Some(step) = steps.pop() {
        if step.is_left {
            order.push(step.path)?;
        } else if changed.has(&step.path) && !seen.contains(&step.path) {
            return Ok(Some(step.path));
        }
    }
    Ok(None)
}

// Puts these paths on what is still to do.
fn add_steps(steps: &mut Vec<Step>, paths: &[Path]) -> Result<(), NoMemory> {
    for path in paths {
        steps.push(Step {
            path: *path,
            is_left: false,
        })?;
    }
    Ok(())
}

// Puts what needs this path on what is still to do, behind the step that leaves it.
fn enter(
    alloc: Global,
    edition: &Edition,
    target: &SortedTarget<'_>,
    changed: &Changed,
    back: &Hints,
    path: Path,
    done: &mut BTreeSet<Obj>,
    steps: &mut Vec<Step>,
) -> Result<(), NoMemory> {
    let mut found = Vec::new(alloc);
    list_needing(edition, target, changed, back, &path, done, &mut found)?;
    steps.push(Step {
        path,
        is_left: true,
    })?;
    add_steps(steps, &found)?;
    Ok(())
}

/// Changed paths in the order in which a walk from each of them, from a path to those that need it, leaves
/// them.
pub(crate) fn leaving_order(
    alloc: Global,
    edition: &Edition,
    target: &SortedTarget<'_>,
    changed: &Changed,
    back: &Hints,
) -> Result<Vec<Path>, NoMemory> {
    let mut order = Vec::new(alloc);
    let mut steps = Vec::new(alloc);
    add_roots(&mut steps, changed)?;
    let mut seen = BTreeSet::new(alloc);
    let mut done = BTreeSet::new(alloc);
    while let Some(path) = next_unseen(changed, &mut steps, &seen, &mut order)? {
        add_path(&mut seen, &path)?;
        enter(
            alloc, edition, target, changed, back, path, &mut done, &mut steps,
        )?;
    }
    Ok(order)
}

// Puts all changed paths on what is still to do.
fn add_roots(steps: &mut Vec<Step>, changed: &Changed) -> Result<(), NoMemory> {
    for path in changed.paths() {
        steps.push(Step {
            path: *path,
            is_left: false,
        })?;
    }
    Ok(())
}
