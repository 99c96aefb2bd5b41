// Levels of changed paths: none needs a path of a higher level.
ghost use Rattle.std.specs.Prelude.{◌≡◌, ◌+◌, List, Some, IfOk, OnOk, if◌then◌else◌};
ghost use Rattle.dup_names.specs.Words.{Path as Word};
ghost use Rattle.dup_model.specs.Editions.{has};
ghost use Rattle.dup_bundle.specs.Between.{is_needed as needed_between, AreChanged};
ghost use Rattle.dup_bundle.specs.Hinted.{AreComplete};
ghost use Rattle.dup_bundle.specs.Waiting.{level_of, AreLevelled, AreLevels};

use crate::changed::Changed;
use crate::hints::Hints;
use crate::reach::reach;
use crate::sorted::SortedTarget;
use dup_edition::Edition;
use dup_names::{NoMemory, Path};
use std::alloc::Global;
use std::collections::{BTreeMap, BTreeSet};

// Puts these paths at a level.
fn put_at_level(
    levels: &mut BTreeMap<Path, usize>,
    paths: &BTreeSet<Path>,
    level: usize,
) -> Result<(), NoMemory>
    ensures { OnOk result ((q : Word) →
        level_of levels.new q ≡ (if has paths.now.keys q then Some level else level_of levels.old q)) }
{
    for path in paths {
        levels.insert(*path, level)?;
    }
    Ok(())
}

// Puts what is reached from a path at this level, unless the path has one. It is left no more.
fn level_from(
    alloc: Global,
    edition: &Edition,
    target: &SortedTarget<'_>,
    hints: &Hints,
    path: &Path,
    level: usize,
    left: &mut Changed,
    levels: &mut BTreeMap<Path, usize>,
) -> Result<(), NoMemory>
    requires left { AreChanged edition.now target.now left.old }
    requires hints { AreComplete hints.now edition.now target.now }
    ensures left { OnOk result (AreChanged edition.now target.now left.new) }
    ensures levels { OnOk result ((changed : List Word) →
        AreLevelled (needed_between edition.now target.now) changed left.old levels.old level →
        AreLevelled (needed_between edition.now target.now) changed left.new levels.new (level + 1)) }
{
    if !left.has(path) {
        return Ok(());
    }
    let paths = reach(alloc, edition, target, left, hints, path)?;
    put_at_level(levels, &paths, level)?;
    left.leave(&paths);
    Ok(())
}

/// Levels of the changed paths that stand in an order, from its end: what one of them reaches of those
/// that have no level yet gets the next one.
pub(crate) fn levels_of(
    alloc: Global,
    edition: &Edition,
    target: &SortedTarget<'_>,
    changed: &Changed,
    hints: &Hints,
    order: &[Path],
) -> Result<BTreeMap<Path, usize>, NoMemory>
    requires changed { AreChanged edition.now target.now changed.now }
    requires hints { AreComplete hints.now edition.now target.now }
    ensures { IfOk result (AreLevels (needed_between edition.now target.now) changed.now) }
{
    let mut levels = BTreeMap::new(alloc);
    let mut left = changed.copy(alloc)?;
    for level in 0..order.len() {
        let path = &order[order.len() - 1 - level];
        level_from(
            alloc,
            edition,
            target,
            hints,
            path,
            level,
            &mut left,
            &mut levels,
        )?;
    }
    Ok(levels)
}
