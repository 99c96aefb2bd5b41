// Whether a changed path is a knot, which all that it reaches reach back, or what holds it.
ghost use Rattle.std.specs.Prelude.{◌≡◌, not, ◌+◌, ◌≤◌, true, false, None, length};
ghost use Rattle.std.specs.Prelude.{IfOk, IfSome, IfNone, IsTrue, OnOk};
ghost use Rattle.std.specs.List.{filter, find};
ghost use Rattle.dup_model.specs.Editions.{target_looks};
ghost use Rattle.dup_model.specs.Needs.{IsSound};
ghost use Rattle.dup_bundle.specs.Between.{changed_paths};
ghost use Rattle.std.specs.List.Sorted.{IsStrictlySortedBy};
ghost use Rattle.dup_names.specs.Order.{text_cmp};
ghost use Rattle.dup_names.specs.Words.{Path as Word};
ghost use Rattle.dup_model.specs.Bundles.{is_knot, reached as reached_by};
ghost use Rattle.dup_model.specs.Editions.{has};
ghost use Rattle.dup_bundle.specs.Between.{is_needed as needed_between, AreChanged};
ghost use Rattle.dup_bundle.specs.Hinted.{AreComplete};
ghost use Rattle.dup_bundle.specs.Waiting.{Adds, is_below, level_of, AreLevels, IsHeldBy};

use crate::changed::Changed;
use crate::hints::Hints;
use crate::levels::levels_of;
use crate::needing::is_needed;
use crate::needing_back::list_needing;
use crate::order::leaving_order;
use crate::path_set::add_path;
use crate::reach::{add_needed, reach};
use crate::sorted::SortedTarget;
use dup_edition::Edition;
use dup_names::{NoMemory, Path};
use std::alloc::Global;
use std::collections::{BTreeMap, BTreeSet};

/// What is known of the needs between an edition and a target: which paths a path may need, which may need
/// it, and the levels of paths.
#[derive(Drop)]
pub(crate) struct Ways {
    pub(crate) hints: Hints,
    pub(crate) back: Hints,
    pub(crate) levels: BTreeMap<Path, usize>,
}

impl Ways {
    /// What is known where the hints alone are.
    pub(crate) fn with_hints(alloc: Global, hints: Hints) -> Ways
        ensures hints { result.hints ≡ hints }
        ensures levels { (p : Word) → level_of result.levels p ≡ None }
    {
        Ways {
            hints,
            back: Hints::none(alloc),
            levels: BTreeMap::new(alloc),
        }
    }

    /// What is known between an edition and a sound target, where the changed paths are known.
    pub(crate) fn between(
        alloc: Global,
        edition: &Edition,
        target: &SortedTarget<'_>,
        changed: &Changed,
    ) -> Result<Ways, NoMemory>
        requires changed { changed.now ≡ changed_paths edition.now target.now }
        requires sound { IsSound (target_looks target.now.pages) }
        ensures hints { IfOk result (λ ways. AreComplete ways.hints edition.now target.now) }
        ensures levels { IfOk result (λ ways.
            AreLevels (needed_between edition.now target.now) changed.now ways.levels) }
    {
        let hints = Hints::between(alloc, edition, target, changed)?;
        let back = Hints::backward(alloc, edition, target, changed, &hints)?;
        let order = leaving_order(alloc, edition, target, changed, &back)?;
        let levels = levels_of(alloc, edition, target, changed, &hints, &order)?;
        Ok(Ways {
            hints,
            back,
            levels,
        })
    }
}

// The level of a path, or 0.
fn level(levels: &BTreeMap<Path, usize>, path: &Path) -> usize
    ensures { is_below (level_of levels.now path.now) result ≡ false }
{
    match levels.get(path) {
        None => 0,
        Some(level) => *level,
    }
}

// Whether a path has a level below this one.
fn is_under(levels: &BTreeMap<Path, usize>, path: &Path, level: usize) -> bool
    ensures { result ≡ is_below (level_of levels.now path.now) level }
{
    match levels.get(path) {
        None => false,
        Some(at) => *at < level,
    }
}

// Adds those of these paths that are new and among some others.
fn add_new(
    found: &[Path],
    within: &BTreeSet<Path>,
    seen: &mut BTreeSet<Path>,
    due: &mut Vec<Path>,
) -> Result<(), NoMemory>
    requires { IsStrictlySortedBy text_cmp seen.old.keys }
    ensures seen { OnOk result (Adds (has found.now) seen.old.keys seen.new.keys) }
    ensures due { OnOk result (Adds (has found.now) due.old.items due.new.items) }
    ensures order { IsStrictlySortedBy text_cmp seen.new.keys }
    ensures count { OnOk result (length due.new.items + length seen.old.keys ≡
        length due.old.items + length seen.new.keys) }
    ensures grows { OnOk result (length seen.old.keys ≤ length seen.new.keys) }
{
    for path in found {
        if within.contains(path) && !seen.contains(path) {
            add_path(seen, path)?;
            due.push(*path)?;
        }
    }
    Ok(())
}

// Those of some paths from which, over them, this one is reached.
fn reaching(
    alloc: Global,
    edition: &Edition,
    target: &SortedTarget<'_>,
    changed: &Changed,
    back: &Hints,
    within: &BTreeSet<Path>,
    to: &Path,
) -> Result<BTreeSet<Path>, NoMemory>
    requires to { IsTrue (has changed.now to.now) }
    ensures { IfOk result (λ paths. (q : Word) → has paths.keys q ≡ true →
        reached_by (needed_between edition.now target.now) changed.now q to.now ≡ true) }
{
    let mut seen = BTreeSet::new(alloc);
    let mut due = Vec::new(alloc);
    let mut done = BTreeSet::new(alloc);
    add_path(&mut seen, to)?;
    due.push(*to)?;
    while let Some(path) = due.pop() {
        let mut found = Vec::new(alloc);
        list_needing(edition, target, changed, back, &path, &mut done, &mut found)?;
        add_new(&found, within, &mut seen, &mut due)?;
    }
    Ok(seen)
}

// Whether one changed path is reached from another.
fn is_reached(
    alloc: Global,
    edition: &Edition,
    target: &SortedTarget<'_>,
    changed: &Changed,
    hints: &Hints,
    from: &Path,
    to: &Path,
) -> Result<bool, NoMemory>
    requires changed { AreChanged edition.now target.now changed.now }
    requires hints { AreComplete hints.now edition.now target.now }
    requires from { IsTrue (has changed.now from.now) }
    requires to { IsTrue (has changed.now to.now) }
    ensures { IfOk result (λ reached.
        reached ≡ reached_by (needed_between edition.now target.now) changed.now from.now to.now) }
{
    if from == to || is_needed(edition, target, from, to) {
        return Ok(true);
    }
    let paths = reach(alloc, edition, target, changed, hints, from)?;
    Ok(paths.contains(to))
}

// Whether one changed path is reached from another, where some from which it is are known.
fn leads(
    alloc: Global,
    edition: &Edition,
    target: &SortedTarget<'_>,
    changed: &Changed,
    hints: &Hints,
    known: &BTreeSet<Path>,
    from: &Path,
    to: &Path,
) -> Result<bool, NoMemory>
    requires changed { AreChanged edition.now target.now changed.now }
    requires hints { AreComplete hints.now edition.now target.now }
    requires known { (q : Word) → has known.now.keys q ≡ true →
        reached_by (needed_between edition.now target.now) changed.now q to.now ≡ true }
    requires from { IsTrue (has changed.now from.now) }
    requires to { IsTrue (has changed.now to.now) }
    ensures { IfOk result (λ reached.
        reached ≡ reached_by (needed_between edition.now target.now) changed.now from.now to.now) }
{
    if known.contains(from) {
        return Ok(true);
    }
    let reached = is_reached(alloc, edition, target, changed, hints, from, to)?;
    Ok(reached)
}

// The first of these changed paths from which a path isn't reached, where some from which it is are known.
fn holder(
    alloc: Global,
    edition: &Edition,
    target: &SortedTarget<'_>,
    changed: &Changed,
    hints: &Hints,
    known: &BTreeSet<Path>,
    paths: &BTreeSet<Path>,
    to: &Path,
) -> Result<Option<Path>, NoMemory>
    requires changed { AreChanged edition.now target.now changed.now }
    requires hints { AreComplete hints.now edition.now target.now }
    requires known { (q : Word) → has known.now.keys q ≡ true →
        reached_by (needed_between edition.now target.now) changed.now q to.now ≡ true }
    requires within { (q : Word) → has paths.now.keys q ≡ true → has changed.now q ≡ true }
    requires to { IsTrue (has changed.now to.now) }
    ensures { IfOk result (λ other.
        other ≡ find (λ q.
        not (reached_by (needed_between edition.now target.now) changed.now q to.now)) paths.now.keys) }
{
    for other in paths {
        if !leads(alloc, edition, target, changed, hints, known, other, to)? {
            return Ok(Some(*other));
        }
    }
    Ok(None)
}

// What is reached from a path, unless the walk meets a path of a lower level.
fn walk_down(
    alloc: Global,
    edition: &Edition,
    target: &SortedTarget<'_>,
    changed: &Changed,
    ways: &Ways,
    start: &Path,
) -> Result<(BTreeSet<Path>, Option<Path>), NoMemory>
    requires changed { AreChanged edition.now target.now changed.now }
    requires hints { AreComplete ways.now.hints edition.now target.now }
    requires levels { AreLevels (needed_between edition.now target.now) changed.now ways.now.levels }
    requires start { IsTrue (has changed.now start.now) }
    ensures all { IfOk result (λ found. IfNone found.1 (found.0.keys ≡
        filter (reached_by (needed_between edition.now target.now) changed.now start.now) changed.now)) }
    ensures held { IfOk result (λ found. IfSome found.1
        (IsHeldBy (needed_between edition.now target.now) changed.now start.now)) }
{
    let level = level(&ways.levels, start);
    let mut seen = BTreeSet::new(alloc);
    let mut due = Vec::new(alloc);
    let mut done = BTreeSet::new(alloc);
    add_path(&mut seen, start)?;
    due.push(*start)?;
    while let Some(path) = due.pop() {
        if is_under(&ways.levels, &path, level) {
            return Ok((seen, Some(path)));
        }
        add_needed(
            edition,
            target,
            changed,
            &ways.hints,
            &path,
            &mut done,
            &mut seen,
            &mut due,
        )?;
    }
    Ok((seen, None))
}

/// What is reached from a path, and a path that holds it. If there is none, it is a knot.
pub(crate) fn look(
    alloc: Global,
    edition: &Edition,
    target: &SortedTarget<'_>,
    changed: &Changed,
    ways: &Ways,
    path: &Path,
) -> Result<(BTreeSet<Path>, Option<Path>), NoMemory>
    requires changed { AreChanged edition.now target.now changed.now }
    requires hints { AreComplete ways.now.hints edition.now target.now }
    requires levels { AreLevels (needed_between edition.now target.now) changed.now ways.now.levels }
    requires path { IsTrue (has changed.now path.now) }
    ensures all { IfOk result (λ found. IfNone found.1 (found.0.keys ≡
        filter (reached_by (needed_between edition.now target.now) changed.now path.now) changed.now)) }
    ensures knot { IfOk result (λ found. IfNone found.1
        (is_knot (needed_between edition.now target.now) changed.now path.now ≡ true)) }
    ensures held { IfOk result (λ found. IfSome found.1
        (IsHeldBy (needed_between edition.now target.now) changed.now path.now)) }
{
    let (paths, lower) = walk_down(alloc, edition, target, changed, ways, path)?;
    if lower.is_some() {
        return Ok((paths, lower));
    }
    let known = reaching(alloc, edition, target, changed, &ways.back, &paths, path)?;
    let other = holder(
        alloc,
        edition,
        target,
        changed,
        &ways.hints,
        &known,
        &paths,
        path,
    )?;
    Ok((paths, other))
}
