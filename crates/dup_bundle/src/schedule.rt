// The bundles of a target, one after the other.
ghost use Rattle.std.specs.Prelude.{◌≡◌, [], Some, List, IfOk, OnOk};
ghost use Rattle.std.specs.Option.{option_map};
ghost use Rattle.dup_names.specs.Words.{Path as Word};
ghost use Rattle.dup_edition.specs.Logged.{appended, Logged};
ghost use Rattle.dup_model.specs.Commits.{Commit};
ghost use Rattle.dup_model.specs.Bundles.{bundle_from};
ghost use Rattle.dup_model.specs.Editions.{bundle_of, target_looks};
ghost use Rattle.dup_model.specs.Needs.{IsSound};
ghost use Rattle.dup_bundle.specs.Between.{bundle as bundle_between, changed_paths, is_needed, AreChanged};
ghost use Rattle.dup_bundle.specs.Hinted.{AreComplete};
ghost use Rattle.dup_bundle.specs.Plans.{plan_of as plan_between};
ghost use Rattle.dup_bundle.specs.Schedule.{left_without, IsSchedule};
ghost use Rattle.dup_bundle.specs.Targets.{Aim};
ghost use Rattle.dup_bundle.specs.Waiting.{AreLevels, AreWaiting};
ghost use Rattle.std.specs.List.Sorted.{IsStrictlySortedBy};
ghost use Rattle.dup_names.specs.Order.{text_cmp};

use crate::changed::Changed;
use crate::finding::{Ways, look};
use crate::hints::note_linker;
use crate::plan::{Plan, plan_of};
use crate::queue::{Queue, wake};
use crate::sorted::SortedTarget;
use dup_edition::Edition;
use dup_names::{NoMemory, Path};
use std::alloc::Global;
use std::collections::{BTreeSet, VecDeque};
use std::marker::Model;

/// The bundles that lead from an edition to a target, one after the other.
#[derive(Drop)]
pub struct Schedule {
    bundles: VecDeque<BTreeSet<Path>>,
}

impl Model for Schedule {
    ghost use Rattle.std.specs.Prelude.{map, List};
    ghost use Rattle.dup_names.specs.Words.{Path as Word};

    ghost Value = { List (List Word) };

    ghost view = { λ s. map (λ b. b.keys) s.bundles.items };
}

/// The bundle of the paths that are left, which leaves them. It looks at the ready paths in path order, up
/// to the first that is a knot; what is none waits until what holds it is published.
pub(crate) fn take_bundle(
    alloc: Global,
    edition: &Edition,
    target: &SortedTarget<'_>,
    left: &mut Changed,
    ways: &Ways,
    queue: &mut Queue,
) -> Result<Option<BTreeSet<Path>>, NoMemory>
    requires left { AreChanged edition.now target.now left.old }
    requires hints { AreComplete ways.now.hints edition.now target.now }
    requires levels { AreLevels (is_needed edition.now target.now) left.old ways.now.levels }
    requires order { IsStrictlySortedBy text_cmp queue.old.ready.keys }
    requires waiting { AreWaiting (is_needed edition.now target.now) left.old queue.old.ready.keys
        queue.old.waiting }
    ensures bundle { IfOk result (λ taken.
        option_map (λ b. b.keys) taken ≡ bundle_from (is_needed edition.now target.now) left.old) }
    ensures left { OnOk result (left.new ≡
        left_without left.old (bundle_from (is_needed edition.now target.now) left.old)) }
    ensures order { OnOk result (IsStrictlySortedBy text_cmp queue.new.ready.keys) }
    ensures waiting { OnOk result (AreWaiting (is_needed edition.now target.now) left.new
        queue.new.ready.keys queue.new.waiting) }
{
    while let Some(path) = queue.ready.pop_first() {
        if left.has(&path) {
            match look(alloc, edition, target, left, ways, &path)? {
                (_, Some(other)) => note_linker(alloc, &mut queue.waiting, &other, &path)?,
                (paths, None) => {
                    left.leave(&paths);
                    wake(&mut queue.ready, &queue.waiting, &paths)?;
                    return Ok(Some(paths));
                }
            }
        }
    }
    Ok(None)
}

impl Schedule {
    /// No bundle: so it is where nothing is changed.
    pub fn none(alloc: Global) -> Schedule
        ensures value { result ≡ [] }
        ensures scheduled { (e : Logged) (t : Aim) → changed_paths e t ≡ [] → IsSchedule e t result }
    {
        Schedule {
            bundles: VecDeque::new(alloc),
        }
    }

    /// The bundles between an edition and a sound target, where the changed paths are known.
    ///
    /// One walk along the needs and one against them put each changed path at a level, so that a path needs
    /// none of a higher level and paths of one level mostly need each other. A path then waits at one of a
    /// lower level that it reaches until that is published, and is looked at again. A look walks over paths
    /// of one level, up to the first of a lower one. So where no two pages need each other a settle takes a
    /// few steps for each need, and a bundle of m paths takes a look over m paths; but m paths that need
    /// each other and wait for w others take up to m looks at first, and one more for each of the w.
    /// Each look at an object that pages show otherwise walks its users until all of them were seen.
    pub fn between(
        alloc: Global,
        edition: &Edition,
        target: &SortedTarget<'_>,
        changed: &Changed,
    ) -> Result<Schedule, NoMemory>
        requires changed { changed.now ≡ changed_paths edition.now target.now }
        requires sound { IsSound (target_looks target.now.pages) }
        ensures { IfOk result (λ made. IsSchedule edition.now target.now made) }
    {
        let ways = Ways::between(alloc, edition, target, changed)?;
        let mut left = changed.copy(alloc)?;
        let mut queue = Queue::of(alloc, changed)?;
        let mut bundles = VecDeque::new(alloc);
        while let Some(paths) = take_bundle(alloc, edition, target, &mut left, &ways, &mut queue)? {
            bundles.push_back(paths)?;
        }
        Ok(Schedule { bundles })
    }

    /// What is published next, as the target has it: None exactly where nothing is changed. It makes a page
    /// for each path that is put.
    pub fn plan(&self, alloc: Global, target: &SortedTarget<'_>) -> Result<Option<Plan>, NoMemory>
        ensures { IfOk result (λ plan. (e : Logged) → IsSchedule e target.now self.now →
            plan ≡ option_map (plan_between target.now) (bundle_between e target.now)) }
    {
        match self.bundles.front() {
            None => Ok(None),
            Some(paths) => {
                let plan = plan_of(alloc, target, paths)?;
                Ok(Some(plan))
            }
        }
    }

    /// Goes on to the next bundle, once this one is published. It takes no memory.
    pub fn advance(&mut self)
        ensures { (e : Logged) (t : Aim) (commits : List Commit) (paths : List Word) →
            bundle_between e t ≡ Some paths → IsSchedule e t self.old →
            IsSchedule (appended e (bundle_of t.pages t.version commits paths)) t self.new }
    {
        self.bundles.pop_front();
    }
}
