// The bundle.
ghost use Rattle.std.specs.Prelude.{◌≡◌, IfOk};
ghost use Rattle.std.specs.Option.{option_map};
ghost use Rattle.dup_bundle.specs.Between.{bundle as bundle_between};
ghost use Rattle.dup_bundle.specs.Plans.{plan_of as plan_between};
ghost use Rattle.dup_bundle.specs.Targets.{aim_of, IsByPath};

use crate::changed::Changed;
use crate::finding::Ways;
use crate::hints::Hints;
use crate::plan::{Plan, plan_of};
use crate::queue::Queue;
use crate::schedule::take_bundle;
use crate::sorted::SortedTarget;
use dup_edition::Edition;
use dup_names::NoMemory;
use dup_render::Target;
use std::alloc::Global;

/// What is published next, from scratch: the finest set of changed paths whose least path is least, as the
/// target has them. None exactly where nothing is changed. Where each path that a changed path needs is
/// changed, which holds of the target of a content, no smaller set could be published.
///
/// It compares the looks of all pages.
pub fn bundle(alloc: Global, edition: &Edition, target: &Target) -> Result<Option<Plan>, NoMemory>
    requires { IsByPath target.now.pages }
    ensures { IfOk result (λ plan.
        plan ≡ option_map (plan_between (aim_of target.now)) (bundle_between edition.now (aim_of
        target.now))) }
{
    let target = &SortedTarget::of(target);
    let mut left = Changed::between(alloc, edition, target)?;
    let hints = Hints::whole(alloc, edition, target, &left)?;
    let ways = Ways::with_hints(alloc, hints);
    let mut queue = Queue::of(alloc, &left)?;
    match take_bundle(alloc, edition, target, &mut left, &ways, &mut queue)? {
        None => Ok(None),
        Some(paths) => {
            let plan = plan_of(alloc, target, &paths)?;
            Ok(Some(plan))
        }
    }
}
