ghost use Rattle.dup_bundle.specs.Staying.{FinestStay, NeedsStay, OrderIsSchedule};

/// Publishing paths as the target has them leaves the needs among the others as they were, and so the
/// bundles of a target are known at once.
pub fn schedule_law()
    ensures needs { NeedsStay }
    ensures finest { FinestStay }
    ensures order { OrderIsSchedule }
{}
