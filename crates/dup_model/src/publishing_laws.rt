ghost use Rattle.dup_model.specs.Publishing.{TargetsAreSound, NeededChange, SoundWhereClosed, ConsistentWhereClosed, BundleIsFinest, NoBundle, NoPartServes};

/// Each target is sound, and so what a path needs is changed.
pub fn targets_law()
    ensures sound { TargetsAreSound }
    ensures needed { NeededChange }
{}

/// Publishing keeps an edition consistent exactly where the paths are closed.
pub fn closed_law()
    ensures looks { SoundWhereClosed }
    ensures editions { ConsistentWhereClosed }
{}

/// What `bundle` answers: a finest closed set, and no part of it would have served.
pub fn bundle_law()
    ensures some { BundleIsFinest }
    ensures none { NoBundle }
    ensures parts { NoPartServes }
{}
