// Laws on what caches hold.
ghost use Rattle.dup_cache.specs.Holding.{CaughtUpHolds, GrowingHolds, PathsArePlaces};

/// Whatever a log is, each of its pages stands under its own path; a cache that holds the log's pages holds
/// them when the log has grown, and when it has caught up.
pub fn holding_law()
    ensures places { PathsArePlaces }
    ensures grows { GrowingHolds }
    ensures catch_up { CaughtUpHolds }
{}
