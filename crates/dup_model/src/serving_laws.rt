ghost use Rattle.dup_model.specs.Serving.{GoodLogsPlacePages, CatchingUpHolds, AnswersAreTrue, EvictingHolds};

/// What a cache holds stays true of the log, and so is each answer.
pub fn serving_law()
    ensures placed { GoodLogsPlacePages }
    ensures catch_up { CatchingUpHolds }
    ensures answers { AnswersAreTrue }
    ensures evict { EvictingHolds }
{}
