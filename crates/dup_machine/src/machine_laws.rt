ghost use Rattle.dup_machine.specs.Closed.{ClosedAtFirst, ClosedOnceDone, ClosedOnceJoined, ClosedOnceMoved, ClosedLive, LevelLeaves};
ghost use Rattle.dup_machine.specs.FoundGrows.{FoundIsReached, FoundGrows};
ghost use Rattle.dup_machine.specs.Headline.{Headline, EachEventIsAnswered, LogGrows};
ghost use Rattle.dup_machine.specs.Timely.{PressesAreTimely};
ghost use Rattle.dup_machine.specs.Status.{PendingIsTold};
ghost use Rattle.dup_machine.specs.Settle.{SettleReports, NothingIsDone, SettleResumes, PublishEnds, SettleEnds};

/// What holds after every list of events.
pub fn headline()
    ensures { Headline }
{}

/// How replies and the log of a run grow, and what holds of its press.
pub fn runs_law()
    ensures replies { EachEventIsAnswered }
    ensures log { LogGrows }
    ensures timely { PressesAreTimely }
{}

/// A status says that something is pending exactly where something is.
pub fn status_law()
    ensures { PendingIsTold }
{}

/// What settling reports, and that it leaves nothing pending.
pub fn settle_law()
    ensures report { SettleReports }
    ensures again { NothingIsDone }
    ensures resumed { SettleResumes }
    ensures publish { PublishEnds }
    ensures ends { SettleEnds }
{}

/// What a work finds is what is reached from the pages, and how it grows once one more object is done.
pub fn found_law()
    ensures reached { FoundIsReached }
    ensures grows { FoundGrows }
{}

/// What has a look has a skeleton, and what it embeds has looks too.
pub fn closed_law()
    ensures first { ClosedAtFirst }
    ensures done { ClosedOnceDone }
    ensures joined { ClosedOnceJoined }
    ensures moved { ClosedOnceMoved }
    ensures live { ClosedLive }
    ensures leaves { LevelLeaves }
{}
