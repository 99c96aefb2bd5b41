ghost use Rattle.dup_template.specs.Good.{IsGood};
ghost use Rattle.dup_transcript.specs.ResultsRows.{results, EventPageRow, SecondResultRow, RefusalRows};
ghost use Rattle.dup_transcript.specs.NextRows.{chain, LinkNeedsPageRow, LinkerChangesRow};
ghost use Rattle.dup_transcript.specs.MedalRows.{medal_site, SharedFragmentRow};
ghost use Rattle.std.specs.Ordering.{nat_cmp};
ghost use Rattle.std.specs.FinMap as fin;
ghost use Rattle.dup_machine.specs.World.{Slot};
ghost use Rattle.dup_transcript.specs.PressRows.{events_site, PressRow};
ghost use Rattle.dup_transcript.specs.CatchUpRows.{CatchUpRow};
ghost use Rattle.dup_transcript.specs.ScriptRows.{ScriptRow};

/// The site of results: what its event page reads, uses and shows, and which commits are refused.
pub fn results_rows()
    ensures good { IsGood results }
    ensures page { EventPageRow }
    ensures second { SecondResultRow }
    ensures refusals { RefusalRows }
{}

/// The site of linked events: which of its pages go out together.
pub fn next_rows()
    ensures good { IsGood chain }
    ensures needs { LinkNeedsPageRow }
    ensures vanishes { LinkerChangesRow }
{}

/// The site of medals: two pages that share a fragment go out together.
pub fn medal_rows()
    ensures good { IsGood medal_site }
    ensures shared { SharedFragmentRow }
{}

/// A cache catches up over 64 and over 65 bundles, in both modes.
pub fn catch_up_rows()
    ensures { CatchUpRow }
{}

/// A page that changes while it is rendered: what each step of the press answers.
pub fn press_rows()
    ensures good { IsGood events_site }
    ensures steps { (slots : fin.FinMap nat_cmp Slot) → PressRow slots }
{}

/// A script over one event page: what is written for its input, byte by byte.
pub fn script_rows()
    ensures { ScriptRow }
{}
