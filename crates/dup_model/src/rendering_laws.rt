ghost use Rattle.dup_model.specs.Shows.{EachIsShown};
ghost use Rattle.dup_model.specs.Columns.{EachReads, EachEmbeds, EachGoes};
ghost use Rattle.dup_model.specs.Uses.{ShowIsOfMarks, UsesAreAll, LooksShow};
ghost use Rattle.dup_model.specs.JoinedLooks.{LooksAreJoined, LooksFromParts, AffectedUpwards};
ghost use Rattle.dup_model.specs.Incremental.{UntouchedIsSame, UnaffectedLooksSame};
ghost use Rattle.dup_model.specs.Expansions.{ExpansionsAreGood, GoodIsRight};
ghost use Rattle.dup_model.specs.Found.{FoundIsFound};
ghost use Rattle.dup_model.specs.Jobs.{FoundAreJobs};
ghost use Rattle.dup_model.specs.ChangedItems.{ChangesExist, VersionsHaveKeys, ReadsAreItems, TouchedByChanges};
ghost use Rattle.dup_model.specs.GoodSites.{GoodEmbedsEarlier, GoodHistoriesEmbedEarlier};
ghost use Rattle.dup_model.specs.GoodSites.{GoodJobsFit, GoodVersions};

/// What the check of a site establishes of its contents: the premises of the laws on rendering.
pub fn good_sites_law()
    ensures earlier { GoodEmbedsEarlier }
    ensures jobs { GoodJobsFit }
    ensures versions { GoodVersions }
    ensures histories { GoodHistoriesEmbedEarlier }
{}

/// What each kind of statement shows.
pub fn shows_law()
    ensures each { EachIsShown }
    ensures marks { ShowIsOfMarks }
{}

/// What each kind of statement reads, embeds and links to.
pub fn columns_law()
    ensures reads { EachReads }
    ensures embeds { EachEmbeds }
    ensures goes { EachGoes }
{}

/// What an object uses, and how its look is put together.
pub fn uses_law()
    ensures uses { UsesAreAll }
    ensures looks { LooksShow }
    ensures joined { LooksAreJoined }
    ensures parts { LooksFromParts }
{}

/// What no changed item touches stays the same.
pub fn incremental_law()
    ensures alone { UntouchedIsSame }
    ensures looks { UnaffectedLooksSame }
    ensures upwards { AffectedUpwards }
{}

/// The list of changed items exists, and an object is touched exactly where it reads one of them.
pub fn changes_law()
    ensures exist { ChangesExist }
    ensures versions { VersionsHaveKeys }
    ensures items { ReadsAreItems }
    ensures touched { TouchedByChanges }
{}

/// What is expanded at a content is a good expansion, and a good expansion whose notes aren't stale
/// is right.
pub fn expansions_law()
    ensures good { ExpansionsAreGood }
    ensures right { GoodIsRight }
{}

/// What a work has found, and that it can be expanded.
pub fn jobs_law()
    ensures found { FoundIsFound }
    ensures jobs { FoundAreJobs }
{}
