ghost use Rattle.dup_model.specs.Changes.{BodyIsReplaced, NamedFieldsAreSet, OtherBodiesStay};
ghost use Rattle.dup_model.specs.Changes.{OtherFieldsStay, OtherKindsStay, OtherRowsStay};
ghost use Rattle.dup_model.specs.Changes.{PutMakesTheRow, RemoveTakesTheRow};
ghost use Rattle.dup_model.specs.Tables.{VersionsAreOfTheSite, VersionsHaveTables};
ghost use Rattle.dup_model.specs.Tables.{VersionsHaveTheFrame, VersionsRise};

/// What a change makes of the rows and the bodies.
pub fn commits_law()
    ensures kinds { OtherKindsStay }
    ensures rows { OtherRowsStay }
    ensures put { PutMakesTheRow }
    ensures named { NamedFieldsAreSet }
    ensures unnamed { OtherFieldsStay }
    ensures remove { RemoveTakesTheRow }
    ensures body { BodyIsReplaced }
    ensures bodies { OtherBodiesStay }
{}

/// Each version has the frame of its site, and its bodies where no commit replaced one; it has a table for
/// each kind, and in these the keys rise.
pub fn versions_law()
    ensures frame { VersionsHaveTheFrame }
    ensures site { VersionsAreOfTheSite }
    ensures tables { VersionsHaveTables }
    ensures rise { VersionsRise }
{}
