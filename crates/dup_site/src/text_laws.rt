ghost use Rattle.dup_site.specs.BodiesInTexts.{BodiesAreCanonical, BodiesAreSaidAgain, BodiesStandInTexts};
ghost use Rattle.dup_site.specs.SaidTexts.{BadLinesStay, LinesGoOn, TextsAreCanonical};

/// A text that says parts is their canonical text, save blank lines, comments and spaces. A bad line
/// stays bad whatever stands behind it, and the lines before it begin a text that says parts.
pub fn texts_law()
    ensures canonical { TextsAreCanonical }
    ensures bad { BadLinesStay }
    ensures before { LinesGoOn }
{}

/// Lines say a body exactly where a template with these lines says it in a site text. They are the body's
/// canonical lines, save blank lines, comments and spaces; and a body's canonical lines say it.
pub fn bodies_law()
    ensures in_texts { BodiesStandInTexts }
    ensures canonical { BodiesAreCanonical }
    ensures again { BodiesAreSaidAgain }
{}
