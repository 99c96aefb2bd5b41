// What holds of the definitions.
ghost use Rattle.dup_template.specs.SameBody.{SameBodyDecides};

/// The test of bodies tells whether they are the same.
pub fn same_bodies_law()
    ensures { SameBodyDecides }
{}
