// The lines of a site text, as they are read.
use dup_lists::Listed;
use dup_names::Name;
use dup_template::{PageRule, Plain};

/// What one line of a site text says.
#[derive(Drop)]
pub enum SiteLine {
    Blank,
    Kind { name: Name, fields: Listed<Name> },
    Page(PageRule),
    Open(Head),
    Say(Plain),
    Nl,
    Field(Name),
    Key,
    Embed { template: Name, via: Option<Name> },
    End,
}

/// What a line `end` closes.
#[derive(Clone, Copy)]
pub enum Head {
    Template {
        name: Name,
        kind: Option<Name>,
    },
    If(Name),
    Each {
        kind: Name,
        by: Option<Name>,
        order: Option<Name>,
    },
    Link {
        template: Name,
        via: Option<Name>,
    },
}
