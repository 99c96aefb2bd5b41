// The statements of templates.
ghost use Rattle.std.specs.Cmp.{decided, partial_equiv_from_equiv};
ghost use Rattle.dup_template.specs.SameBody.{same_statement};
ghost use Rattle.dup_template.specs.SameStatement.{statement-Decides};

use crate::plain::Plain;
use crate::same::same_statement;
use dup_lists::Listed;
use dup_names::Name;

/// The statements of a template, of an `if`, an `each` or a `link`.
pub type Body = Listed<Statement>;

/// A statement of a template; `via`, `by` and `order` name fields.
#[cycle(statement)]
#[derive(Debug, Drop)]
pub enum Statement {
    Say(Plain),
    Nl,
    Field(Name),
    Key,
    If {
        field: Name,
        body: Body,
    },
    Each {
        kind: Name,
        by: Option<Name>,
        order: Option<Name>,
        body: Body,
    },
    Embed {
        template: Name,
        via: Option<Name>,
    },
    Link {
        template: Name,
        via: Option<Name>,
        body: Body,
    },
}

impl PartialEq for Statement {
    ghost eq = { same_statement };

    ghost laws = { partial_equiv_from_equiv (decided same_statement statement-Decides) };

    fn eq(&self, other: &Statement) -> bool {
        same_statement(self, other)
    }
}

impl Eq for Statement {
    ghost laws = { decided same_statement statement-Decides };
}
