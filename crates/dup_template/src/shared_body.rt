// The body of a template, which is shared.
ghost use Rattle.std.specs.Prelude.{◌≡◌, IfOk, length};
ghost use Rattle.std.specs.List.{sum_by};
ghost use Rattle.dup_template.specs.BodyLines.{body_text, longest_of, within_64};
ghost use Rattle.std.specs.Cmp.{decided, partial_equiv_from_equiv};
ghost use Rattle.dup_template.specs.SameBody.{same_body};
ghost use Rattle.dup_template.specs.SameStatement.{body-Decides};

use crate::measure::body_measure;
use crate::same::same_body;
use crate::statement::{Body, Statement};
use dup_names::NoMemory;
use std::alloc::Global;
use std::marker::Model;
use std::sync::Arc;

/// The statements of a template. Sites, contents, commits and notes share them.
#[derive(Debug, Drop)]
pub struct SharedBody {
    body: Arc<Body, Global>,
}

impl Model for SharedBody {
    ghost use Rattle.std.specs.Prelude.{List};
    ghost use Rattle.std.specs.Coded.{codes};
    ghost use Rattle.dup_template.specs.contracts.statement.Statement as statement;
    ghost use Rattle.dup_template.specs.declared.statement.Statement.{Statement};

    ghost Value = { List Statement };

    ghost coded = { Prim.hlevel (codes, statement.the_row.coded) };

    ghost view = { λ b. b.body.value };
}

impl SharedBody {
    /// Shares these statements, which aren't copied.
    pub fn of(alloc: Global, body: Body) -> Result<SharedBody, NoMemory>
        ensures { IfOk result (λ made. made ≡ body) }
    {
        let body = Arc::new(alloc, body)?;
        Ok(SharedBody { body })
    }

    /// The statements, in order.
    pub fn items(&self) -> &[Statement]
        ensures { result.now ≡ self.now }
    {
        self.body.items()
    }

    /// The number of its canonical lines, or `u64::MAX` where they are more. It walks the body, and takes
    /// no memory.
    pub fn lines(&self) -> u64
        ensures { result ≡ within_64 (length (body_text self.now)) }
    {
        body_measure(self.items()).lines
    }

    /// The bytes of the longest of its canonical lines, without what ends it; 0 where there is none,
    /// and `u64::MAX` where they are more. It walks the body, and takes no memory.
    pub fn longest(&self) -> u64
        ensures { result ≡ within_64 (longest_of (body_text self.now)) }
    {
        body_measure(self.items()).longest
    }

    /// The bytes of its canonical lines, without what ends them, or `u64::MAX` where they are more. It
    /// walks the body, and takes no memory.
    pub fn length(&self) -> u64
        ensures { result ≡ within_64 (sum_by length (body_text self.now)) }
    {
        body_measure(self.items()).length
    }

    /// One more owner of the same statements, which aren't copied.
    pub fn share(&self) -> Result<SharedBody, NoMemory>
        ensures { IfOk result (λ made. made ≡ self.now) }
    {
        let body = Arc::try_clone(&self.body)?;
        Ok(SharedBody { body })
    }
}

impl PartialEq for SharedBody {
    ghost eq = { same_body };

    ghost laws = { partial_equiv_from_equiv (decided same_body body-Decides) };

    fn eq(&self, other: &SharedBody) -> bool {
        same_body(self.items(), other.items())
    }
}

impl Eq for SharedBody {
    ghost laws = { decided same_body body-Decides };
}
