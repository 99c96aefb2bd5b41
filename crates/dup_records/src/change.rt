// The changes of a commit.
ghost use Rattle.std.specs.Prelude.{◌≡◌, ◌↔◌, ◌≤◌, IsTrue, IsSome, IfSome, IfOk, length};
ghost use Rattle.dup_names.specs.declared.limits.TheConstants.{MAX_TEXT_BYTES};
ghost use Rattle.dup_template.specs.BodyLines.{body_text, longest_of};
ghost use Rattle.dup_model.specs.declared.edit.Edit.TheVariants.{Put, Remove, Replace};
ghost use Rattle.dup_model.specs.Commits.{rise, IsInOrder};

use dup_lists::Listed;
use dup_model::Edit;
use dup_names::{Key, MAX_TEXT_BYTES, Name, NoMemory, Text};
use dup_template::SharedBody;
use std::alloc::Global;
use std::marker::Model;

/// A change of one row, a put of some fields, whose names rise, or a remove; or a new body of a template,
/// each of whose canonical lines has at most 4,096 bytes.
#[derive(Debug, Drop)]
pub struct Change {
    edit: Edit,
}

impl Model for Change {
    ghost use Rattle.dup_model.specs.declared.edit.Edit.{Edit};
    ghost use Rattle.dup_model.specs.Commits.{IsInOrder};
    ghost use Rattle.std.specs.Coded.{codes};
    ghost use Rattle.dup_template.specs.contracts.statement.Statement as statement;

    ghost Value = { Edit };

    ghost coded = { Prim.hlevel (codes, statement.the_row.coded) };

    ghost view = { λ c. c.edit };

    ghost invariant = { λ c. IsInOrder c.edit };
}

// Whether the names rise strictly.
fn names_rise(fields: &[(Name, Text)]) -> bool
    ensures { result ≡ rise fields.now }
{
    match fields {
        [first, rest @ ..] => match rest {
            [second, ..] => first.0 < second.0 && names_rise(rest),
            [] => true,
        },
        [] => true,
    }
}

// The same fields, whose texts are shared.
fn shared_fields(alloc: Global, fields: &[(Name, Text)]) -> Result<Vec<(Name, Text)>, NoMemory>
    ensures { IfOk result (λ made. made.items ≡ fields.now) }
{
    let mut made = Vec::with_capacity(alloc, fields.len())?;
    for field in fields {
        made.push((field.0, field.1.share()?))?;
    }
    Ok(made)
}

impl Change {
    /// Sets these fields of a row, or `None` where their names don't rise strictly. It takes no memory.
    pub fn put(kind: Name, key: Key, fields: Vec<(Name, Text)>) -> Option<Change>
        ensures some { IsSome result ↔ IsTrue (rise fields.items) }
        ensures value { IfSome result (λ change. change ≡ Put kind key fields.items) }
    {
        if !names_rise(&fields) {
            return None;
        }
        let fields = Listed::of(fields);
        Some(Change {
            edit: Edit::Put { kind, key, fields },
        })
    }

    /// Removes a row. It takes no memory.
    pub fn remove(kind: Name, key: Key) -> Change
        ensures { result ≡ Remove kind key }
    {
        Change {
            edit: Edit::Remove { kind, key },
        }
    }

    /// Replaces the body of a template, or `None` where one of the body's canonical lines has more than
    /// 4,096 bytes. It walks the body, and takes no memory.
    pub fn body(template: Name, body: SharedBody) -> Option<Change>
        ensures some { IsSome result ↔ (longest_of (body_text body) ≤ MAX_TEXT_BYTES) }
        ensures value { IfSome result (λ change. change ≡ Replace template body) }
    {
        if body.longest() > MAX_TEXT_BYTES as u64 {
            return None;
        }
        Some(Change {
            edit: Edit::Replace { template, body },
        })
    }

    /// What it says.
    pub fn edit(&self) -> &Edit
        ensures value { result.now ≡ self.now }
        ensures in_order { IsInOrder self.now }
    {
        &self.edit
    }

    /// An equal change, whose texts are shared.
    pub(crate) fn copy(&self, alloc: Global) -> Result<Change, NoMemory>
        ensures { IfOk result (λ made. made ≡ self.now) }
    {
        match &self.edit {
            Edit::Put { kind, key, fields } => {
                let fields = Listed::of(shared_fields(alloc, fields.items())?);
                let edit = Edit::Put {
                    kind: *kind,
                    key: *key,
                    fields,
                };
                Ok(Change { edit })
            }
            Edit::Remove { kind, key } => Ok(Change::remove(*kind, *key)),
            Edit::Replace { template, body } => {
                let edit = Edit::Replace {
                    template: *template,
                    body: body.share()?,
                };
                Ok(Change { edit })
            }
        }
    }
}
