// Commits, and the limits that they are held to.
ghost use Rattle.std.specs.Prelude.{◌≡◌, ◌↔◌, IsSome, IfSome, IfOk, refl};
ghost use Rattle.dup_model.specs.Commits.{HasCommitLength};

use crate::change::Change;
use dup_lists::Listed;
use dup_names::{MAX_CHANGES, MAX_COMMITS, MAX_JOURNAL_BYTES, MAX_ROWS, NoMemory};
use std::alloc::Global;
use std::marker::Model;

/// 1 to 256 changes, which are made in order, whole or not at all.
#[derive(Debug, Drop)]
pub struct Commit {
    changes: Listed<Change>,
}

impl Model for Commit {
    ghost use Rattle.std.specs.Prelude.{List};
    ghost use Rattle.dup_model.specs.declared.edit.Edit.{Edit};
    ghost use Rattle.dup_model.specs.Commits.{HasCommitLength};
    ghost use Rattle.std.specs.Coded.{codes};
    ghost use Rattle.dup_template.specs.contracts.statement.Statement as statement;

    ghost Value = { List Edit };

    ghost coded = { Prim.hlevel (codes, statement.the_row.coded) };

    ghost view = { λ c. c.changes };

    ghost invariant = { λ c. HasCommitLength c.changes };
}

impl Commit {
    /// The commit of these changes, or `None` where there are none or more than 256. It takes no memory.
    pub fn of(changes: Vec<Change>) -> Option<Commit>
        ensures some { IsSome result ↔ HasCommitLength changes.items }
        ensures value { IfSome result (λ commit. commit ≡ changes.items) }
    {
        if changes.is_empty() || changes.len() > MAX_CHANGES {
            return None;
        }
        let changes = Listed::of(changes);
        Some(Commit { changes })
    }

    /// Its changes, in order.
    pub fn changes(&self) -> &[Change]
        ensures value { result.now ≡ self.now }
        ensures length { HasCommitLength self.now }
    {
        self.changes.items()
    }

    /// An equal commit, whose texts are shared.
    pub fn copy(&self, alloc: Global) -> Result<Commit, NoMemory>
        ensures { IfOk result (λ commit. commit ≡ self.now) }
    {
        let mut made = Vec::with_capacity(alloc, self.changes.items().len())?;
        for change in self.changes.items() {
            made.push(change.copy(alloc)?)?;
        }
        let changes = Listed::of(made);
        Ok(Commit { changes })
    }
}

/// What a journal and a kind hold at most.
#[derive(Clone, Copy, Debug, PartialEq, Eq)]
pub struct Limits {
    /// The rows of a kind.
    pub rows: u32,
    /// The commits of the journal.
    pub commits: u64,
    /// The bytes of the journal's commits: of their kinds, keys, field names and texts.
    pub bytes: u64,
}

impl Default for Limits {
    ghost use Rattle.dup_names.specs.declared.limits.TheConstants.{MAX_COMMITS, MAX_JOURNAL_BYTES, MAX_ROWS};

    ghost is_default = { λ limits. (limits.rows ≡ MAX_ROWS) × (limits.commits ≡ MAX_COMMITS)
        × (limits.bytes ≡ MAX_JOURNAL_BYTES) };

    /// 4,096 rows, 1,048,576 commits and 2^30 bytes.
    fn default() -> Limits {
        Limits {
            rows: MAX_ROWS,
            commits: MAX_COMMITS,
            bytes: MAX_JOURNAL_BYTES,
        }
    }
}
