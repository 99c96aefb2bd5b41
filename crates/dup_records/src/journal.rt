// How much a journal holds, and whether it has room for a commit.
ghost use Rattle.std.specs.Prelude.{◌≡◌, ◌↔◌, ◌≤◌, ◌+◌, List, ◌∷◌, [], ◌++◌, IsSome, IfSome, Some, None, length};
ghost use Rattle.std.specs.List.{sum_by};
ghost use Rattle.dup_model.specs.Commits.{Commit as Changes, JournalFull};
ghost use Rattle.dup_model.specs.Journal.{commit_bytes, edit_bytes, journal_full};
ghost use Rattle.dup_records.specs.JournalSizes.{IsSizeOf, limits_of};

use crate::change::Change;
use crate::commit::{Commit, Limits};
use dup_model::Edit;
use dup_names::{Name, Text};

/// How many commits a journal has, and how many bytes they have: those of their kinds, keys, field names
/// and texts, and of the templates and bodies that they replace.
#[derive(Clone, Copy, Debug, PartialEq, Eq)]
pub struct JournalSize {
    pub commits: u64,
    pub bytes: u64,
}

// The room that some bytes leave, if they fit.
fn behind(room: u64, bytes: usize) -> Option<u64>
    ensures some { IsSome result ↔ (bytes ≤ room) }
    ensures left { IfSome result (λ left. left + bytes ≡ room) }
{
    room.checked_sub(bytes as u64)
}

// The room behind names and texts.
fn behind_fields(room: u64, fields: &[(Name, Text)]) -> Option<u64>
    ensures some { IsSome result ↔ (sum_by (λ f. length f.0 + length f.1) fields.now ≤ room) }
    ensures left { IfSome result (λ left. left + sum_by (λ f. length f.0 + length f.1) fields.now ≡ room) }
{
    let mut room = room;
    for field in fields {
        let left = behind(room, field.0.bytes().len())?;
        room = behind(left, field.1.bytes().len())?;
    }
    Some(room)
}

// The room behind a change.
fn behind_change(room: u64, change: &Change) -> Option<u64>
    ensures some { IsSome result ↔ (edit_bytes change.now ≤ room) }
    ensures left { IfSome result (λ left. left + edit_bytes change.now ≡ room) }
{
    match change.edit() {
        Edit::Put { kind, key, fields } => {
            let room = behind(room, kind.bytes().len())?;
            let room = behind(room, key.bytes().len())?;
            behind_fields(room, fields.items())
        }
        Edit::Remove { kind, key } => {
            let room = behind(room, kind.bytes().len())?;
            behind(room, key.bytes().len())
        }
        Edit::Replace { template, body } => {
            let room = behind(room, template.bytes().len())?;
            room.checked_sub(body.length())
        }
    }
}

// The room behind a commit.
fn behind_commit(room: u64, commit: &Commit) -> Option<u64>
    ensures some { IsSome result ↔ (commit_bytes commit.now ≤ room) }
    ensures left { IfSome result (λ left. left + commit_bytes commit.now ≡ room) }
{
    let mut room = room;
    for change in commit.changes() {
        room = behind_change(room, change)?;
    }
    Some(room)
}

impl JournalSize {
    /// The size of a journal without commits.
    pub fn empty() -> JournalSize
        ensures { IsSizeOf result [] }
    {
        JournalSize {
            commits: 0,
            bytes: 0,
        }
    }

    /// The size with this commit more; none where the journal has its number of commits, or this one
    /// would take it past its bytes. It walks the commit, and takes no memory.
    pub fn with(&self, limits: &Limits, commit: &Commit) -> Option<JournalSize>
        ensures room { IsSome result → (commits : List Changes) → IsSizeOf self.now commits →
            journal_full (limits_of limits.now) commits commit.now ≡ None }
        ensures size { IfSome result (λ size. (commits : List Changes) → IsSizeOf self.now commits →
            IsSizeOf size (commits ++ commit.now ∷ [])) }
        ensures full { result ≡ None → (commits : List Changes) → IsSizeOf self.now commits →
            journal_full (limits_of limits.now) commits commit.now
            ≡ Some (JournalFull self.now.commits self.now.bytes) }
    {
        if self.commits >= limits.commits || self.bytes > limits.bytes {
            return None;
        }
        let left = behind_commit(limits.bytes - self.bytes, commit)?;
        Some(JournalSize {
            commits: self.commits + 1,
            bytes: limits.bytes - left,
        })
    }
}
