// What commits keep of their keys: a proof learns it by a call on each.
ghost use Rattle.std.specs.Prelude.{map};
ghost use Rattle.std.specs.List.{AllByRecursion};
ghost use Rattle.dup_model.specs.ChangedItems.{EditHasKey};

use dup_model::Edit;
use dup_records::{Change, Commit};
use std::alloc::Global;
use std::sync::Arc;

fn change_keyed(change: &Change)
    ensures { EditHasKey change.now }
{
    match change.edit() {
        Edit::Put { key, .. } => {
            key.bytes();
        }
        Edit::Remove { key, .. } => {
            key.bytes();
        }
        Edit::Replace { .. } => {}
    }
}

fn commit_keyed(commit: &Commit)
    ensures { AllByRecursion EditHasKey commit.now }
{
    for change in commit.changes() {
        change_keyed(change);
    }
}

/// The keys in these commits are keys. The cost is that of a look at each change.
pub(crate) fn commits_keyed(commits: &[Arc<Commit, Global>])
    ensures { AllByRecursion (λ commit. AllByRecursion EditHasKey commit) (map (λ c. c.value) commits.now) }
{
    for commit in commits {
        commit_keyed(commit);
    }
}
