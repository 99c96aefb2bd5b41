//! Commits and contents: what a commit may say, what it does to the rows of a site, and what is read of them.
//!
//! `apply` gives the content after a commit, or the refusal of the first change that fails; a content
//! never changes in place.
#![tactic(auto)]

mod agreeing;
mod applying;
mod change;
mod changing;
mod commit;
mod content;
mod entry;
mod index;
mod journal;
mod keys;
mod pair;
mod refusal;
mod rows;
mod table;

pub use applying::apply;
pub use change::Change;
pub use changing::changed;
pub use commit::{Commit, Limits};
pub use content::Content;
pub use journal::JournalSize;
pub use refusal::CommitRefusal;

#[cfg(test)]
mod changing_tests;
#[cfg(test)]
mod table_tests;
#[cfg(test)]
mod tests;
