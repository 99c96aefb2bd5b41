//! Feed messages: `read_commit` reads the commit that a JSON text says, `commit_text` writes it.
//!
//! A text that says no commit has its first refusal; the written text reads back as the same commit.
#![tactic(auto)]

mod change;
mod reading;
mod writing;

pub use dup_model::FeedRefusal;
pub use reading::read_commit;
pub use writing::commit_text;

#[cfg(test)]
mod tests;
