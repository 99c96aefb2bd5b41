//! Joining: the look of an object from its skeleton and the looks of what it embeds, and the looks of
//! a level of such objects, in as many threads as there are processors.
//!
//! The looks are the same for any number of threads.
#![tactic(auto)]

mod filling;
mod joining;
mod uses;

pub use joining::{JoinJob, join_level};
