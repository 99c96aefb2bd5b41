//! The press: its journal of commits with the content that they make, its works, and what is published.
//!
//! Each call is one step of the machine's press; a settle leaves nothing pending and expands just what
//! was left to expand.
#![tactic(auto)]

mod answers;
mod journal;
mod press;
mod settle;
mod workshop;

pub use answers::{Published, Status, Summary};
pub use journal::Journal;
pub use press::Press;
pub use workshop::Workshop;
