//! Lists that stand in chunks, which are shared with the lists that they were made from.
//!
//! An edit copies one chunk of at most 64 items; a search counts the items that it looks at.
#![tactic(auto)]

mod chunked;
mod cut;
mod edits;
mod parts;
mod place;
mod probe;
mod share;
mod walk;

pub use chunked::Chunked;
pub use probe::Probe;
pub use share::Share;
pub use walk::Walk;
