//! Rendering: `show_plain` gives what an object shows, from scratch; `expand` gives what it shows by
//! itself, with a hole for each object that it embeds, and notes of what it read.
//!
//! The statements of an object are walked once, up to each embedding, which gives their marks: bytes,
//! embedded objects, what was read, and the paths of links. An object shows the bytes of its marks,
//! with what each embedded object shows in its place. Its expansion is good for each content of the
//! site in which the notes hold, whatever commits lie in between.
#![tactic(auto)]

mod escape;
mod expanded;
mod expanding;
mod here;
mod links;
mod lists;
mod marks;
mod order;
mod pieces;
mod rows;
mod show;
mod statements;
mod target;

pub use expanded::Expanded;
pub use expanding::expand;
pub use order::paths_in_order;
pub use show::{is_job, show_plain};
pub use target::Target;

#[cfg(test)]
mod expanding_tests;
#[cfg(test)]
mod tests;
