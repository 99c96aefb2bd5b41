//! Works: the looks of a version from those of the last.
//!
//! Each call is one step of the machine's build; each skeleton and look is the object's own at the
//! work's content.
#![tactic(auto)]

mod answers;
mod build;
mod hits;
mod job;
mod keyed;
mod levels;
mod loose;
mod missing;
mod node;
mod paged;
mod reach;
mod reads;
mod spare;
mod stock;
mod survey;
mod turning;
mod values;

pub use answers::{Begun, Closing, Finish, Joined, Put};
pub use build::Build;
pub use job::Job;
