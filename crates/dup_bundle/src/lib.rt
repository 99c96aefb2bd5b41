//! Bundles: which changed paths are published next, together.
//!
//! A path is changed where the edition and the target have other looks there. `Changed` keeps the set
//! of these paths from one publication to the next, so that no call compares the looks of all pages.
//!
//! A bundle is the finest closed set whose least path is least.
#![tactic(auto)]

mod bundling;
mod changed;
mod finding;
mod hints;
mod laws;
mod levels;
mod looks;
mod needing;
mod needing_back;
mod order;
mod path_set;
mod plan;
mod queue;
mod reach;
mod schedule;
mod sorted;

pub use bundling::bundle;
pub use changed::Changed;
pub use dup_render::Target;
pub use laws::schedule_law;
pub use needing::needs;
pub use plan::Plan;
pub use schedule::Schedule;
pub use sorted::SortedTarget;

#[cfg(test)]
mod tests;
