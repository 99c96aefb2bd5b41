//! A count of steps, by which contracts say what a search costs.
#![tactic(auto)]

mod steps;

pub use steps::Steps;
