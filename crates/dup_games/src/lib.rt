//! The script of a generated day of results, by which the whole system is tried and measured.
#![tactic(auto)]

mod changes;
mod script;
mod text;

pub use script::games_text;
