//! The pages of a content: which paths it has, and the object that each shows.
#![tactic(auto)]

mod listing;

pub use listing::pages;

#[cfg(test)]
mod tests;
