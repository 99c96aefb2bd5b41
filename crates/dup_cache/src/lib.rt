//! A bounded cache of pages that never goes back and never mixes editions, and windows on editions.
//!
//! A cache is seen as its capacity, its mode, the number of an edition, and its pages, the most recently
//! used first. A window shows the newest edition that it has seen.
#![tactic(auto)]

mod cache;
mod catching;
mod entries;
mod how;
mod laws;
mod path_key;
mod renewal;
mod window;

pub use cache::{MAX_CACHE_ENTRIES, PageCache};
pub use how::How;
pub use laws::holding_law;
pub use window::{PlainWindow, Window};

#[cfg(test)]
mod tests;
