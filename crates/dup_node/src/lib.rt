//! Nodes: what serves requests from a cache, over a window on a published log.
//!
//! Each reply is true of the window's log: a page found is its path's in one edition no older than the
//! pass.
#![tactic(auto)]

mod node;
mod reply;

pub use node::Node;
pub use reply::Reply;

#[cfg(test)]
mod tests;
