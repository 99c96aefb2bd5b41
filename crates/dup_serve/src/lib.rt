//! What is sent for a request: the tables of a node's replies and of the feed desk's, as definitions with
//! their law; reading the head of a request off a line, and writing a reply to it.
//!
//! Each reply has a code with a reason and its body's length; no more is taken than the piece that
//! decides.
#![tactic(auto)]

mod heads;
mod laws;
mod sending;

pub use heads::{HeadFault, read_head};
pub use laws::{desk_rows, node_rows, tables_law};
pub use sending::send;

#[cfg(test)]
mod tests;
