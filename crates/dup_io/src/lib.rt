//! Byte sources and sinks that count their faults, in memory and of the runtime, and the lines of a source.
//!
//! A fault comes only where its count rose; what is written is all, or a prefix before a fault.
#![tactic(auto)]

mod ends;
mod lines;
mod memory;
mod memory_line;
mod standard;

pub use ends::{Duplex, Failed, Sink, Source, put_all};
pub use lines::{Line, LineFault, Lines, PIECE_BYTES};
pub use memory::{MemorySink, MemorySource};
pub use memory_line::MemoryLine;
pub use standard::{StdSink, StdSource};

#[cfg(test)]
mod tests;
