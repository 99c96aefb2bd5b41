//! A hall: a press, the nodes that serve what it publishes, and the commands of a script done on them.
//!
//! Each command is a step, or a list of steps, of the machine, and what is written of it is the text of the
//! machine's reply.
#![tactic(auto)]

mod hall;
mod nodes;
mod tally;

pub use hall::Hall;
pub use nodes::Nodes;
pub use tally::Tally;
