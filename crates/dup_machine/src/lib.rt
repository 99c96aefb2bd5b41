//! The machine: what may happen to a press and its nodes, one step for each event, and what holds
//! after every list of events.
//!
//! The definitions stand in `specs`. A law is a function without a body: its contract is the law.
#![tactic(auto)]

mod machine_laws;

pub use machine_laws::{closed_law, found_law, headline, runs_law, settle_law, status_law};
