//! What the lines of a script command, what is written of the machine's replies, the transcript of
//! an input, and worked examples.
//!
//! The definitions stand in `specs`. A law is a function without a body: its contract is the law.
#![tactic(auto)]

mod command;
mod example_rows;
mod output_laws;
mod task;

pub use command::Command;
pub use example_rows::{
    catch_up_rows, medal_rows, next_rows, press_rows, results_rows, script_rows,
};
pub use output_laws::{
    beginnings_law, commands_law, lines_law, numbers_law, plays_law, runs_of_scripts_law,
    transcripts_law,
};
pub use task::Task;
