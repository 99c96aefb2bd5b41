//! The commands of a script, read from its lines, and their answers with each text that is written of
//! them.
//!
//! A line is read as the table of commands has it; of an answer just its text is appended, or nothing.
#![tactic(auto)]

mod command;
mod line;
mod number;
mod said;
mod site_texts;
mod texts;

pub use command::read_command;
pub use said::{HowWord, Said};
pub use site_texts::bad_site_text;
pub use texts::said_text;
