//! The top call of the command line.
#![tactic(auto)]

mod all_pages;
mod answer;
mod check;
mod desk;
mod play;
mod render_lines;
mod render_site;
mod script;
mod site_part;
mod stop;
mod task;

pub use desk::desk_main;
