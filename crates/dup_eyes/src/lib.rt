//! Runs of a press over live windows, and openings. There is nothing but tests here.
#![tactic(auto)]

#[cfg(test)]
mod openings;
#[cfg(test)]
mod presses;
#[cfg(test)]
mod shared;
