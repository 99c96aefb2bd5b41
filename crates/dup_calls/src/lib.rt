//! Worked rows as calls of builds, presses and nodes. There is nothing but tests here.
#![tactic(auto)]

#[cfg(test)]
mod answers;
#[cfg(test)]
mod build_rows;
#[cfg(test)]
mod builds;
#[cfg(test)]
mod node_rows;
#[cfg(test)]
mod nodes;
#[cfg(test)]
mod notation;
#[cfg(test)]
mod press_rows;
#[cfg(test)]
mod presses;
#[cfg(test)]
mod sites;
#[cfg(test)]
mod work_rows;
