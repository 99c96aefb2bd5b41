//! Runs of the top call over sources and sinks in memory. There is nothing but tests here.
#![tactic(auto)]

#[cfg(test)]
mod behind;
#[cfg(test)]
mod bodies;
#[cfg(test)]
mod caches;
#[cfg(test)]
mod causes;
#[cfg(test)]
mod checks;
#[cfg(test)]
mod faults;
#[cfg(test)]
mod forms;
#[cfg(test)]
mod limits;
#[cfg(test)]
mod lines;
#[cfg(test)]
mod plays;
#[cfg(test)]
mod renders;
#[cfg(test)]
mod settles;
#[cfg(test)]
mod sites;
#[cfg(test)]
mod statuses;
