//! Worked cases over the whole program: what the words of a command line come to over a shelf and
//! a sink in memory. It has tests alone; their expected texts and statuses are those that the
//! project's documents state.
#![tactic(auto)]

#[cfg(test)]
mod builds;
#[cfg(test)]
mod dumps;
#[cfg(test)]
mod faults;
#[cfg(test)]
mod plans;
#[cfg(test)]
mod run;
