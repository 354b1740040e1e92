//! Worked runs of jobs: lists of moves with the histories that they leave, works that are handed
//! in, the recordings of a run, and runs by several workers, who really evaluate side by side, each
//! needed step once. It has tests alone; their expected texts are those that the
//! project's documents state.
#![tactic(auto)]

#[cfg(test)]
mod jobs;
#[cfg(test)]
mod meet;
#[cfg(test)]
mod moves;
#[cfg(test)]
mod over_top;
#[cfg(test)]
mod overlap;
#[cfg(test)]
mod shapes;
#[cfg(test)]
mod texts;
#[cfg(test)]
mod works;
