//! Worked cases of the evaluation of bodies: what small bodies come to, each reason for which one
//! fails, with its token, and the limits from both sides. It has tests alone; their expected
//! outcomes are those that the project's documents state.
#![tactic(auto)]

#[cfg(test)]
mod chains;
#[cfg(test)]
mod given;
#[cfg(test)]
mod limits;
#[cfg(test)]
mod reasons;
#[cfg(test)]
mod recorded;
#[cfg(test)]
mod trees;
