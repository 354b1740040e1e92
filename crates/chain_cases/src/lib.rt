//! Worked cases of chains: which steps are needed, in which order, and each fault of a chain.
//! It has tests alone.
#![tactic(auto)]

#[cfg(test)]
mod chains;
