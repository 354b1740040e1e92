//! The forms of command lines beside those of the crate `clap`. It has tests alone.
#![tactic(auto)]

#[cfg(test)]
mod tests;
