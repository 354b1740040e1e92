//! Worked cases of shelves and sinks: files that are read and replaced, texts that are put. It
//! has tests alone.
#![tactic(auto)]

#[cfg(test)]
mod files;
#[cfg(test)]
mod shelves;
#[cfg(test)]
mod sinks;
