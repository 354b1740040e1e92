//! Worked cases of class files: what is read from cut and changed bytes, and that what was read is
//! written back.
#![tactic(auto)]

#[cfg(test)]
mod pools;
#[cfg(test)]
mod tests;
