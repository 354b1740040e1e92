//! Worked cases of project files as they are read, and of names found by their texts. It has
//! tests alone.
#![tactic(auto)]

#[cfg(test)]
mod drafts;
#[cfg(test)]
mod indexes;
