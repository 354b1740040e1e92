//! Worked cases of trees: texts that are read, where a text goes wrong, names that are checked,
//! trees that are printed and compared. It has tests alone.
#![tactic(auto)]

#[cfg(test)]
mod naming;
#[cfg(test)]
mod printing;
#[cfg(test)]
mod reading;
#[cfg(test)]
mod trees;
