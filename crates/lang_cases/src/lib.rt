//! Worked cases of the language of steps: each form once, printed; faults with their tokens; and
//! texts as large as a project may have, which are read, compared, copied, printed and dropped
//! within the stack of a thread. It has tests alone.
#![tactic(auto)]

#[cfg(test)]
mod chains;
#[cfg(test)]
mod declared;
#[cfg(test)]
mod forms;
#[cfg(test)]
mod texts;
#[cfg(test)]
mod wrong;
