//! Worked cases of values and of recorded calls: their texts, copies, proxies, sizes and order,
//! and what sums and comparisons come to. It has tests alone; their expected texts and numbers
//! are those that the project's documents state.
#![tactic(auto)]

#[cfg(test)]
mod operands;
#[cfg(test)]
mod order;
#[cfg(test)]
mod recorded;
#[cfg(test)]
mod stores;
#[cfg(test)]
mod values;
