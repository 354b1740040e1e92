//! The order in which a consumer finds the values of a build item.
//!
//! Values come in the order of production, those of an ordered item by the whole numbers in its
//! field. The order is a function of what was put, so that two runs that put the same values in
//! the same order find the same list.
#![tactic(auto)]

mod order;

pub use order::{found, in_order, rank_law};
