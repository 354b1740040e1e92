//! The rules of a chain of build steps: which steps are needed for the final items, which step has
//! to end before which, and what is wrong with a chain that can't be built.
//!
//! [`build_chain`] answers a [`Plan`] exactly where the chain is accepted, and else its first
//! [`ChainFault`], want of memory aside.
#![tactic(auto)]

mod build;
mod core_steps;
mod cycle;
mod edges;
mod fault;
mod faults;
mod laws;
mod marks;
mod needed;
mod numbered;
mod plan;
mod producers;
mod rows;
mod tables;
mod text;

pub use build::build_chain;
pub use fault::ChainFault;
pub use laws::{
    ascending_lists_are_equal, cycle_goes_round, fault_is_named, fault_is_the_only_one,
    no_fault_is_accepted,
};
pub use numbered::is_numbered;
pub use plan::Plan;
