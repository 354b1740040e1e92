//! Worlds of started applications, and what recorders' methods do to them.
//!
//! A [`World`] is changed by its own calls, by one operation ([`apply`]) or by a whole method
//! ([`invoke`]). Each does exactly what the definitions of `startup_rules` say, the world after a
//! failure included. Want of memory alone is free.
#![tactic(auto)]

mod applying;
mod expression;
mod field;
mod invoking;
mod line;
mod named;
mod setting;
mod statement;
mod stop;
mod values;

pub use applying::apply;
pub use invoking::{invoke, invoke_in};
pub use startup_rules::{Invoked, MethodFault, Object, Op, Slot};
pub use startup_world::World;
