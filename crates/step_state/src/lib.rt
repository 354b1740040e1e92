//! What the evaluation of a step's body stands in and spends: the names in scope, what was made,
//! produced and recorded, the sums that the limits are held against, and the operations on
//! values; and the outcome that it comes to.
//!
//! Every sum is tested before it is spent, so that no step takes more than its limits. Want of
//! memory alone is free.
#![tactic(auto)]

mod measure;
mod operation;
mod outcome;
mod same;
mod scope;
mod state;
mod stop;

pub use measure::{Size, size_of, size_of_all};
pub use operation::{arranged, count, elements, equal, field, less, plus, said, text, truth};
pub use outcome::{Inputs, Outcome, Reason};
pub use scope::Scope;
pub use state::State;
pub use stop::Stop;
