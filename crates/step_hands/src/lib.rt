//! How the steps that a worker released travel to the other workers: each worker has a first-in
//! first-out deque of its own, from whose front the others steal.
//!
//! What a deque holds are numbers below 2,048, the limit on the steps of a project. Nothing else is
//! known of them: whoever gets one looks under the build lock whether that step may start.
#![tactic(auto)]

mod hands;
mod protocol;

pub use hands::{Hands, make_hands};
