//! The evaluation of a step's body: from what the step took to what it produces and records, or
//! to the reason why it fails.
//!
//! What a body means is a definition of its own; [`eval`] gives exactly that meaning. Want of
//! memory alone is free.
#![tactic(auto)]

mod body;
mod context;
mod expression;
mod laws;
mod statement;

pub use body::eval;
pub use laws::{
    a_block_leaves_no_name, a_new_bean_has_the_next_number, a_new_list_has_the_next_number,
    a_proxy_has_its_calls_number, a_right_body_comes_to_what_fits, outcomes_are_bounded,
    the_count_of_nodes_never_falls, what_is_recorded_is_sound,
};
pub use step_state::{Inputs, Outcome, Reason};
