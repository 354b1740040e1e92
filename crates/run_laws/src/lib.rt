//! Laws of one-thread runs: what is next in a run is told by what stands before it, so a text
//! belongs to one run only, and a job has at most one least-first run. What a run records can be
//! played.
#![tactic(auto)]

mod laws;

pub use laws::{
    a_beginning_is_a_run, a_text_is_of_one_run, one_least_first, proxies_name_kept_calls,
    runs_are_playable,
};
