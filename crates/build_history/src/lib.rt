//! What happens when the steps of an accepted chain run: jobs, events and histories, which
//! histories are one-thread runs, and the evaluations that a history's events rest on. The texts
//! of histories and of the reasons why steps fail are told byte for byte.
//!
//! A history is given room for events before they happen, so that adding one takes no memory and
//! is never refused.
#![tactic(auto)]

mod call_lines;
mod event;
mod event_lines;
mod history;
mod job;
mod laws;
mod reason_words;
mod recorded;
mod work;

pub use event::Event;
pub use event_lines::{print, push_event};
pub use history::History;
pub use job::Job;
pub use laws::{
    a_run_goes_on, kept_puts_are_effective, meanings_are_bounded, nothing_is_a_run,
    recordings_are_sound, the_next_event_is_told, what_is_next_may_follow,
};
pub use reason_words::{push_reason, reason_text};
pub use work::{Work, evaluate};
