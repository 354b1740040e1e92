//! All that the program does: it reads the words of a command line, does the command over any
//! shelf, sink and gate, and answers a status.
//!
//! What each command comes to, and what each status says of the shelf and the sink, is defined in
//! this crate's `specs`.
#![tactic(auto)]

mod answer;
mod build;
mod delivery;
mod dump;
mod laws;
mod outcome;
mod plan;
mod prepare;
mod reading;
mod refusals;
mod status;

pub use answer::top;
pub use build::{build_one, build_together};
pub use command_words::{Command, WordsErr, read_words};
pub use dump::dump_call;
pub use laws::{
    a_build_tells_its_history, a_class_file_has_one_dump, a_class_file_is_dumped,
    a_missing_file_is_told, a_status_tells_its_cause, a_text_is_put_last,
    an_accepted_project_is_built, an_accepted_project_is_planned, an_outcome_is_answered,
    one_worker_has_one_outcome, plan_has_one_outcome, words_of_no_form_read_nothing,
};
pub use outcome::Outcome;
pub use plan::plan_call;
