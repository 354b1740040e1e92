//! The texts that tell people what came of a project: its plan, what a build did, or why it is no
//! project.
//!
//! Each text is exact, byte for byte; the definitions stand in this crate's `specs`.
#![tactic(auto)]

mod build_text;
mod laws;
mod plan_text;
mod project_text;

pub use build_text::{push_last_line, report_build};
pub use laws::a_plan_has_one_text;
pub use plan_text::report_plan;
pub use project_text::report_project;
