//! Project files: from a file's bytes to the declarations of an application's extensions, or to
//! the first fault and its path.
#![tactic(auto)]

mod active;
mod build;
mod fault;
mod known;
mod laws;
mod lists;
mod mention;
mod named;
mod project;
mod read;
mod second_walk;
mod texts;
mod third_walk;

pub use ext_draft::is_name;
pub use fault::ProjectFault;
pub use laws::{
    names_are_tokens, project_fits, project_is_numbered, project_of_cut_bytes, texts_are_right,
};
pub use project::Project;
pub use project_fit::{fits, fitting_is_numbered};
pub use read::read_project;
pub use step_lang::{Body, LangFault, Method, Methods};
