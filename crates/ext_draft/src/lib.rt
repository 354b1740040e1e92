//! The first walk over a project file: from its bytes to a draft, which has what each key says, or
//! to the first fault and its path. No name is looked up here.
#![tactic(auto)]

mod bean;
mod body;
mod config;
mod draft;
mod entry;
mod extension;
mod fault;
mod faults;
mod file;
mod item;
mod laws;
mod names;
mod parts;
mod paths;
mod prefix;
mod read;
mod recorder;
mod step;
mod table;

pub use draft::{
    Draft, DraftConsume, DraftExtension, DraftMethod, DraftProduce, DraftRecorder, DraftStep,
    Flags, Setting,
};
pub use fault::DraftFault;
pub use laws::{draft_of_cut_bytes, drafts_keep_limits};
pub use names::is_name;
pub use paths::{inside_nth, nth, path_of};
pub use read::read_draft;
