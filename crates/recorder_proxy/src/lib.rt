//! What build steps record: calls of recorders' methods, which an application's start plays, and
//! proxies, which stand in values for what such calls will return.
#![tactic(auto)]

mod call;
mod laws;
mod proxies;
mod sizes;

pub use call::{Call, Recording};
pub use laws::{empty_law, insert_law, plain_law, plain_recording_law, prefix_law};
pub use proxies::{first_runtime, proxies_of};
pub use sizes::{cells_of, text_of};
