//! The outside of the product: where files are read and written ([`Shelf`]), where text goes
//! ([`Sink`]) and where a worker may be held up ([`Gate`]), with fakes of the first two in memory
//! ([`MemShelf`], [`MemSink`]) and the real ones ([`FileShelf`], [`StdSink`]).
//!
//! A shelf and a sink count their faults and may tell what they hold, so that a caller's contract
//! can say what became of files and text, and which refusal had which cause.
#![tactic(auto)]

mod errors;
mod file_shelf;
mod gate;
mod host;
mod mem_shelf;
mod mem_sink;
mod reading;
mod shelf;
mod sink;
mod std_sink;
mod system;
mod writing;

pub use errors::{ShelfErr, SinkErr};
pub use file_shelf::FileShelf;
pub use gate::{Gate, NoGate};
pub use host::Host;
pub use mem_shelf::MemShelf;
pub use mem_sink::MemSink;
pub use shelf::Shelf;
pub use sink::{Sink, write_all};
pub use std_sink::{StdSink, StdStream};
pub use system::{Stream, System, SystemErr};
