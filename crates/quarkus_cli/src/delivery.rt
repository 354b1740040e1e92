ghost use Rattle.quarkus_cli.specs.Answers.{outside};
ghost use Rattle.quarkus_cli.specs.Ends.{WritesAll, Delivers};

use crate::Outcome;
use crate::status::{FAILED, NO_MEMORY};
use aug_base::{Shelf, ShelfErr, Sink, SinkErr, write_all};
use item_types::{Bytes, Text};

/// Writes an outcome's files and then puts its text, and answers its status if all that was done.
/// It answers `FAILED` at the first write or put that fails, and `NO_MEMORY` for want of memory.
pub fn deliver<S: Shelf, K: Sink>(outcome: &Outcome, shelf: &mut S, sink: &mut K) -> u8
    ensures { Delivers outcome.now (outside (S.state shelf.old) (K.state sink.old)) (outside (S.state shelf.new) (K.state sink.new)) result }
{
    deliver_parts(
        outcome.status,
        outcome.text.as_str(),
        outcome.files.as_slice(),
        shelf,
        sink,
    )
}

/// As `deliver`, of an outcome in its parts.
pub fn deliver_parts<S: Shelf, K: Sink>(
    status: u8,
    text: &str,
    files: &[(Text, Bytes)],
    shelf: &mut S,
    sink: &mut K,
) -> u8
    ensures { Delivers (record { status = status; text = text.now; files = files.now }) (outside (S.state shelf.old) (K.state sink.old)) (outside (S.state shelf.new) (K.state sink.new)) result }
{
    match write_files(shelf, files) {
        Ok(()) => {}
        Err(ShelfErr::Absent) => return FAILED,
        Err(ShelfErr::Failed) => return FAILED,
        Err(ShelfErr::Memory) => return NO_MEMORY,
    }
    match write_all(sink, text.as_bytes()) {
        Ok(()) => status,
        Err(SinkErr::Failed) => FAILED,
        Err(SinkErr::Memory) => NO_MEMORY,
    }
}

/// Writes the files in order, up to the first that fails.
fn write_files<S: Shelf>(shelf: &mut S, files: &[(Text, Bytes)]) -> Result<(), ShelfErr>
    ensures { WritesAll files.now (S.state shelf.old) (S.state shelf.new) result }
{
    for file in files {
        match shelf.write(file.0.as_str(), file.1.as_slice()) {
            Ok(()) => {}
            Err(fault) => return Err(fault),
        }
    }
    Ok(())
}
