ghost use Rattle.std.specs.Prelude.{IfOk, IfErr, Ok};
ghost use Rattle.aug_base.specs.Shelves.{Reads};
ghost use Rattle.quarkus_cli.specs.Ends.{Stopped};

use crate::status::{NO_MEMORY, UNREADABLE};
use aug_base::{Shelf, ShelfErr};
use item_types::Bytes;
use std::alloc::Global;

/// One byte more than a project file may have, so that a longer file is known to be too long.
pub const PROJECT_LIMIT: usize = 1_048_577;

/// One byte more than a class file may have.
pub const CLASS_READ_LIMIT: usize = 2_000_001;

/// A file's first `limit` bytes.
///
/// # Errors
/// The status that the command ends with: `UNREADABLE` where the shelf lacks the file or failed,
/// `NO_MEMORY` for want of memory.
pub fn read_input<S: Shelf>(
    alloc: Global,
    shelf: &mut S,
    name: &str,
    limit: usize,
) -> Result<Bytes, u8>
    ensures ok { IfOk result (λ bytes. Reads name.now limit (S.state shelf.old) (S.state shelf.new) (Ok bytes)) }
    ensures err { IfErr result (λ status. Stopped name.now (S.state shelf.old) (S.state shelf.new) status) }
{
    match shelf.read(alloc, name, limit) {
        Ok(bytes) => Ok(bytes),
        Err(ShelfErr::Memory) => Err(NO_MEMORY),
        Err(ShelfErr::Absent) => Err(UNREADABLE),
        Err(ShelfErr::Failed) => Err(UNREADABLE),
    }
}
