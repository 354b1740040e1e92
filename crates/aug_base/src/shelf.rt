ghost use Rattle.aug_base.specs.Causes.{Ends};
ghost use Rattle.aug_base.specs.Shelves.{Shelved, Reads, Writes};

use crate::ShelfErr;
use item_types::Bytes;
use std::alloc::Global;

/// Files by name. This project's own.
///
/// A shelf counts the reads that failed and the writes that failed, and neither count falls. It
/// may tell the map from names to bytes; where it does, contracts say what becomes of the map.
pub trait Shelf {
    ghost state: { Self → Shelved };

    /// The first `limit` bytes of a file, or all if there are fewer. The map stays as it is.
    ///
    /// # Errors
    /// `Absent` only where the shelf tells its map and the name isn't in it; both counts stay.
    /// `Failed` only where the count of failed reads rose. `Memory` for want of memory.
    fn read(&mut self, alloc: Global, name: &str, limit: usize) -> Result<Bytes, ShelfErr>
        ensures reads { Reads name.now limit (state self.old) (state self.new) result }
        ensures ends { Ends (state self.old).read_faults (state self.new).read_faults };

    /// Replaces a file whole, or makes it.
    ///
    /// # Errors
    /// `Failed` only where the count of failed writes rose, and `Memory` for want of memory. After
    /// either the file is as before or holds a prefix of the bytes, and every other file is as
    /// before. Never `Absent`.
    fn write(&mut self, name: &str, bytes: &[u8]) -> Result<(), ShelfErr>
        ensures writes { Writes name.now bytes.now (state self.old) (state self.new) result }
        ensures ends { Ends (state self.old).write_faults (state self.new).write_faults };
}
