ghost use Rattle.std.specs.Prelude.{◌≡◌, Some, None, IfOk, IfErr};
ghost use Rattle.toml.specs.View.{table_view};
ghost use Rattle.toml_keys.specs.Documents.{table_of};

use std::alloc::Global;
use toml::Table;

/// Why a file's table isn't there.
#[derive(Debug, Drop)]
pub enum ReadFault {
    /// The bytes aren't UTF-8, or no TOML.
    Toml,
    /// Want of memory.
    Memory,
}

/// The table that a file's bytes write.
///
/// # Errors
/// `Toml` where the bytes aren't UTF-8 or `toml` refuses them; `Memory` for want of memory.
pub fn read_table(alloc: Global, bytes: &[u8]) -> Result<Table, ReadFault>
    ensures ok { IfOk result (λ table. table_of bytes.now ≡ Some (table_view table)) }
    ensures toml { IfErr result (λ fault. fault ≡ ReadFault.Toml → table_of bytes.now ≡ None) }
{
    match toml::table_from_slice(alloc, bytes) {
        Ok(table) => Ok(table),
        Err(error) => {
            if error.is_memory() {
                Err(ReadFault::Memory)
            } else {
                Err(ReadFault::Toml)
            }
        }
    }
}
