ghost use Rattle.std.specs.Prelude.{◌≡◌, ◌⊎◌, Err, IfOk};
ghost use Rattle.ext_draft.specs.DraftOfTheBytes.{draft};
ghost use Rattle.ext_draft.specs.Limits.{KeepsLimits};

use crate::draft::Draft;
use crate::fault::DraftFault;
use crate::file::file;
use item_types::Text;
use std::alloc::Global;
use toml_keys::{ReadFault, let_go, read_table};

/// A project file has at most so many bytes.
const SIZE_LIMIT: usize = 1_048_576;

#[tactic(auto, unfolding(crate::specs::DraftOfTheBytes::draft))]
fn read_bytes(alloc: Global, bytes: &[u8]) -> Result<Draft, DraftFault>
    ensures { (result ≡ Err DraftFault.Memory) ⊎ (result ≡ draft bytes.now) }
{
    if bytes.len() > SIZE_LIMIT {
        let path = Text::of(alloc, "file")?;
        return Err(DraftFault::Limit {
            path,
            found: 1_048_577,
        });
    }
    let table = match read_table(alloc, bytes) {
        Ok(table) => table,
        Err(ReadFault::Toml) => return Err(DraftFault::Toml),
        Err(ReadFault::Memory) => return Err(DraftFault::Memory),
    };
    let answer = file(alloc, &table);
    let_go(alloc, table);
    answer
}

/// What each key of a project file says.
///
/// # Errors
/// The first fault, in this order: `Limit` with the path `file` where there are more than 1,048,576
/// bytes; `Toml`; then those of each key and entry, tables' keys in their order and lists in order.
/// `Memory` for want of memory.
pub fn read_draft(alloc: Global, bytes: &[u8]) -> Result<Draft, DraftFault>
    ensures answer { (result ≡ Err DraftFault.Memory) ⊎ (result ≡ draft bytes.now) }
    ensures limits { IfOk result KeepsLimits }
{
    read_bytes(alloc, bytes)
}
