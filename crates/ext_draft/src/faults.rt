ghost use Rattle.std.specs.Prelude.{◌≡◌, ◌⊎◌, ◌++◌, Err};
ghost use Rattle.ext_draft.specs.Paths.{nth};
ghost use Rattle.ext_draft.specs.Places.{shown};

use crate::fault::DraftFault;
use crate::paths::{entry_path, key_path};
use crate::prefix::Prefix;
use item_types::Text;
use std::alloc::Global;

/// A wrong field at a table's key.
pub fn wrong_field<T>(alloc: Global, prefix: &Prefix<'_>, key: &str) -> Result<T, DraftFault>
    ensures { (result ≡ Err DraftFault.Memory) ⊎ (result ≡ Err (DraftFault.Field (shown prefix.now ++ key.now))) }
{
    match key_path(alloc, prefix, key) {
        Ok(path) => Err(DraftFault::Field(Text::from_string(path))),
        Err(_) => Err(DraftFault::Memory),
    }
}

/// A wrong name at a table's key.
pub fn wrong_name<T>(alloc: Global, prefix: &Prefix<'_>, key: &str) -> Result<T, DraftFault>
    ensures { (result ≡ Err DraftFault.Memory) ⊎ (result ≡ Err (DraftFault.Name (shown prefix.now ++ key.now))) }
{
    match key_path(alloc, prefix, key) {
        Ok(path) => Err(DraftFault::Name(Text::from_string(path))),
        Err(_) => Err(DraftFault::Memory),
    }
}

/// A wrong field at an entry of the list at a key.
pub fn wrong_entry<T>(
    alloc: Global,
    prefix: &Prefix<'_>,
    key: &str,
    index: usize,
) -> Result<T, DraftFault>
    ensures { (result ≡ Err DraftFault.Memory) ⊎ (result ≡ Err (DraftFault.Field (nth (shown prefix.now ++ key.now) index))) }
{
    match entry_path(alloc, prefix, key, index) {
        Ok(path) => Err(DraftFault::Field(Text::from_string(path))),
        Err(_) => Err(DraftFault::Memory),
    }
}

/// A wrong name at an entry of the list at a key.
pub fn wrong_entry_name<T>(
    alloc: Global,
    prefix: &Prefix<'_>,
    key: &str,
    index: usize,
) -> Result<T, DraftFault>
    ensures { (result ≡ Err DraftFault.Memory) ⊎ (result ≡ Err (DraftFault.Name (nth (shown prefix.now ++ key.now) index))) }
{
    match entry_path(alloc, prefix, key, index) {
        Ok(path) => Err(DraftFault::Name(Text::from_string(path))),
        Err(_) => Err(DraftFault::Memory),
    }
}

/// The list or the text at a key is too long.
pub fn too_long<T>(
    alloc: Global,
    prefix: &Prefix<'_>,
    key: &str,
    found: usize,
) -> Result<T, DraftFault>
    ensures { (result ≡ Err DraftFault.Memory) ⊎ (result ≡ Err (DraftFault.Limit (shown prefix.now ++ key.now) found)) }
{
    match key_path(alloc, prefix, key) {
        Ok(path) => Err(DraftFault::Limit {
            path: Text::from_string(path),
            found: found as u64,
        }),
        Err(_) => Err(DraftFault::Memory),
    }
}
