ghost use Rattle.std.specs.Prelude.{◌≡◌, ◌⊎◌, ◌++◌, Err, List, ℕ, Result};
ghost use Rattle.toml.specs.Data.{Data};
ghost use Rattle.toml.specs.View.{view, items_view};
ghost use Rattle.ext_draft.specs.Paths.{nth};
ghost use Rattle.ext_draft.specs.Places.{shown};
ghost use Rattle.ext_draft.specs.Reading.{entries_at};
ghost use Rattle.ext_draft.specs.declared.fault.DraftFault.{DraftFault as Fault};

use crate::fault::DraftFault;
use crate::prefix::Prefix;
use item_types::Seq;
use std::alloc::Global;
use toml::Value;

/// What the entries of a list are read as.
pub trait Entry: Drop {
    // what the value at that path gives
    ghost reads: { List ℕ → Data → Result Self Fault };

    /// Reads entry `index` of the list at a key.
    fn read(
        alloc: Global,
        prefix: &Prefix<'_>,
        key: &str,
        index: usize,
        value: &Value,
    ) -> Result<Self, DraftFault>
        ensures { (result ≡ Err DraftFault.Memory) ⊎ (result ≡ reads (nth (shown prefix.now ++ key.now) index) (view value.now)) };
}

/// All entries of the list at a key.
pub fn entries<E: Entry>(
    alloc: Global,
    prefix: &Prefix<'_>,
    key: &str,
    values: &[Value],
) -> Result<Seq<E>, DraftFault>
    ensures { (result ≡ Err DraftFault.Memory) ⊎ (result ≡ entries_at E.reads (shown prefix.now ++ key.now) 0 (items_view values.now)) }
{
    let mut found = Seq::new(alloc);
    for (index, value) in values.iter().enumerate() {
        match E::read(alloc, prefix, key, index, value) {
            Ok(entry) => {
                if found.push(entry).is_err() {
                    return Err(DraftFault::Memory);
                }
            }
            Err(fault) => return Err(fault),
        }
    }
    Ok(found)
}
