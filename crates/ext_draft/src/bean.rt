ghost use Rattle.std.specs.Prelude.{◌≡◌, ◌⊎◌, Err};
ghost use Rattle.toml.specs.View.{table_view};
ghost use Rattle.ext_draft.specs.Places.{shown};
ghost use Rattle.ext_draft.specs.Declarations.{bean_in};

use crate::entry::Entry;
use crate::fault::DraftFault;
use crate::faults::wrong_entry;
use crate::prefix::Prefix;
use crate::table::{name_at, names_at, without_others};
use item_types::BeanDecl;
use std::alloc::Global;
use toml::{Table, Value};

/// A bean.
#[tactic(auto, unfolding(toml_keys::specs::Documents::texts_of))]
fn bean_in(alloc: Global, prefix: &Prefix<'_>, table: &Table) -> Result<BeanDecl, DraftFault>
    ensures { (result ≡ Err DraftFault.Memory) ⊎ (result ≡ bean_in (shown prefix.now) (table_view table.now)) }
{
    let name = name_at(alloc, prefix, table, "name")?;
    let fields = names_at(alloc, 16, prefix, table, "fields")?;
    let bean = BeanDecl { name, fields };
    without_others(alloc, &["name", "fields"], prefix, table, bean)
}

impl Entry for BeanDecl {
    ghost use Rattle.ext_draft.specs.Declarations.{bean_in};
    ghost use Rattle.ext_draft.specs.Reading.{table_entry};

    ghost reads = { table_entry bean_in };

    fn read(
        alloc: Global,
        prefix: &Prefix<'_>,
        key: &str,
        index: usize,
        value: &Value,
    ) -> Result<BeanDecl, DraftFault> {
        match value.as_table() {
            Some(table) => {
                let prefix = Prefix::Entry(prefix, key, index);
                bean_in(alloc, &prefix, table)
            }
            None => wrong_entry(alloc, prefix, key, index),
        }
    }
}
