ghost use Rattle.std.specs.Prelude.{◌≡◌, ◌⊎◌, Err, codes};
ghost use Rattle.toml.specs.Data.{get_member};
ghost use Rattle.toml.specs.View.{table_view, view};
ghost use Rattle.ext_draft.specs.FirstWalk.{config_at, setting_at, settings_at};
ghost use Rattle.ext_draft.specs.Paths.{nth};

use crate::draft::Setting;
use crate::fault::DraftFault;
use crate::faults::{too_long, wrong_entry, wrong_entry_name, wrong_field};
use crate::names::is_name;
use crate::prefix::Prefix;
use item_types::{Seq, Text};
use std::alloc::Global;
use toml::{Table, Value};
use toml_keys::{key_count, value_at};

/// Key `index` of `config`, and its truth value.
fn setting_at(alloc: Global, index: usize, key: &str, value: &Value) -> Result<Setting, DraftFault>
    ensures { (result ≡ Err DraftFault.Memory) ⊎ (result ≡ setting_at (nth (codes "config") index) key.now (view value.now)) }
{
    if !is_name(key) {
        return wrong_entry_name(alloc, &Prefix::File, "config", index);
    }
    let on = match value.as_bool() {
        Some(on) => on,
        None => return wrong_entry(alloc, &Prefix::File, "config", index),
    };
    let name = Text::of(alloc, key)?;
    Ok(Setting { name, on })
}

/// All keys of `config`, in byte order.
#[tactic(auto, using(crate::proofs::Settings::one_more_setting))]
fn settings_in(alloc: Global, table: &Table) -> Result<Seq<Setting>, DraftFault>
    ensures { (result ≡ Err DraftFault.Memory) ⊎ (result ≡ settings_at 0 (table_view table.now)) }
{
    let mut found = Seq::new(alloc);
    for (key, value) in table {
        match setting_at(alloc, found.len(), key.as_str(), value) {
            Ok(setting) => {
                if found.push(setting).is_err() {
                    return Err(DraftFault::Memory);
                }
            }
            Err(fault) => return Err(fault),
        }
    }
    Ok(found)
}

/// The keys of the file's `config`, at most 1,024, and their truth values.
pub fn config_at(alloc: Global, table: &Table) -> Result<Seq<Setting>, DraftFault>
    ensures { (result ≡ Err DraftFault.Memory) ⊎ (result ≡ config_at (get_member (codes "config") (table_view table.now))) }
{
    let value = match value_at(table, "config") {
        Some(value) => value,
        None => return Ok(Seq::new(alloc)),
    };
    let config = match value.as_table() {
        Some(config) => config,
        None => return wrong_field(alloc, &Prefix::File, "config"),
    };
    let found = key_count(config);
    if 1024 < found {
        return too_long(alloc, &Prefix::File, "config", found);
    }
    settings_in(alloc, config)
}
