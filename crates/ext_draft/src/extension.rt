ghost use Rattle.std.specs.Prelude.{◌≡◌, ◌⊎◌, ◌++◌, Err, IfOk};
ghost use Rattle.toml.specs.View.{items_view, table_view, view};
ghost use Rattle.ext_draft.specs.Places.{shown};
ghost use Rattle.ext_draft.specs.FirstWalk.{extension_in, extensions_at, no_sums, sums_with, IsWithin};
ghost use Rattle.ext_draft.specs.Paths.{nth};
ghost use Rattle.ext_draft.specs.Reading.{table_entry};

use crate::draft::{DraftExtension, Sums};
use crate::fault::DraftFault;
use crate::faults::wrong_entry;
use crate::prefix::Prefix;
use crate::recorder::{recorders_of, with_methods};
use crate::table::{list_of, name_at, without_others};
use item_types::Seq;
use std::alloc::Global;
use toml::{Table, Value};

/// An extension, after extensions with so many things of each kind.
#[tactic(auto, unfolding(toml_keys::specs::Documents::texts_of, crate::specs::FirstWalk::extension_in))]
fn extension_in(
    alloc: Global,
    sums: Sums,
    prefix: &Prefix<'_>,
    table: &Table,
) -> Result<DraftExtension, DraftFault>
    requires { IsWithin sums }
    ensures { (result ≡ Err DraftFault.Memory) ⊎ (result ≡ extension_in sums (shown prefix.now) (table_view table.now)) }
{
    let name = name_at(alloc, prefix, table, "name")?;
    let items = list_of(alloc, 2048, sums.items, prefix, table, "items")?;
    let beans = list_of(alloc, 1024, sums.beans, prefix, table, "beans")?;
    let recorders = recorders_of(alloc, sums.recorders, sums.methods, prefix, table)?;
    let steps = list_of(alloc, 2048, sums.steps, prefix, table, "steps")?;
    let extension = DraftExtension {
        name,
        items,
        beans,
        recorders,
        steps,
    };
    without_others(
        alloc,
        &["name", "items", "beans", "recorders", "steps"],
        prefix,
        table,
        extension,
    )
}

fn extension_at(
    alloc: Global,
    sums: Sums,
    prefix: &Prefix<'_>,
    key: &str,
    index: usize,
    value: &Value,
) -> Result<DraftExtension, DraftFault>
    requires { IsWithin sums }
    ensures answer { (result ≡ Err DraftFault.Memory) ⊎ (result ≡ table_entry (extension_in sums) (nth (shown prefix.now ++ key.now) index) (view value.now)) }
    ensures within { IfOk result (λ e. IsWithin (sums_with sums e)) }
{
    match value.as_table() {
        Some(table) => {
            let prefix = Prefix::Entry(prefix, key, index);
            extension_in(alloc, sums, &prefix, table)
        }
        None => wrong_entry(alloc, prefix, key, index),
    }
}

fn sums_with(sums: Sums, extension: &DraftExtension) -> Sums
    requires { IsWithin (sums_with sums extension.now) }
    ensures { result ≡ sums_with sums extension.now }
{
    Sums {
        items: sums.items + extension.items.len(),
        beans: sums.beans + extension.beans.len(),
        recorders: sums.recorders + extension.recorders.len(),
        methods: with_methods(sums.methods, extension.recorders.as_slice()),
        steps: sums.steps + extension.steps.len(),
    }
}

/// All extensions of a list.
pub fn extensions_at(
    alloc: Global,
    prefix: &Prefix<'_>,
    key: &str,
    values: &[Value],
) -> Result<Seq<DraftExtension>, DraftFault>
    ensures { (result ≡ Err DraftFault.Memory) ⊎ (result ≡ extensions_at no_sums (shown prefix.now ++ key.now) 0 (items_view values.now)) }
{
    let mut found = Seq::new(alloc);
    let mut sums = Sums {
        items: 0,
        beans: 0,
        recorders: 0,
        methods: 0,
        steps: 0,
    };
    for (index, value) in values.iter().enumerate() {
        match extension_at(alloc, sums, prefix, key, index, value) {
            Ok(extension) => {
                sums = sums_with(sums, &extension);
                if found.push(extension).is_err() {
                    return Err(DraftFault::Memory);
                }
            }
            Err(fault) => return Err(fault),
        }
    }
    Ok(found)
}
