ghost use Rattle.std.specs.Prelude.{◌≡◌, ◌⊎◌, ◌≤◌, ◌+◌, ◌++◌, length, Err, IfOk, codes};
ghost use Rattle.toml.specs.View.{items_view, table_view, view};
ghost use Rattle.ext_draft.specs.Places.{shown};
ghost use Rattle.ext_draft.specs.Declarations.{method_count, method_in, recorder_in, recorders_at, recorders_of};
ghost use Rattle.ext_draft.specs.Paths.{nth};
ghost use Rattle.ext_draft.specs.Reading.{table_entry};

use crate::body::body_at;
use crate::draft::{DraftMethod, DraftRecorder};
use crate::entry::Entry;
use crate::fault::DraftFault;
use crate::faults::wrong_entry;
use crate::prefix::Prefix;
use crate::table::{list_at, list_of, name_at, names_at, without_others};
use item_types::Seq;
use std::alloc::Global;
use toml::{Table, Value};

/// A method.
#[tactic(auto, unfolding(toml_keys::specs::Documents::texts_of))]
fn method_in(alloc: Global, prefix: &Prefix<'_>, table: &Table) -> Result<DraftMethod, DraftFault>
    ensures { (result ≡ Err DraftFault.Memory) ⊎ (result ≡ method_in (shown prefix.now) (table_view table.now)) }
{
    let name = name_at(alloc, prefix, table, "name")?;
    let params = names_at(alloc, 8, prefix, table, "params")?;
    let body = body_at(alloc, prefix, table)?;
    let method = DraftMethod { name, params, body };
    without_others(alloc, &["name", "params", "body"], prefix, table, method)
}

impl Entry for DraftMethod {
    ghost use Rattle.ext_draft.specs.Declarations.{method_in};
    ghost use Rattle.ext_draft.specs.Reading.{table_entry};

    ghost reads = { table_entry method_in };

    fn read(
        alloc: Global,
        prefix: &Prefix<'_>,
        key: &str,
        index: usize,
        value: &Value,
    ) -> Result<DraftMethod, DraftFault> {
        match value.as_table() {
            Some(table) => {
                let prefix = Prefix::Entry(prefix, key, index);
                method_in(alloc, &prefix, table)
            }
            None => wrong_entry(alloc, prefix, key, index),
        }
    }
}

/// A recorder, after recorders with so many methods.
#[tactic(auto, unfolding(toml_keys::specs::Documents::texts_of))]
fn recorder_in(
    alloc: Global,
    before: usize,
    prefix: &Prefix<'_>,
    table: &Table,
) -> Result<DraftRecorder, DraftFault>
    requires { before ≤ 1024 }
    ensures { (result ≡ Err DraftFault.Memory) ⊎ (result ≡ recorder_in before (shown prefix.now) (table_view table.now)) }
{
    let name = name_at(alloc, prefix, table, "name")?;
    let fields = names_at(alloc, 16, prefix, table, "fields")?;
    let statics = names_at(alloc, 16, prefix, table, "statics")?;
    let methods = list_of(alloc, 1024, before, prefix, table, "methods")?;
    let recorder = DraftRecorder {
        name,
        fields,
        statics,
        methods,
    };
    without_others(
        alloc,
        &["name", "fields", "statics", "methods"],
        prefix,
        table,
        recorder,
    )
}

fn recorder_at(
    alloc: Global,
    before: usize,
    prefix: &Prefix<'_>,
    key: &str,
    index: usize,
    value: &Value,
) -> Result<DraftRecorder, DraftFault>
    requires { before ≤ 1024 }
    ensures answer { (result ≡ Err DraftFault.Memory) ⊎ (result ≡ table_entry (recorder_in before) (nth (shown prefix.now ++ key.now) index) (view value.now)) }
    ensures few { IfOk result (λ r. before + length r.methods ≤ 1024) }
{
    match value.as_table() {
        Some(table) => {
            let prefix = Prefix::Entry(prefix, key, index);
            recorder_in(alloc, before, &prefix, table)
        }
        None => wrong_entry(alloc, prefix, key, index),
    }
}

/// All recorders of a list, after recorders with so many methods.
fn recorders_at(
    alloc: Global,
    before: usize,
    prefix: &Prefix<'_>,
    key: &str,
    values: &[Value],
) -> Result<Seq<DraftRecorder>, DraftFault>
    requires { before ≤ 1024 }
    ensures { (result ≡ Err DraftFault.Memory) ⊎ (result ≡ recorders_at before (shown prefix.now ++ key.now) 0 (items_view values.now)) }
{
    let mut found = Seq::new(alloc);
    let mut methods = before;
    for (index, value) in values.iter().enumerate() {
        match recorder_at(alloc, methods, prefix, key, index, value) {
            Ok(recorder) => {
                methods += recorder.methods.len();
                if found.push(recorder).is_err() {
                    return Err(DraftFault::Memory);
                }
            }
            Err(fault) => return Err(fault),
        }
    }
    Ok(found)
}

/// The recorders of an extension, after so many recorders, which have so many methods.
pub fn recorders_of(
    alloc: Global,
    before: usize,
    methods: usize,
    prefix: &Prefix<'_>,
    table: &Table,
) -> Result<Seq<DraftRecorder>, DraftFault>
    requires few { before ≤ 256 }
    requires few_methods { methods ≤ 1024 }
    ensures { (result ≡ Err DraftFault.Memory) ⊎ (result ≡ recorders_of before methods (shown prefix.now) (table_view table.now)) }
{
    match list_at(alloc, 256, before, prefix, table, "recorders") {
        Ok(values) => recorders_at(alloc, methods, prefix, "recorders", values),
        Err(fault) => Err(fault),
    }
}

/// How many methods there are, with those of these recorders.
pub fn with_methods(before: usize, recorders: &[DraftRecorder]) -> usize
    requires { before + method_count recorders.now ≤ 1024 }
    ensures { result ≡ before + method_count recorders.now }
{
    let mut methods = before;
    for recorder in recorders {
        methods += recorder.methods.len();
    }
    methods
}
