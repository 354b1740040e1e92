ghost use Rattle.std.specs.Prelude.{◌≡◌, ◌⊎◌, ◌++◌, Err, codes};
ghost use Rattle.toml.specs.Data.{get_member};
ghost use Rattle.toml.specs.View.{table_view};
ghost use Rattle.ext_draft.specs.Places.{shown};
ghost use Rattle.ext_draft.specs.FirstWalk.{phase_at, phase_named, step_in};

use crate::body::body_at;
use crate::draft::DraftStep;
use crate::entry::Entry;
use crate::fault::DraftFault;
use crate::faults::{wrong_entry, wrong_field};
use crate::prefix::Prefix;
use crate::table::{list_of, name_at, names_at, without_others};
use item_types::Phase;
use std::alloc::Global;
use toml::{Table, Value};
use toml_keys::value_at;

fn phase_named(word: &str) -> Option<Phase>
    ensures { result ≡ phase_named word.now }
{
    if word == "static" {
        Some(Phase::Static)
    } else if word == "runtime" {
        Some(Phase::Runtime)
    } else {
        None
    }
}

/// The phase at the key `record`.
fn phase_at(alloc: Global, prefix: &Prefix<'_>, table: &Table) -> Result<Option<Phase>, DraftFault>
    ensures { (result ≡ Err DraftFault.Memory) ⊎ (result ≡ phase_at (shown prefix.now ++ codes "record") (get_member (codes "record") (table_view table.now))) }
{
    let value = match value_at(table, "record") {
        Some(value) => value,
        None => return Ok(None),
    };
    let word = match value.as_str() {
        Some(word) => word,
        None => return wrong_field(alloc, prefix, "record"),
    };
    match phase_named(word) {
        Some(phase) => Ok(Some(phase)),
        None => wrong_field(alloc, prefix, "record"),
    }
}

/// A step.
#[tactic(auto, unfolding(toml_keys::specs::Documents::texts_of, crate::specs::FirstWalk::step_in))]
fn step_in(alloc: Global, prefix: &Prefix<'_>, table: &Table) -> Result<DraftStep, DraftFault>
    ensures { (result ≡ Err DraftFault.Memory) ⊎ (result ≡ step_in (shown prefix.now) (table_view table.now)) }
{
    let name = name_at(alloc, prefix, table, "name")?;
    let consumes = list_of(alloc, 64, 0, prefix, table, "consumes")?;
    let produces = list_of(alloc, 64, 0, prefix, table, "produces")?;
    let phase = phase_at(alloc, prefix, table)?;
    let only_if = names_at(alloc, 64, prefix, table, "only_if")?;
    let only_if_not = names_at(alloc, 64, prefix, table, "only_if_not")?;
    let body = body_at(alloc, prefix, table)?;
    let step = DraftStep {
        name,
        consumes,
        produces,
        phase,
        only_if,
        only_if_not,
        body,
    };
    without_others(
        alloc,
        &[
            "name",
            "consumes",
            "produces",
            "record",
            "only_if",
            "only_if_not",
            "body",
        ],
        prefix,
        table,
        step,
    )
}

impl Entry for DraftStep {
    ghost use Rattle.ext_draft.specs.FirstWalk.{step_in};
    ghost use Rattle.ext_draft.specs.Reading.{table_entry};

    ghost reads = { table_entry step_in };

    fn read(
        alloc: Global,
        prefix: &Prefix<'_>,
        key: &str,
        index: usize,
        value: &Value,
    ) -> Result<DraftStep, DraftFault> {
        match value.as_table() {
            Some(table) => {
                let prefix = Prefix::Entry(prefix, key, index);
                step_in(alloc, &prefix, table)
            }
            None => wrong_entry(alloc, prefix, key, index),
        }
    }
}
