ghost use Rattle.std.specs.Prelude.{◌≡◌, ◌⊎◌, ◌+◌, ◌++◌, ◌≤◌, ◌^◌, ◌<◌, Err, Ok, IfOk, IfErr};
ghost use Rattle.toml.specs.Data.{get_member};
ghost use Rattle.toml.specs.View.{items_view, table_view, view};
ghost use Rattle.toml_keys.specs.Documents.{texts_of};
ghost use Rattle.ext_draft.specs.Places.{shown};
ghost use Rattle.ext_draft.specs.Paths.{nth};
ghost use Rattle.ext_draft.specs.Reading.{name_at, name_entry, names_at, entries_at, list_at, list_of, without_others};

use crate::entry::{Entry, entries};
use crate::fault::DraftFault;
use crate::faults::{too_long, wrong_entry, wrong_entry_name, wrong_field, wrong_name};
use crate::names::is_name;
use crate::paths::other_key_path;
use crate::prefix::Prefix;
use item_types::{Seq, Text};
use std::alloc::Global;
use toml::{Table, Value};
use toml_keys::{entry_count, other_key, text_at, value_at};

/// The name at a key that has to be there.
pub fn name_at(
    alloc: Global,
    prefix: &Prefix<'_>,
    table: &Table,
    key: &str,
) -> Result<Text, DraftFault>
    ensures { (result ≡ Err DraftFault.Memory) ⊎ (result ≡ name_at (shown prefix.now) (table_view table.now) key.now) }
{
    match text_at(table, key) {
        Some(text) => {
            if is_name(text) {
                Ok(Text::of(alloc, text)?)
            } else {
                wrong_name(alloc, prefix, key)
            }
        }
        None => wrong_field(alloc, prefix, key),
    }
}

/// The list at a key, with `before` entries of such lists before it; none is an empty one.
pub fn list_at<'a>(
    alloc: Global,
    limit: usize,
    before: usize,
    prefix: &Prefix<'_>,
    table: &'a Table,
    key: &str,
) -> Result<&'a [Value], DraftFault>
    requires { before < 2 ^ 62 }
    ensures ok { IfOk result (λ values. list_at limit before (shown prefix.now ++ key.now) (get_member key.now (table_view table.now)) ≡ Ok (items_view values.now)) }
    ensures err { IfErr result (λ fault. (fault ≡ DraftFault.Memory) ⊎ (list_at limit before (shown prefix.now ++ key.now) (get_member key.now (table_view table.now)) ≡ Err fault)) }
{
    let value = match value_at(table, key) {
        Some(value) => value,
        None => return Ok(&[]),
    };
    let array = match value.as_array() {
        Some(array) => array,
        None => return wrong_field(alloc, prefix, key),
    };
    let found = before + entry_count(array);
    if limit < found {
        return too_long(alloc, prefix, key, found);
    }
    Ok(array.as_slice())
}

/// The list at a key, and its entries.
pub fn list_of<E: Entry>(
    alloc: Global,
    limit: usize,
    before: usize,
    prefix: &Prefix<'_>,
    table: &Table,
    key: &str,
) -> Result<Seq<E>, DraftFault>
    requires { before < 2 ^ 62 }
    ensures { (result ≡ Err DraftFault.Memory) ⊎ (result ≡ list_of E.reads limit before (shown prefix.now) (table_view table.now) key.now) }
{
    match list_at(alloc, limit, before, prefix, table, key) {
        Ok(values) => entries(alloc, prefix, key, values),
        Err(fault) => Err(fault),
    }
}

/// The name at an entry of the list at a key.
fn name_in(
    alloc: Global,
    prefix: &Prefix<'_>,
    key: &str,
    index: usize,
    value: &Value,
) -> Result<Text, DraftFault>
    ensures { (result ≡ Err DraftFault.Memory) ⊎ (result ≡ name_entry (nth (shown prefix.now ++ key.now) index) (view value.now)) }
{
    let text = match value.as_str() {
        Some(text) => text,
        None => return wrong_entry(alloc, prefix, key, index),
    };
    if !is_name(text) {
        return wrong_entry_name(alloc, prefix, key, index);
    }
    Ok(Text::of(alloc, text)?)
}

fn names_in(
    alloc: Global,
    prefix: &Prefix<'_>,
    key: &str,
    values: &[Value],
) -> Result<Seq<Text>, DraftFault>
    ensures { (result ≡ Err DraftFault.Memory) ⊎ (result ≡ entries_at name_entry (shown prefix.now ++ key.now) 0 (items_view values.now)) }
{
    let mut found = Seq::new(alloc);
    for (index, value) in values.iter().enumerate() {
        match name_in(alloc, prefix, key, index, value) {
            Ok(name) => {
                if found.push(name).is_err() {
                    return Err(DraftFault::Memory);
                }
            }
            Err(fault) => return Err(fault),
        }
    }
    Ok(found)
}

/// The names at a key.
pub fn names_at(
    alloc: Global,
    limit: usize,
    prefix: &Prefix<'_>,
    table: &Table,
    key: &str,
) -> Result<Seq<Text>, DraftFault>
    ensures { (result ≡ Err DraftFault.Memory) ⊎ (result ≡ names_at limit (shown prefix.now) (table_view table.now) key.now) }
{
    match list_at(alloc, limit, 0, prefix, table, key) {
        Ok(values) => names_in(alloc, prefix, key, values),
        Err(fault) => Err(fault),
    }
}

/// What the table was read as, if it has no key but its own.
pub fn without_others<T: Drop>(
    alloc: Global,
    own: &[&str],
    prefix: &Prefix<'_>,
    table: &Table,
    read: T,
) -> Result<T, DraftFault>
    ensures { (result ≡ Err DraftFault.Memory) ⊎ (result ≡ without_others (texts_of own.now) (shown prefix.now) (table_view table.now) read) }
{
    match other_key(table, own) {
        Some(key) => match other_key_path(alloc, prefix, key) {
            Ok(path) => Err(DraftFault::Field(Text::from_string(path))),
            Err(_) => Err(DraftFault::Memory),
        },
        None => Ok(read),
    }
}
