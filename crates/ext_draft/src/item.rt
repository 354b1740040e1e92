ghost use Rattle.std.specs.Prelude.{◌≡◌, ◌⊎◌, ◌++◌, Err, codes};
ghost use Rattle.toml.specs.Data.{get_member};
ghost use Rattle.toml.specs.View.{table_view};
ghost use Rattle.ext_draft.specs.Places.{shown};
ghost use Rattle.ext_draft.specs.Declarations.{item_in, key_refused, kind_of};

use crate::entry::Entry;
use crate::fault::DraftFault;
use crate::faults::{wrong_entry, wrong_field};
use crate::prefix::Prefix;
use crate::table::{name_at, without_others};
use item_types::{ItemDecl, ItemKind};
use std::alloc::Global;
use toml::{Table, Value};
use toml_keys::{text_at, value_at};

/// A kind whose items have no `key`.
fn without_key(
    alloc: Global,
    prefix: &Prefix<'_>,
    table: &Table,
    kind: ItemKind,
) -> Result<ItemKind, DraftFault>
    ensures { (result ≡ Err DraftFault.Memory) ⊎ (result ≡ key_refused (shown prefix.now ++ codes "key") (get_member (codes "key") (table_view table.now)) kind) }
{
    match value_at(table, "key") {
        Some(_) => wrong_field(alloc, prefix, "key"),
        None => Ok(kind),
    }
}

fn kind_of(
    alloc: Global,
    prefix: &Prefix<'_>,
    table: &Table,
    word: &str,
) -> Result<ItemKind, DraftFault>
    ensures { (result ≡ Err DraftFault.Memory) ⊎ (result ≡ kind_of (shown prefix.now) (table_view table.now) word.now) }
{
    if word == "simple" {
        without_key(alloc, prefix, table, ItemKind::Simple)
    } else if word == "multi" {
        without_key(alloc, prefix, table, ItemKind::Multi)
    } else if word == "ordered" {
        let by = name_at(alloc, prefix, table, "key")?;
        Ok(ItemKind::Ordered(by))
    } else if word == "empty" {
        without_key(alloc, prefix, table, ItemKind::Empty)
    } else {
        wrong_field(alloc, prefix, "kind")
    }
}

/// An item.
#[tactic(auto, unfolding(toml_keys::specs::Documents::texts_of))]
fn item_in(alloc: Global, prefix: &Prefix<'_>, table: &Table) -> Result<ItemDecl, DraftFault>
    ensures { (result ≡ Err DraftFault.Memory) ⊎ (result ≡ item_in (shown prefix.now) (table_view table.now)) }
{
    let name = name_at(alloc, prefix, table, "name")?;
    let word = match text_at(table, "kind") {
        Some(word) => word,
        None => return wrong_field(alloc, prefix, "kind"),
    };
    let kind = kind_of(alloc, prefix, table, word)?;
    let item = ItemDecl { name, kind };
    without_others(alloc, &["name", "kind", "key"], prefix, table, item)
}

impl Entry for ItemDecl {
    ghost use Rattle.ext_draft.specs.Declarations.{item_in};
    ghost use Rattle.ext_draft.specs.Reading.{table_entry};

    ghost reads = { table_entry item_in };

    fn read(
        alloc: Global,
        prefix: &Prefix<'_>,
        key: &str,
        index: usize,
        value: &Value,
    ) -> Result<ItemDecl, DraftFault> {
        match value.as_table() {
            Some(table) => {
                let prefix = Prefix::Entry(prefix, key, index);
                item_in(alloc, &prefix, table)
            }
            None => wrong_entry(alloc, prefix, key, index),
        }
    }
}
