ghost use Rattle.std.specs.Prelude.{◌≡◌, ◌⊎◌, ◌++◌, Err, codes};
ghost use Rattle.toml.specs.Data.{get_member};
ghost use Rattle.toml.specs.View.{table_view};
ghost use Rattle.ext_draft.specs.Places.{shown};
ghost use Rattle.ext_draft.specs.Reading.{body_at};

use crate::fault::DraftFault;
use crate::faults::{too_long, wrong_field};
use crate::prefix::Prefix;
use item_types::Text;
use std::alloc::Global;
use toml::Table;
use toml_keys::value_at;

/// The text at the key `body`, of at most 65,535 bytes; the empty text where there is none.
pub fn body_at(alloc: Global, prefix: &Prefix<'_>, table: &Table) -> Result<Text, DraftFault>
    ensures { (result ≡ Err DraftFault.Memory) ⊎ (result ≡ body_at (shown prefix.now ++ codes "body") (get_member (codes "body") (table_view table.now))) }
{
    let value = match value_at(table, "body") {
        Some(value) => value,
        None => return Ok(Text::from_string(String::new(alloc))),
    };
    let text = match value.as_str() {
        Some(text) => text,
        None => return wrong_field(alloc, prefix, "body"),
    };
    if 65_535 < text.len() {
        return too_long(alloc, prefix, "body", text.len());
    }
    Ok(Text::of(alloc, text)?)
}
