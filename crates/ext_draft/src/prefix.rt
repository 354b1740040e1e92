ghost use Rattle.std.specs.Prelude.{◌≡◌, IfOk, string_bytes};
ghost use Rattle.ext_draft.specs.Places.{shown};

use crate::paths::inside_nth;
use item_types::Memory;
use std::alloc::Global;

/// What the paths of a table's keys begin with. A text is made of it only where a fault is found.
#[derive(Clone, Copy)]
pub enum Prefix<'a> {
    /// The file's own table.
    File,
    /// The table that is an entry, from 0, of the list at a key.
    Entry(&'a Prefix<'a>, &'a str, usize),
}

/// The prefix as a text.
pub fn prefix_text(alloc: Global, prefix: &Prefix<'_>) -> Result<String, Memory>
    ensures { IfOk result (λ s. string_bytes s ≡ shown prefix.now) }
{
    match prefix {
        Prefix::File => Ok(String::new(alloc)),
        Prefix::Entry(outer, key, index) => {
            let mut list = prefix_text(alloc, outer)?;
            list.push_str(key)?;
            inside_nth(alloc, list.as_str(), *index)
        }
    }
}
