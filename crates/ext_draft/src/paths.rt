ghost use Rattle.std.specs.Prelude.{◌≡◌, ◌++◌, IfOk, string_bytes};
ghost use Rattle.std.specs.List.{list_all};
ghost use Rattle.ext_draft.specs.Paths.{nth, inside, is_bare, is_bare_part, key_text};
ghost use Rattle.ext_draft.specs.Places.{shown};

use crate::names::is_name_part;
use crate::prefix::{Prefix, prefix_text};
use item_types::{Memory, push_quoted};
use std::alloc::Global;

/// The path of entry `index` of the list at `path`.
pub fn nth(alloc: Global, path: &str, index: usize) -> Result<String, Memory>
    ensures { IfOk result (λ s. string_bytes s ≡ nth path.now index) }
{
    let number = index.to_string(alloc)?;
    let mut out = String::from_str(alloc, path)?;
    out.push_str("[")?;
    out.push_str(number.as_str())?;
    out.push_str("]")?;
    Ok(out)
}

/// What the paths of the keys of a table begin with, which is entry `index` of the list at `path`.
pub fn inside_nth(alloc: Global, path: &str, index: usize) -> Result<String, Memory>
    ensures { IfOk result (λ s. string_bytes s ≡ inside (nth path.now index)) }
{
    let mut out = nth(alloc, path, index)?;
    out.push_str(".")?;
    Ok(out)
}

/// The path of a key after its table's prefix.
pub fn path_of(alloc: Global, prefix: &str, key: &str) -> Result<String, Memory>
    ensures { IfOk result (λ s. string_bytes s ≡ prefix.now ++ key.now) }
{
    let mut out = String::from_str(alloc, prefix)?;
    out.push_str(key)?;
    Ok(out)
}

fn is_bare_part(c: u8) -> bool
    ensures { result ≡ is_bare_part c }
{
    is_name_part(c) || c == b'-'
}

fn has_bare_parts(key: &str) -> bool
    ensures { result ≡ list_all is_bare_part key.now }
{
    key.as_bytes().iter().all(|c| is_bare_part(*c))
}

fn is_bare(key: &str) -> bool
    ensures { result ≡ is_bare key.now }
{
    0 < key.len() && has_bare_parts(key)
}

/// The path of a key.
pub fn key_path(alloc: Global, prefix: &Prefix<'_>, key: &str) -> Result<String, Memory>
    ensures { IfOk result (λ s. string_bytes s ≡ shown prefix.now ++ key.now) }
{
    let mut out = prefix_text(alloc, prefix)?;
    out.push_str(key)?;
    Ok(out)
}

/// The path of an entry of the list at a key.
pub fn entry_path(
    alloc: Global,
    prefix: &Prefix<'_>,
    key: &str,
    index: usize,
) -> Result<String, Memory>
    ensures { IfOk result (λ s. string_bytes s ≡ nth (shown prefix.now ++ key.now) index) }
{
    let list = key_path(alloc, prefix, key)?;
    nth(alloc, list.as_str(), index)
}

/// The path of a key that may be no name.
pub fn other_key_path(alloc: Global, prefix: &Prefix<'_>, key: &str) -> Result<String, Memory>
    ensures { IfOk result (λ s. string_bytes s ≡ shown prefix.now ++ key_text key.now) }
{
    let mut out = prefix_text(alloc, prefix)?;
    if is_bare(key) {
        out.push_str(key)?;
    } else {
        push_quoted(key, &mut out)?;
    }
    Ok(out)
}
