ghost use Rattle.std.specs.Prelude.{◌≡◌, ◌⊎◌, ◌++◌, [], map, Err};
ghost use Rattle.ext_draft.specs.Paths.{nth};
ghost use Rattle.ext_parser.specs.SecondWalk.{all_fresh, all_known, fresh, known_at};

use crate::fault::ProjectFault;
use crate::named::Named;
use ext_draft::{nth, path_of};
use item_types::{Seq, Text};
use name_index::Index;
use std::alloc::Global;

/// That the text at entry `index` of the list at `path` is none of those before it.
fn fresh_at(
    alloc: Global,
    before: &Index,
    path: &str,
    index: usize,
    text: &str,
) -> Result<(), ProjectFault>
    ensures { (result ≡ Err ProjectFault.Memory) ⊎ (result ≡ fresh (nth path.now index) before.now text.now) }
{
    if before.place(text).is_some() {
        let path = nth(alloc, path, index)?;
        return Err(ProjectFault::Repeated(Text::from_string(path)));
    }
    Ok(())
}

/// That the text at entry `index` of the list at `path` is none of those before it, and one of all.
fn known_at(
    alloc: Global,
    all: &Index,
    before: &Index,
    path: &str,
    index: usize,
    text: &str,
) -> Result<(), ProjectFault>
    ensures { (result ≡ Err ProjectFault.Memory) ⊎ (result ≡ known_at all.now (nth path.now index) before.now text.now) }
{
    fresh_at(alloc, before, path, index, text)?;
    if all.place(text).is_some() {
        return Ok(());
    }
    let path = nth(alloc, path, index)?;
    Err(ProjectFault::Unknown(Text::from_string(path)))
}

/// That no text of the list at `path` stands there twice.
fn all_fresh(alloc: Global, path: &str, texts: &[Text]) -> Result<(), ProjectFault>
    ensures { (result ≡ Err ProjectFault.Memory) ⊎ (result ≡ all_fresh path.now 0 [] texts.now) }
{
    let mut before = Index::new(alloc);
    for (index, text) in texts.iter().enumerate() {
        match fresh_at(alloc, &before, path, index, text.as_str()) {
            Ok(()) => before = before.with(text.as_str())?,
            Err(fault) => return Err(fault),
        }
    }
    Ok(())
}

/// That no text at a table's key stands there twice.
pub fn all_fresh_at(
    alloc: Global,
    prefix: &str,
    key: &str,
    texts: &Seq<Text>,
) -> Result<(), ProjectFault>
    ensures { (result ≡ Err ProjectFault.Memory) ⊎ (result ≡ all_fresh (prefix.now ++ key.now) 0 [] texts.now) }
{
    let path = path_of(alloc, prefix, key)?;
    all_fresh(alloc, path.as_str(), texts.as_slice())
}

/// That each entry of the list at `path` names one of all, and none of them twice.
fn all_known<M: Named>(
    alloc: Global,
    all: &Index,
    path: &str,
    entries: &[M],
) -> Result<(), ProjectFault>
    ensures { (result ≡ Err ProjectFault.Memory) ⊎ (result ≡ all_known all.now path.now 0 [] (map M.named entries.now)) }
{
    let mut before = Index::new(alloc);
    for (index, entry) in entries.iter().enumerate() {
        match known_at(alloc, all, &before, path, index, entry.named()) {
            Ok(()) => before = before.with(entry.named())?,
            Err(fault) => return Err(fault),
        }
    }
    Ok(())
}

/// That each entry at a table's key names one of all, and none of them twice.
pub fn all_known_at<M: Named>(
    alloc: Global,
    all: &Index,
    prefix: &str,
    key: &str,
    entries: &Seq<M>,
) -> Result<(), ProjectFault>
    ensures { (result ≡ Err ProjectFault.Memory) ⊎ (result ≡ all_known all.now (prefix.now ++ key.now) 0 [] (map M.named entries.now)) }
{
    let path = path_of(alloc, prefix, key)?;
    all_known(alloc, all, path.as_str(), entries.as_slice())
}

/// That each text at a table's key is one of all, and none stands there twice.
pub fn texts_known_at(
    alloc: Global,
    all: &Index,
    prefix: &str,
    key: &str,
    texts: &Seq<Text>,
) -> Result<(), ProjectFault>
    ensures { (result ≡ Err ProjectFault.Memory) ⊎ (result ≡ all_known all.now (prefix.now ++ key.now) 0 [] texts.now) }
{
    all_known_at(alloc, all, prefix, key, texts)
}
