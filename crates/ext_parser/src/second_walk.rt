ghost use Rattle.std.specs.Prelude.{◌≡◌, ◌⊎◌, ◌++◌, [], map, Err, Ok, IfOk, List, ℕ, codes};
ghost use Rattle.ext_draft.specs.Paths.{nth, inside};
ghost use Rattle.ext_parser.specs.SecondWalk.{Checked, bean_right, conditions_right, extension_right, extensions_right, file_right, fresh, item_names, items_of, item_right, known_of, method_right, names_with, nothing_before, recorder_right, row, step_right, then};
ghost use Rattle.ext_parser.specs.declared.known.Known.{Known};

use crate::fault::ProjectFault;
use crate::known::Known;
use crate::lists::{all_fresh_at, all_known_at, texts_known_at};
use crate::named::Named;
use ext_draft::{
    Draft, DraftExtension, DraftMethod, DraftRecorder, DraftStep, Setting, inside_nth, path_of,
};
use item_types::{BeanDecl, ItemDecl, Memory, Seq, Text};
use name_index::Index;
use std::alloc::Global;

/// A thing with a name that stands in a row of its kind.
pub trait Declared: Drop {
    // what has to be right in it
    ghost inner: { Known → List ℕ → Self → Checked };

    /// That all in it is right, its own name aside.
    fn check(&self, alloc: Global, known: &Known<'_>, prefix: &str) -> Result<(), ProjectFault>
        ensures { (result ≡ Err ProjectFault.Memory) ⊎ (result ≡ inner known.now prefix.now self.now) };
}

impl Declared for ItemDecl {
    ghost inner = { λ _. item_right };

    fn check(&self, alloc: Global, known: &Known<'_>, prefix: &str) -> Result<(), ProjectFault> {
        let _ = alloc;
        let _ = known;
        let _ = prefix;
        Ok(())
    }
}

impl Declared for BeanDecl {
    ghost inner = { λ _. bean_right };

    fn check(&self, alloc: Global, known: &Known<'_>, prefix: &str) -> Result<(), ProjectFault> {
        let _ = known;
        all_fresh_at(alloc, prefix, "fields", &self.fields)
    }
}

impl Declared for DraftMethod {
    ghost inner = { λ _. method_right };

    fn check(&self, alloc: Global, known: &Known<'_>, prefix: &str) -> Result<(), ProjectFault> {
        let _ = known;
        all_fresh_at(alloc, prefix, "params", &self.params)
    }
}

impl Declared for DraftRecorder {
    ghost inner = { λ _. recorder_right };

    fn check(&self, alloc: Global, known: &Known<'_>, prefix: &str) -> Result<(), ProjectFault> {
        all_fresh_at(alloc, prefix, "fields", &self.fields)?;
        all_fresh_at(alloc, prefix, "statics", &self.statics)?;
        own_row(alloc, known, prefix, "methods", &self.methods)
    }
}

impl Declared for DraftStep {
    ghost inner = { step_right };

    fn check(&self, alloc: Global, known: &Known<'_>, prefix: &str) -> Result<(), ProjectFault> {
        all_known_at(alloc, &known.items, prefix, "consumes", &self.consumes)?;
        all_known_at(alloc, &known.items, prefix, "produces", &self.produces)?;
        conditions_right(alloc, known, prefix, self)
    }
}

/// That the conditions of a step are right.
#[tactic(auto, unfolding(crate::specs::SecondWalk::conditions_right))]
fn conditions_right(
    alloc: Global,
    known: &Known<'_>,
    prefix: &str,
    step: &DraftStep,
) -> Result<(), ProjectFault>
    ensures { (result ≡ Err ProjectFault.Memory) ⊎ (result ≡ conditions_right known.now prefix.now step.now) }
{
    let config = &known.config;
    texts_known_at(alloc, config, prefix, "only_if", &step.only_if)?;
    texts_known_at(alloc, config, prefix, "only_if_not", &step.only_if_not)
}

/// That a name at a table's key `name` is none of those before it.
fn fresh_name(alloc: Global, prefix: &str, before: &Index, name: &str) -> Result<(), ProjectFault>
    ensures { (result ≡ Err ProjectFault.Memory) ⊎ (result ≡ fresh (prefix.now ++ codes "name") before.now name.now) }
{
    if before.place(name).is_some() {
        let path = path_of(alloc, prefix, "name")?;
        return Err(ProjectFault::Repeated(Text::from_string(path)));
    }
    Ok(())
}

/// The names before the row at `path`, and those of the row.
fn row<'a, D: Named + Declared>(
    alloc: Global,
    known: &Known<'_>,
    path: &str,
    things: &'a [D],
    mut before: Index<'a>,
) -> Result<Index<'a>, ProjectFault>
    ensures { (result ≡ Err ProjectFault.Memory) ⊎ (result ≡ then (row D.named (D.inner known.now) path.now 0 before.entry things.now) (λ _. Ok (before.entry ++ map D.named things.now))) }
{
    for (index, thing) in things.iter().enumerate() {
        let prefix = inside_nth(alloc, path, index)?;
        match fresh_name(alloc, prefix.as_str(), &before, thing.named()) {
            Ok(()) => {}
            Err(fault) => return Err(fault),
        }
        match thing.check(alloc, known, prefix.as_str()) {
            Ok(()) => before = before.with(thing.named())?,
            Err(fault) => return Err(fault),
        }
    }
    Ok(before)
}

/// The names before the row at a table's key, and those of the row.
fn row_at<'a, D: Named + Declared>(
    alloc: Global,
    known: &Known<'_>,
    prefix: &str,
    key: &str,
    things: &'a Seq<D>,
    before: Index<'a>,
) -> Result<Index<'a>, ProjectFault>
    ensures { (result ≡ Err ProjectFault.Memory) ⊎ (result ≡ then (row D.named (D.inner known.now) (prefix.now ++ key.now) 0 before.entry things.now) (λ _. Ok (before.entry ++ map D.named things.now))) }
{
    let path = path_of(alloc, prefix, key)?;
    row(alloc, known, path.as_str(), things.as_slice(), before)
}

/// That the row at a table's key is right, whose names may stand elsewhere too.
fn own_row<D: Named + Declared>(
    alloc: Global,
    known: &Known<'_>,
    prefix: &str,
    key: &str,
    things: &Seq<D>,
) -> Result<(), ProjectFault>
    ensures { (result ≡ Err ProjectFault.Memory) ⊎ (result ≡ row D.named (D.inner known.now) (prefix.now ++ key.now) 0 [] things.now) }
{
    match row_at(alloc, known, prefix, key, things, Index::new(alloc)) {
        Ok(_) => Ok(()),
        Err(fault) => Err(fault),
    }
}

/// The names of what was walked over so far.
#[derive(Drop)]
pub struct Before<'a> {
    pub extensions: Index<'a>,
    pub items: Index<'a>,
    pub beans: Index<'a>,
    pub recorders: Index<'a>,
}

/// The names before an extension, and those of the extension.
#[tactic(auto, unfolding(crate::specs::SecondWalk::extension_right))]
fn with_extension<'a>(
    alloc: Global,
    known: &Known<'_>,
    prefix: &str,
    extension: &'a DraftExtension,
    before: Before<'a>,
) -> Result<Before<'a>, ProjectFault>
    ensures { (result ≡ Err ProjectFault.Memory) ⊎ (result ≡ then (extension_right known.now prefix.now before.entry extension.now) (λ _. Ok (names_with before.entry extension.now))) }
{
    let Before {
        extensions,
        items,
        beans,
        recorders,
    } = before;
    fresh_name(alloc, prefix, &extensions, extension.name.as_str())?;
    let items = row_at(alloc, known, prefix, "items", &extension.items, items)?;
    let beans = row_at(alloc, known, prefix, "beans", &extension.beans, beans)?;
    let recorders = row_at(
        alloc,
        known,
        prefix,
        "recorders",
        &extension.recorders,
        recorders,
    )?;
    own_row(alloc, known, prefix, "steps", &extension.steps)?;
    let extensions = extensions.with(extension.name.as_str())?;
    Ok(Before {
        extensions,
        items,
        beans,
        recorders,
    })
}

/// That all extensions are right.
fn extensions_right(
    alloc: Global,
    known: &Known<'_>,
    extensions: &[DraftExtension],
) -> Result<(), ProjectFault>
    ensures { (result ≡ Err ProjectFault.Memory) ⊎ (result ≡ extensions_right known.now 0 nothing_before extensions.now) }
{
    let mut before = Before {
        extensions: Index::new(alloc),
        items: Index::new(alloc),
        beans: Index::new(alloc),
        recorders: Index::new(alloc),
    };
    for (index, extension) in extensions.iter().enumerate() {
        let prefix = inside_nth(alloc, "extensions", index)?;
        match with_extension(alloc, known, prefix.as_str(), extension, before) {
            Ok(more) => before = more,
            Err(fault) => return Err(fault),
        }
    }
    Ok(())
}

/// The names, and those of more items.
fn with_items<'a>(items: &'a [ItemDecl], mut names: Index<'a>) -> Result<Index<'a>, Memory>
    ensures { IfOk result (λ all. all ≡ names.entry ++ item_names items.now) }
{
    for item in items {
        names = names.with(item.name.as_str())?;
    }
    Ok(names)
}

/// The names of all items that the file declares, in the order of the file.
pub fn names_of_items<'a>(
    alloc: Global,
    extensions: &'a [DraftExtension],
) -> Result<Index<'a>, Memory>
    ensures { IfOk result (λ names. names ≡ item_names (items_of extensions.now)) }
{
    let mut names = Index::new(alloc);
    for extension in extensions {
        names = with_items(extension.items.as_slice(), names)?;
    }
    Ok(names)
}

/// The keys of `config`.
fn keys_of<'a>(alloc: Global, config: &'a [Setting]) -> Result<Index<'a>, Memory>
    ensures { IfOk result (λ keys. keys ≡ map (λ s. s.name) config.now) }
{
    let mut keys = Index::new(alloc);
    for setting in config {
        keys = keys.with(setting.name.as_str())?;
    }
    Ok(keys)
}

/// What the file's names may stand for.
fn known_of<'a>(alloc: Global, draft: &'a Draft) -> Result<Known<'a>, Memory>
    ensures { IfOk result (λ known. known ≡ known_of draft.now) }
{
    let items = names_of_items(alloc, draft.extensions.as_slice())?;
    let config = keys_of(alloc, draft.config.as_slice())?;
    Ok(Known { items, config })
}

/// The second walk over a file: nothing wrong, or the first name that is repeated or unknown.
pub fn second_walk(alloc: Global, draft: &Draft) -> Result<(), ProjectFault>
    ensures { (result ≡ Err ProjectFault.Memory) ⊎ (result ≡ file_right draft.now) }
{
    let known = known_of(alloc, draft)?;
    extensions_right(alloc, &known, draft.extensions.as_slice())?;
    texts_known_at(alloc, &known.items, "", "finals", &draft.finals)
}
