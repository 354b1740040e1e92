ghost use Rattle.std.specs.Prelude.{◌≡◌, ◌∷◌, [], ◌++◌, not, IfOk};
ghost use Rattle.std.specs.List.{list_all};
ghost use Rattle.ext_parser.specs.Declarations.{is_active, keys_on};
ghost use Rattle.name_index.specs.Place.{has};

use ext_draft::{DraftStep, Setting};
use item_types::{Memory, Text};
use name_index::Index;
use std::alloc::Global;

/// The keys of `config` that are true.
#[tactic(auto, using(crate::proofs::Keys::keys_on_cons))]
pub fn keys_on<'a>(alloc: Global, config: &'a [Setting]) -> Result<Index<'a>, Memory>
    ensures { IfOk result (λ keys. keys ≡ keys_on config.now) }
{
    let mut keys = Index::new(alloc);
    for setting in config {
        keys = with_key(setting, keys)?;
    }
    Ok(keys)
}

/// The keys, and this one if it is true.
fn with_key<'a>(setting: &'a Setting, keys: Index<'a>) -> Result<Index<'a>, Memory>
    ensures { IfOk result (λ all. all ≡ keys.entry ++ keys_on (setting.now ∷ [])) }
{
    if setting.on {
        keys.with(setting.name.as_str())
    } else {
        Ok(keys)
    }
}

fn all_on(on: &Index, keys: &[Text]) -> bool
    ensures { result ≡ list_all (has on.now) keys.now }
{
    for key in keys {
        if on.place(key.as_str()).is_none() {
            return false;
        }
    }
    true
}

fn none_on(on: &Index, keys: &[Text]) -> bool
    ensures { result ≡ list_all (λ key. not (has on.now key)) keys.now }
{
    for key in keys {
        if on.place(key.as_str()).is_some() {
            return false;
        }
    }
    true
}

/// Whether each key of `only_if` is among the true ones, and none of `only_if_not`.
pub fn is_active(on: &Index, step: &DraftStep) -> bool
    ensures { result ≡ is_active on.now step.now }
{
    all_on(on, step.only_if.as_slice()) && none_on(on, step.only_if_not.as_slice())
}
