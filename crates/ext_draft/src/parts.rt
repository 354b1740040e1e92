ghost use Rattle.std.specs.Prelude.{◌≡◌, Bool, option_map};
ghost use Rattle.ext_draft.specs.Entries.{item_part, words_part, optional_in, flags_in};

use crate::draft::{DraftConsume, DraftProduce, Flags};
use crate::entry::Entry;
use crate::fault::DraftFault;
use crate::faults::{wrong_entry, wrong_entry_name};
use crate::names::is_name;
use crate::prefix::Prefix;
use item_types::Text;
use std::alloc::Global;
use toml::Value;

/// The item of an entry of `consumes` or `produces`, and the words that follow it.
fn parts(text: &str) -> (&str, Option<&str>)
    ensures item { result.0.now ≡ item_part text.now }
    ensures words { option_map (λ words. words.now) result.1 ≡ words_part text.now }
{
    match text.split_once(' ') {
        Some((item, words)) => (item, Some(words)),
        None => (text, None),
    }
}

fn optional_of(words: Option<&str>) -> Option<bool>
    ensures { result ≡ optional_in (option_map (λ words. words.now) words.entry) }
{
    match words {
        Some(words) => {
            if words == "optional" {
                Some(true)
            } else {
                None
            }
        }
        None => Some(false),
    }
}

fn flags(weak: bool, overridable: bool) -> Option<Flags>
    ensures { result ≡ Some (record { weak = weak; overridable = overridable }) }
{
    Some(Flags { weak, overridable })
}

fn flags_of(words: Option<&str>) -> Option<Flags>
    ensures { result ≡ flags_in (option_map (λ words. words.now) words.entry) }
{
    match words {
        Some(words) => {
            if words == "weak" {
                flags(true, false)
            } else if words == "overridable" {
                flags(false, true)
            } else if words == "weak overridable" {
                flags(true, true)
            } else {
                None
            }
        }
        None => flags(false, false),
    }
}

impl Entry for DraftConsume {
    ghost use Rattle.ext_draft.specs.FirstWalk.{consume};

    ghost reads = { consume };

    fn read(
        alloc: Global,
        prefix: &Prefix<'_>,
        key: &str,
        index: usize,
        value: &Value,
    ) -> Result<DraftConsume, DraftFault> {
        let text = match value.as_str() {
            Some(text) => text,
            None => return wrong_entry(alloc, prefix, key, index),
        };
        let (item, words) = parts(text);
        let optional = match optional_of(words) {
            Some(optional) => optional,
            None => return wrong_entry(alloc, prefix, key, index),
        };
        if !is_name(item) {
            return wrong_entry_name(alloc, prefix, key, index);
        }
        let item = Text::of(alloc, item)?;
        Ok(DraftConsume { item, optional })
    }
}

impl Entry for DraftProduce {
    ghost use Rattle.ext_draft.specs.FirstWalk.{produce};

    ghost reads = { produce };

    fn read(
        alloc: Global,
        prefix: &Prefix<'_>,
        key: &str,
        index: usize,
        value: &Value,
    ) -> Result<DraftProduce, DraftFault> {
        let text = match value.as_str() {
            Some(text) => text,
            None => return wrong_entry(alloc, prefix, key, index),
        };
        let (item, words) = parts(text);
        let flags = match flags_of(words) {
            Some(flags) => flags,
            None => return wrong_entry(alloc, prefix, key, index),
        };
        if !is_name(item) {
            return wrong_entry_name(alloc, prefix, key, index);
        }
        let item = Text::of(alloc, item)?;
        Ok(DraftProduce { item, flags })
    }
}

impl Entry for Text {
    ghost use Rattle.ext_draft.specs.FirstWalk.{final};

    ghost reads = { final };

    fn read(
        alloc: Global,
        prefix: &Prefix<'_>,
        key: &str,
        index: usize,
        value: &Value,
    ) -> Result<Text, DraftFault> {
        match value.as_str() {
            Some(text) => Ok(Text::of(alloc, text)?),
            None => wrong_entry(alloc, prefix, key, index),
        }
    }
}
