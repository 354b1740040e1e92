ghost use Rattle.std.specs.Prelude.{◌≡◌, ◌<◌, ◌^◌, length, map, IfOk, ℕ};
ghost use Rattle.ext_parser.specs.Declarations.{number};

use crate::named::Named;
use ext_draft::{DraftConsume, DraftProduce};
use item_types::{Consume, Memory, Produce, Seq, Text};
use name_index::Index;
use std::alloc::Global;

/// An entry of a list that names an item, and what it is once the item's number is known.
pub trait Mention<F: Drop>: Drop {
    // the entry with the item's number
    ghost with_number: { ℕ → Self → F };

    /// The entry with the item's number. It takes no memory.
    fn with_number(&self, number: u32) -> F
        ensures { result ≡ with_number number self.now };
}

impl Mention<Consume> for DraftConsume {
    ghost with_number = { λ n c. record { item = n; optional = c.optional } };

    fn with_number(&self, number: u32) -> Consume {
        Consume {
            item: number,
            optional: self.optional,
        }
    }
}

impl Mention<Produce> for DraftProduce {
    ghost with_number = { λ n p. record { item = n; weak = p.flags.weak; overridable = p.flags.overridable } };

    fn with_number(&self, number: u32) -> Produce {
        Produce {
            item: number,
            weak: self.flags.weak,
            overridable: self.flags.overridable,
        }
    }
}

impl Mention<u32> for Text {
    ghost with_number = { λ n _. n };

    fn with_number(&self, number: u32) -> u32 {
        number
    }
}

/// The number of the item of that name; 0 where there is none.
fn number_of(items: &Index, name: &str) -> u32
    requires { length items.now < 2 ^ 32 }
    ensures { result ≡ number items.now name.now }
{
    match items.place(name) {
        Some(place) => place as u32,
        None => 0,
    }
}

/// The entries, with their items' numbers.
pub fn numbered<F: Drop, M: Named + Mention<F>>(
    alloc: Global,
    items: &Index,
    entries: &[M],
) -> Result<Seq<F>, Memory>
    requires { length items.now < 2 ^ 32 }
    ensures { IfOk result (λ all. all ≡ map (λ m. M.with_number (number items.now (M.named m)) m) entries.now) }
{
    let mut found = Seq::new(alloc);
    for entry in entries {
        let number = number_of(items, entry.named());
        found.push(entry.with_number(number))?;
    }
    Ok(found)
}
