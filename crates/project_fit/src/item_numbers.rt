ghost use Rattle.std.specs.Prelude.{◌≡◌, ◌==◌, ◌<◌, ℕ, [], not, length, map, nat_lt};
ghost use Rattle.std.specs.List.{list_all, list_any};
ghost use Rattle.project_fit.specs.Fits.{no_number_twice, numbers_fit};

use item_types::{Consume, Produce};

/// What names an item by its number.
pub trait Numbered: Drop {
    // the item's number
    ghost item: { Self → ℕ };

    /// The item's number. It takes no memory.
    fn item(&self) -> u32
        ensures { result ≡ item self.now };
}

impl Numbered for Consume {
    ghost item = { λ c. c.item };

    fn item(&self) -> u32 {
        self.item
    }
}

impl Numbered for Produce {
    ghost item = { λ p. p.item };

    fn item(&self) -> u32 {
        self.item
    }
}

impl Numbered for u32 {
    ghost item = { λ n. n };

    fn item(&self) -> u32 {
        *self
    }
}

fn all_below<I: Numbered>(size: usize, entries: &[I]) -> bool
    ensures { result ≡ list_all (λ n. nat_lt n size) (map I.item entries.now) }
{
    for entry in entries {
        if size <= entry.item() as usize {
            return false;
        }
    }
    true
}

/// Whether one of the entries has that number.
fn has_number<I: Numbered>(entries: &[I], number: u32) -> bool
    ensures { result ≡ list_any (λ m. m == number) (map I.item entries.now) }
{
    for entry in entries {
        if entry.item() == number {
            return true;
        }
    }
    false
}

fn no_number_twice<I: Numbered>(entries: &[I]) -> bool
    ensures { result ≡ no_number_twice [] (map I.item entries.now) }
{
    for (index, entry) in entries.iter().enumerate() {
        if has_number(&entries[..index], entry.item()) {
            return false;
        }
    }
    true
}

/// Whether at most so many items are named, each below that size and none twice. A number is
/// compared with those before it, which the limits keep few.
pub fn numbers_fit<I: Numbered>(size: usize, limit: usize, entries: &[I]) -> bool
    ensures { result ≡ numbers_fit size limit (map I.item entries.now) }
{
    entries.len() <= limit && all_below(size, entries) && no_number_twice(entries)
}
