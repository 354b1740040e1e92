ghost use Rattle.std.specs.Prelude.{◌≡◌, List, ℕ, OnOk, OnErr};
ghost use Rattle.name_index.specs.Indexed.{noted_at, left_behind, place_in};

use item_types::Memory;
use std::collections::HashMap;

/// Notes a name's place, unless the name has one.
pub fn note<'a>(
    places: &mut HashMap<&'a str, usize>,
    name: &'a str,
    place: usize,
) -> Result<(), Memory>
    ensures ok { OnOk result ((text : List ℕ) → place_in places.new text ≡ noted_at name.now place (place_in places.old text) text) }
    ensures err { OnErr result ((text : List ℕ) → place_in places.new text ≡ place_in places.old text) }
{
    match places.entry(name) {
        Ok(found) => {
            found.or_insert(place);
            Ok(())
        }
        Err(_) => Err(Memory),
    }
}

/// Takes a name back, if that is its place.
pub fn take_back(places: &mut HashMap<&str, usize>, name: &str, place: usize)
    ensures { (text : List ℕ) → place_in places.new text ≡ left_behind name.now place (place_in places.old text) text }
{
    if let Some(found) = places.get(name).copied() {
        if found == place {
            places.remove(name);
        }
    }
}
