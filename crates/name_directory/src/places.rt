ghost use Rattle.std.specs.Prelude.{◌≡◌, List, ℕ, OnOk, IfOk, map};
ghost use Rattle.std.specs.HashMap.{get_by_text};
ghost use Rattle.name_index.specs.Indexed.{noted_at};
ghost use Rattle.name_directory.specs.Numbers.{HasPlaces};

use item_types::Memory;
use name_index::Named;
use std::alloc::Global;
use std::collections::HashMap;

/// Notes a name's place, unless the name has one.
fn note(
    alloc: Global,
    places: &mut HashMap<String, usize>,
    name: &str,
    place: usize,
) -> Result<(), Memory>
    ensures { OnOk result ((text : List ℕ) → get_by_text places.new text ≡ noted_at name.now place (get_by_text places.old text) text) }
{
    if places.get(name).is_some() {
        return Ok(());
    }
    let key = String::from_str(alloc, name)?;
    match places.insert(key, place) {
        Ok(_) => Ok(()),
        Err(_) => Err(Memory),
    }
}

/// The first place of each name of these things.
pub(crate) fn places_of<M: Named>(
    alloc: Global,
    things: &[M],
) -> Result<HashMap<String, usize>, Memory>
    ensures { IfOk result (λ places. HasPlaces places (map M.named things.now)) }
{
    let mut places = HashMap::new(alloc);
    for (index, thing) in things.iter().enumerate() {
        note(alloc, &mut places, thing.named(), index)?;
    }
    Ok(places)
}
