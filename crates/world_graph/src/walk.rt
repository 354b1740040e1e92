ghost use Rattle.std.specs.Prelude.{◌≡◌, ◌<◌, [], length, map, slice_index_or, IfOk};
ghost use Rattle.startup_rules.specs.Visits.{Visits, refs_of};
ghost use Rattle.startup_rules.specs.Worlds as worlds;

use crate::fresh::fresh;
use startup_rules::{Object, Slot};
use std::alloc::{AllocError, Global};

/// The parts of the object of that number.
fn parts_at(objects: &[Object], place: usize) -> &[Slot]
    requires { place < length objects.now }
    ensures { result.now ≡ slice_index_or (map worlds.parts objects.now) place [] }
{
    match &objects[place] {
        Object::List(parts) => parts.as_slice(),
        Object::Bean(_, parts) => parts.as_slice(),
        Object::Recorder(_, parts) => parts.as_slice(),
    }
}

/// The object of each number, where these slots are visited in turn.
pub fn visited(alloc: Global, objects: &[Object], roots: &[Slot]) -> Result<Vec<u32>, AllocError>
    ensures { IfOk result (λ order. Visits (map worlds.parts objects.now) [] (refs_of (length objects.now) roots.now) order.items) }
{
    let mut seen = vec![in alloc; false; objects.len()]?;
    let mut order = Vec::new(alloc);
    let mut rest_of: Vec<&[Slot]> = Vec::new(alloc);
    rest_of.push(roots)?;
    while let Some(slots) = rest_of.pop() {
        if let Some((first, others)) = slots.split_first() {
            rest_of.push(others)?;
            if let Some(object) = fresh(first, seen.as_slice()) {
                let place = object as usize;
                seen[place] = true;
                order.push(object)?;
                rest_of.push(parts_at(objects, place))?;
            }
        }
    }
    Ok(order)
}
