// What is put into one object.

ghost use Rattle.std.specs.Prelude.{◌≡◌, set, OnOk, OnErr};
ghost use Rattle.startup_rules.specs.Worlds as worlds;

use item_types::{Memory, Seq};
use startup_rules::{Object, Slot};
use std::alloc::Global;
use std::mem;

/// The slot stands at that place from now on, where there is such a place.
#[tactic(auto, using(crate::proofs::Places::set_past))]
pub fn set_slot(alloc: Global, slots: &mut Seq<Slot>, place: usize, slot: Slot)
    ensures { slots.new ≡ set slots.old place slot }
{
    if place < slots.len() {
        let mut items = mem::replace(slots, Seq::new(alloc)).into_vec();
        items[place] = slot;
        *slots = Seq::from_vec(items);
    }
}

/// The part of the object at that place is the slot from now on, where there is such a part.
pub fn set_part(alloc: Global, object: &mut Object, place: usize, slot: Slot)
    ensures { object.new ≡ worlds.with_part place slot object.old }
{
    match object {
        Object::List(parts) => set_slot(alloc, parts, place, slot),
        Object::Bean(_, parts) => set_slot(alloc, parts, place, slot),
        Object::Recorder(_, parts) => set_slot(alloc, parts, place, slot),
    }
}

/// A list has one more element; another object stays.
pub fn add_item(object: &mut Object, slot: Slot) -> Result<(), Memory>
    ensures ok { OnOk result (object.new ≡ worlds.with_more slot object.old) }
    ensures err { OnErr result (object.new ≡ object.old) }
{
    match object {
        Object::List(items) => items.push(slot),
        _ => Ok(()),
    }
}

/// The elements of a list, or the fields of a bean or recorder.
pub fn parts(object: &Object) -> &[Slot]
    ensures { result.now ≡ worlds.parts object.now }
{
    match object {
        Object::List(parts) => parts.as_slice(),
        Object::Bean(_, parts) => parts.as_slice(),
        Object::Recorder(_, parts) => parts.as_slice(),
    }
}
