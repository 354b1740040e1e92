// New worlds and objects. These calls spend nothing.

ghost use Rattle.std.specs.Prelude.{◌≡◌, [], map, replicate, OnErr, IfOk};
ghost use Rattle.startup_rules.specs.Operations as rules;
ghost use Rattle.startup_rules.specs.Worlds as worlds;

use crate::world::World;
use item_types::{Memory, Names, RecorderDecl, Same, Seq, Text};
use startup_rules::{Object, Slot};
use std::alloc::Global;

impl World {
    /// The world without objects, with all statics null and nothing spent.
    ///
    /// # Errors
    /// `Memory` for want of memory.
    pub fn new(alloc: Global, names: &Names) -> Result<World, Memory>
        ensures { IfOk result (λ w. w ≡ worlds.opening names.now) }
    {
        let statics = opening_statics(alloc, names.recorders.as_slice())?;
        Ok(World::of_statics(alloc, statics))
    }

    /// A new list without elements: its number.
    ///
    /// # Errors
    /// `Memory` for want of memory: the world is as before.
    pub fn make_list(&mut self) -> Result<u32, Memory>
        ensures ok { IfOk result (λ o. worlds.entered worlds.new_list self.old ≡ (o, self.new)) }
        ensures err { OnErr result (self.new ≡ self.old) }
    {
        let items = Seq::new(self.alloc());
        enter(self, Object::List(items))
    }

    /// A new bean whose fields are null: its number.
    ///
    /// # Errors
    /// `Memory` for want of memory: the world is as before.
    pub fn make_bean(&mut self, names: &Names, bean: u32) -> Result<u32, Memory>
        ensures ok { IfOk result (λ o. worlds.entered (worlds.new_bean names.now bean) self.old ≡ (o, self.new)) }
        ensures err { OnErr result (self.new ≡ self.old) }
    {
        let fields = nulls(self.alloc(), names.fields_of(bean).len())?;
        enter(self, Object::Bean(bean, fields))
    }

    /// A new recorder object whose fields are null: its number.
    ///
    /// # Errors
    /// `Memory` for want of memory: the world is as before.
    pub fn make_recorder(&mut self, names: &Names, recorder: u32) -> Result<u32, Memory>
        ensures ok { IfOk result (λ o. worlds.entered (worlds.new_recorder names.now recorder) self.old ≡ (o, self.new)) }
        ensures err { OnErr result (self.new ≡ self.old) }
    {
        let fields = nulls(self.alloc(), names.recorder_fields(recorder).len())?;
        enter(self, Object::Recorder(recorder, fields))
    }

    /// The slot under the key; null where the key isn't there.
    ///
    /// # Errors
    /// `Memory` for want of memory.
    pub fn context_get(&self, key: &Text) -> Result<Slot, Memory>
        ensures { IfOk result (λ slot. slot ≡ worlds.context_get self.now.context key.now) }
    {
        for pair in self.context() {
            if pair.0.as_str() == key.as_str() {
                return pair.1.share();
            }
        }
        Ok(Slot::Null)
    }

    /// The elements of the list to which the slot refers; `None` where it refers to no list.
    ///
    /// # Errors
    /// `Memory` for want of memory.
    pub fn elements(&self, slot: &Slot) -> Result<Option<Seq<Slot>>, Memory>
        ensures { IfOk result (λ items. items ≡ rules.items_of (rules.object_of self.now slot.now)) }
    {
        match self.items_of(slot) {
            Some(items) => Ok(Some(copy_slots(self.alloc(), items)?)),
            None => Ok(None),
        }
    }
}

fn enter(world: &mut World, object: Object) -> Result<u32, Memory>
    ensures ok { IfOk result (λ o. worlds.entered object world.old ≡ (o, world.new)) }
    ensures err { OnErr result (world.new ≡ world.old) }
{
    let Ok(number) = u32::try_from(world.objects().len()) else {
        return Err(Memory);
    };
    world.push_object(object)?;
    Ok(number)
}

#[tactic(auto, using(crate::proofs::Places::replicate_more))]
fn nulls(alloc: Global, count: usize) -> Result<Seq<Slot>, Memory>
    ensures { IfOk result (λ slots. slots ≡ replicate count Slot.Null) }
{
    let mut slots = Seq::with_capacity(alloc, count)?;
    for _i in 0..count {
        slots.push(Slot::Null)?;
    }
    Ok(slots)
}

fn opening_statics(alloc: Global, recorders: &[RecorderDecl]) -> Result<Vec<Seq<Slot>>, Memory>
    ensures { IfOk result (λ statics. statics.items ≡ map worlds.opening_statics recorders.now) }
{
    let mut statics = Seq::with_capacity(alloc, recorders.len())?;
    for decl in recorders {
        statics.push(nulls(alloc, decl.statics.len())?)?;
    }
    Ok(statics.into_vec())
}

/// Slots that equal these.
///
/// # Errors
/// `Memory` for want of memory.
pub fn copy_slots(alloc: Global, slots: &[Slot]) -> Result<Seq<Slot>, Memory>
    ensures { IfOk result (λ copies. copies ≡ slots.now) }
{
    let mut copies = Seq::with_capacity(alloc, slots.len())?;
    for slot in slots {
        copies.push(slot.share()?)?;
    }
    Ok(copies)
}
