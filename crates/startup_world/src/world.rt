ghost use Rattle.std.specs.Prelude.{◌≡◌, [], ◌∷◌, ◌++◌, set, slice_get, OnOk, OnErr, nat_lt, if◌then◌else◌, ◌+◌, unwrap_or};
ghost use Rattle.std.specs.Option.{option_copied};
ghost use Rattle.startup_rules.specs.Operations as rules;
ghost use Rattle.startup_rules.specs.Worlds as worlds;
ghost use Rattle.startup_world.specs.Places as places;
ghost use Rattle.startup_world.specs.Paying.{Pays};

use crate::object::{add_item, set_part, set_slot};
use item_types::{Memory, Seq, Text};
use startup_rules::{MethodFault, Object, Slot};
use std::alloc::Global;
use std::marker::Model;

const MAX_CELLS: u64 = 1_000_000;

const MAX_TEXT: u64 = 16_777_216;

/// A started application as it is at a moment: its objects, the statics of each recorder, the
/// context, the lines that were printed, and what was spent. Contracts see these parts.
#[derive(Drop)]
pub struct World {
    alloc: Global,
    objects: Vec<Object>,
    statics: Vec<Seq<Slot>>,
    context: Vec<(Text, Slot)>,
    lines: Vec<Text>,
    turns: u64,
    cells: u64,
    text: u64,
}

impl Model for World {
    ghost use Rattle.startup_rules.specs.declared.world.WorldParts.{WorldParts};
    ghost use Rattle.startup_rules.specs.contracts.world.WorldParts as parts;
    ghost use Rattle.std.specs.Coded.{codes};

    ghost Value = { WorldParts };

    ghost coded = { Prim.hlevel (codes, parts.the_row.coded) };

    ghost view = { λ w. record { objects = w.objects.items; statics = w.statics.items; context = w.context.items; lines = w.lines.items; turns = w.turns; cells = w.cells; text = w.text } };
}

impl World {
    /// A world of these statics alone. It takes no memory.
    pub(crate) fn of_statics(alloc: Global, statics: Vec<Seq<Slot>>) -> World
        ensures { result ≡ record { objects = []; statics = statics.items; context = []; lines = []; turns = 0; cells = 0; text = 0 } }
    {
        World {
            alloc,
            objects: Vec::new(alloc),
            statics,
            context: Vec::new(alloc),
            lines: Vec::new(alloc),
            turns: 0,
            cells: 0,
            text: 0,
        }
    }

    /// What allocates here.
    pub fn alloc(&self) -> Global {
        self.alloc
    }

    /// The objects, by number. It takes no memory.
    pub fn objects(&self) -> &[Object]
        ensures { result.now ≡ self.now.objects }
    {
        self.objects.as_slice()
    }

    /// Per recorder its statics, in declared order. It takes no memory.
    pub fn statics(&self) -> &[Seq<Slot>]
        ensures { result.now ≡ self.now.statics }
    {
        self.statics.as_slice()
    }

    /// The context's keys with their slots, in the order of first puts. It takes no memory.
    pub fn context(&self) -> &[(Text, Slot)]
        ensures { result.now ≡ self.now.context }
    {
        self.context.as_slice()
    }

    /// What was printed. It takes no memory.
    pub fn lines(&self) -> &[Text]
        ensures { result.now ≡ self.now.lines }
    {
        self.lines.as_slice()
    }

    /// The object to which the slot refers; `None` where it refers to none. It takes no memory.
    pub fn object_of(&self, slot: &Slot) -> Option<&Object>
        ensures { option_copied result ≡ rules.object_of self.now slot.now }
    {
        match slot {
            Slot::Obj(object) => self.objects.as_slice().get(*object as usize),
            _ => None,
        }
    }

    /// The elements of the list to which the slot refers; `None` where it refers to no list. It
    /// takes no memory.
    pub fn items_of(&self, slot: &Slot) -> Option<&[Slot]>
        ensures { option_copied result ≡ rules.items_of (rules.object_of self.now slot.now) }
    {
        match self.object_of(slot) {
            Some(Object::List(items)) => Some(items.as_slice()),
            _ => None,
        }
    }

    /// The static of the recorder at that place, where there is one. It takes no memory.
    pub fn static_at(&self, recorder: u32, place: usize) -> Option<&Slot>
        ensures { option_copied result ≡ slice_get (unwrap_or (slice_get self.now.statics recorder) []) place }
    {
        match self.statics.as_slice().get(recorder as usize) {
            Some(slots) => slots.as_slice().get(place),
            None => None,
        }
    }

    /// Spends a turn, where fewer than `turns` were spent; else it is false, and the world is as
    /// before.
    pub fn turn(&mut self, turns: u64) -> bool
        ensures there { result ≡ nat_lt self.old.turns turns }
        ensures grown { self.new ≡ (if result then record self.old { turns = self.old.turns + 1 } else self.old) }
    {
        if self.turns >= turns {
            return false;
        }
        self.turns += 1;
        true
    }

    /// Pays for cells that are made.
    ///
    /// # Errors
    /// `TooManyCells` where the cells of the whole startup would pass 1,000,000: the world is as
    /// before.
    pub fn pay_cells(&mut self, count: usize) -> Result<(), MethodFault>
        ensures { Pays (rules.pay_cells count self.old) result self.old self.new }
    {
        let cells = self.cells.saturating_add(count as u64);
        if cells > MAX_CELLS {
            return Err(MethodFault::TooManyCells);
        }
        self.cells = cells;
        Ok(())
    }

    /// Pays for bytes of text that are joined or printed.
    ///
    /// # Errors
    /// `TooMuchText` where the text of the whole startup would pass 16,777,216 bytes: the world is
    /// as before.
    pub fn pay_text(&mut self, bytes: u64) -> Result<(), MethodFault>
        ensures { Pays (rules.pay_text bytes self.old) result self.old self.new }
    {
        let text = self.text.saturating_add(bytes);
        if text > MAX_TEXT {
            return Err(MethodFault::TooMuchText);
        }
        self.text = text;
        Ok(())
    }

    /// One more object, which has the next number. It spends nothing.
    ///
    /// # Errors
    /// `Memory` for want of memory: the world is as before.
    pub fn push_object(&mut self, object: Object) -> Result<(), Memory>
        ensures ok { OnOk result (self.new ≡ (worlds.entered object self.old).1) }
        ensures err { OnErr result (self.new ≡ self.old) }
    {
        match self.objects.push(object) {
            Ok(()) => Ok(()),
            Err(_) => Err(Memory),
        }
    }

    /// One more line. It spends nothing.
    ///
    /// # Errors
    /// `Memory` for want of memory: the world is as before.
    pub fn push_line(&mut self, line: Text) -> Result<(), Memory>
        ensures ok { OnOk result (self.new ≡ record self.old { lines = self.old.lines ++ line ∷ [] }) }
        ensures err { OnErr result (self.new ≡ self.old) }
    {
        match self.lines.push(line) {
            Ok(()) => Ok(()),
            Err(_) => Err(Memory),
        }
    }

    /// The static of the recorder at that place is the slot from now on; where there is none,
    /// nothing changes. It takes no memory and spends nothing.
    #[tactic(auto, using(crate::proofs::Places::static_past, crate::proofs::Places::row_there))]
    pub fn set_static(&mut self, recorder: u32, place: usize, slot: Slot)
        ensures { self.new ≡ record self.old { statics = set self.old.statics recorder (set (unwrap_or (slice_get self.old.statics recorder) []) place slot) } }
    {
        let row = recorder as usize;
        if row < self.statics.len() {
            set_slot(self.alloc, &mut self.statics[row], place, slot);
        }
    }

    /// The part of the object at that place is the slot from now on; where there is none, nothing
    /// changes. It takes no memory and spends nothing.
    pub fn set_at(&mut self, object: u32, place: usize, slot: Slot)
        ensures { self.new ≡ worlds.field_set object place slot self.old }
    {
        let row = object as usize;
        if row < self.objects.len() {
            set_part(self.alloc, &mut self.objects[row], place, slot);
        }
    }

    /// The field of the object is the slot from now on. Where the object has no such part, nothing
    /// changes. It takes no memory and spends nothing.
    pub fn set_field(&mut self, object: u32, field: u32, slot: Slot)
        ensures { self.new ≡ worlds.field_set object field slot self.old }
    {
        self.set_at(object, field as usize, slot);
    }

    /// The list has one more element. Where the object is no list, nothing changes. It spends
    /// nothing.
    ///
    /// # Errors
    /// `Memory` for want of memory: the world is as before.
    pub fn list_add(&mut self, list: u32, slot: Slot) -> Result<(), Memory>
        ensures ok { OnOk result (self.new ≡ worlds.list_added list slot self.old) }
        ensures err { OnErr result (self.new ≡ self.old) }
    {
        let row = list as usize;
        if row < self.objects.len() {
            add_item(&mut self.objects[row], slot)?;
        }
        Ok(())
    }

    /// The slot stands under the key from now on. A key that is there keeps its place. It spends
    /// nothing.
    ///
    /// # Errors
    /// `Memory` for want of memory: the world is as before.
    pub fn context_put(&mut self, key: Text, slot: Slot) -> Result<(), Memory>
        ensures ok { OnOk result (self.new ≡ worlds.context_put key slot self.old) }
        ensures err { OnErr result (self.new ≡ self.old) }
    {
        put_pair(&mut self.context, key, slot)
    }
}

#[tactic(auto, using(crate::proofs::Places::put_there, crate::proofs::Places::put_last))]
fn put_pair(pairs: &mut Vec<(Text, Slot)>, key: Text, slot: Slot) -> Result<(), Memory>
    ensures ok { OnOk result (pairs.new.items ≡ worlds.put pairs.old.items key slot) }
    ensures err { OnErr result (pairs.new.items ≡ pairs.old.items) }
{
    if let Some(place) = key_place(pairs.as_slice(), key.as_str()) {
        pairs[place] = (key, slot);
        return Ok(());
    }
    match pairs.push((key, slot)) {
        Ok(()) => Ok(()),
        Err(_) => Err(Memory),
    }
}

/// The place of the pair of that key.
fn key_place(pairs: &[(Text, Slot)], key: &str) -> Option<usize>
    ensures { result ≡ places.key_place pairs.now key.now }
{
    pairs.iter().position(|pair| pair.0.as_str() == key)
}
