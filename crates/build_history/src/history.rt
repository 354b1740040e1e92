ghost use Rattle.std.specs.Prelude.{◌≡◌, ◌+◌, ◌-◌, ◌≤◌, [], ◌∷◌, ◌++◌, OnOk, OnErr};
ghost use Rattle.std.specs.List.{All};
ghost use Rattle.build_history.specs.Events.{HasBoundedParts};

use crate::event::Event;
use item_types::Memory;
use std::alloc::Global;
use std::marker::Model;

/// The events of a run, in order, and how many more take no memory. Each value in them is within
/// the bounds on values.
#[derive(Drop)]
pub struct History {
    events: Vec<Event>,
    spare: usize,
}

impl Model for History {
    ghost use Rattle.std.specs.Prelude.{◌+◌, ◌≤◌, vec_len, vec_capacity};
    ghost use Rattle.std.specs.List.{All};
    ghost use Rattle.item_types.specs.contracts.value.Value as value;
    ghost use Rattle.std.specs.Coded.{codes};
    ghost use Rattle.build_history.specs.Events.{HasBoundedParts};
    ghost use Rattle.build_history.specs.Room.{Kept};

    ghost Value = { Kept };

    ghost coded = { Prim.hlevel (codes, value.the_row.coded) };

    ghost view = { λ h. record { events = h.events.items; spare = h.spare } };

    ghost invariant = { λ h. (vec_len h.events + h.spare ≤ vec_capacity h.events) × All HasBoundedParts h.events.items };
}

impl History {
    /// No events, and no room. It takes no memory.
    pub fn new(alloc: Global) -> History
        ensures { result ≡ record { events = []; spare = 0 } }
    {
        History {
            events: Vec::new(alloc),
            spare: 0,
        }
    }

    /// Makes room for that many more events.
    ///
    /// # Errors
    /// `Memory` for want of memory: the history is as before.
    pub fn reserve(&mut self, more: u32) -> Result<(), Memory>
        ensures ok { OnOk result (self.new ≡ record self.old { spare = self.old.spare + more }) }
        ensures err { OnErr result (self.new ≡ self.old) }
    {
        let Some(spare) = self.spare.checked_add(more as usize) else {
            return Err(Memory);
        };
        self.events.reserve(spare)?;
        self.spare = spare;
        Ok(())
    }

    /// Appends the event. It takes no memory.
    pub fn add(&mut self, event: Event)
        requires spare { 1 ≤ self.old.spare }
        requires bounded { HasBoundedParts event }
        ensures { self.new ≡ record { events = self.old.events ++ event ∷ []; spare = self.old.spare - 1 } }
    {
        match self.events.push(event) {
            Ok(()) => (),
            Err(_) => unreachable!(),
        }
        self.spare -= 1;
    }

    /// The events in order. It takes no memory.
    pub fn events(&self) -> &[Event]
        ensures value { result.now ≡ self.now.events }
        ensures bounded { All HasBoundedParts self.now.events }
    {
        self.events.as_slice()
    }
}
