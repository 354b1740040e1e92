ghost use Rattle.std.specs.Prelude.{◌≡◌, ◌+◌, ◌<◌, ◌≤◌, ◌^◌, ◌==◌, ℕ, cond, length, slice_index_or, Contains, IfOk, IfSome, IfNone, IsTrue, ◌↔◌};
ghost use Rattle.std.specs.List.{All};
ghost use Rattle.step_set.specs.Members.{Has, IsWith, IsWithout, IsWithAll};
ghost use Rattle.step_set.specs.Places.{IsLesser, AreLesser};

use item_types::Memory;
use std::alloc::Global;
use std::marker::Model;

/// A set of steps whose numbers are below a bound, with room for each of them.
///
/// It has a place for each step, and above them places that hold the lesser of two others: place 1
/// is the top, and places 2i and 2i + 1 are those below place i. So the least step of the set is
/// found at the top, and a step that comes or goes changes the places on its way there.
#[derive(Drop)]
pub struct StepSet {
    members: Vec<bool>,
    places: Vec<u32>,
}

impl Model for StepSet {
    ghost use Rattle.std.specs.Prelude.{Bool, List};
    ghost use Rattle.step_set.specs.Places.{AreFilled};

    ghost Value = { List Bool };

    ghost view = { λ s. s.members.items };

    ghost invariant = { λ s. AreFilled s.members.items s.places.items };
}

impl StepSet {
    /// No steps, and room for each below the bound.
    ///
    /// # Errors
    /// `Memory` for want of memory.
    pub fn new(alloc: Global, bound: usize) -> Result<StepSet, Memory>
        requires { bound < 2 ^ 32 }
        ensures room { IfOk result (λ set. length set ≡ bound) }
        ensures none { IfOk result (λ set. (s : ℕ) → Has set s → ⊥) }
    {
        let Some(double) = bound.checked_add(bound) else {
            return Err(Memory);
        };
        let mut members = Vec::new(alloc);
        members.resize(bound, false)?;
        let mut places = Vec::new(alloc);
        places.resize(double, bound as u32)?;
        Ok(StepSet { members, places })
    }

    /// Whether the step is in the set. It takes no memory.
    pub fn contains(&self, step: u32) -> bool
        ensures { IsTrue result ↔ Has self.now step }
    {
        match self.members.get(step as usize) {
            Some(member) => *member,
            None => false,
        }
    }

    /// The least step, if there is one. It takes no memory.
    pub fn least(&self) -> Option<u32>
        ensures member { IfSome result (λ x. Has self.now x) }
        ensures least { IfSome result (λ x. (s : ℕ) → Has self.now s → x ≤ s) }
        ensures none { IfNone result ((s : ℕ) → Has self.now s → ⊥) }
    {
        let top = *self.places.get(1)?;
        if (top as usize) < self.members.len() {
            Some(top)
        } else {
            None
        }
    }

    /// Puts the step into the set. It takes no memory.
    pub fn insert(&mut self, step: u32)
        requires { step < length self.old }
        ensures room { length self.new ≡ length self.old }
        ensures with { IsWith self.old step self.new }
    {
        let at = step as usize;
        self.members[at] = true;
        fill(&mut self.places, self.members.len(), at, step);
    }

    /// Takes the step out of the set. It takes no memory.
    pub fn remove(&mut self, step: u32)
        requires { step < length self.old }
        ensures room { length self.new ≡ length self.old }
        ensures without { IsWithout self.old step self.new }
    {
        let at = step as usize;
        let bound = self.members.len();
        self.members[at] = false;
        fill(&mut self.places, bound, at, bound as u32);
    }

    /// Puts these steps into the set. It takes no memory.
    pub fn insert_all(&mut self, steps: &[u32])
        requires { All (λ s. s < length self.old) steps.now }
        ensures room { length self.new ≡ length self.old }
        ensures with { IsWithAll self.old steps.now self.new }
    {
        for step in steps {
            self.insert(*step);
        }
    }
}

/// Has the place of the step hold the value, and the places above it the lesser of those below.
fn fill(places: &mut Vec<u32>, bound: usize, step: usize, value: u32)
    requires wide { length places.old.items ≡ bound + bound }
    requires range { step < bound }
    requires lesser { AreLesser bound places.old.items }
    ensures wide { length places.new.items ≡ bound + bound }
    ensures held { (s : ℕ) → s < bound → slice_index_or places.new.items (bound + s) 0 ≡ cond (s == step) value (slice_index_or places.old.items (bound + s) 0) }
    ensures lesser { AreLesser bound places.new.items }
{
    places[bound + step] = value;
    let mut at = (bound + step) / 2;
    while at > 0 {
        places[at] = lesser(places[2 * at], places[2 * at + 1]);
        at /= 2;
    }
}

fn lesser(left: u32, right: u32) -> u32
    ensures { IsLesser left right result }
{
    if left < right { left } else { right }
}
