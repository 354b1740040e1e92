ghost use Rattle.std.specs.Prelude.{◌≡◌, ℕ, ◌∷◌, ◌++◌, length, [], OnOk, IfOk};
ghost use Rattle.startup_rules.specs.Visits.{refs_of};
ghost use Rattle.startup_rules.specs.Views.{IsGraph, roots};

use crate::walk::visited;
use item_types::{Memory, Seq};
use startup_rules::Slot;
use startup_world::World;
use std::alloc::Global;

/// Adds the references among the slots.
#[tactic(auto, using(crate::proofs::Refs::refs_next))]
fn add_refs(slots: &[Slot], out: &mut Seq<Slot>) -> Result<(), Memory>
    ensures { (n : ℕ) → OnOk result (refs_of n out.new ≡ refs_of n out.old ++ refs_of n slots.now) }
{
    for slot in slots {
        add_ref(slot, out)?;
    }
    Ok(())
}

/// Adds the reference, where the slot is one.
#[tactic(auto, using(crate::proofs::Refs::refs_more))]
fn add_ref(slot: &Slot, out: &mut Seq<Slot>) -> Result<(), Memory>
    ensures { (n : ℕ) → OnOk result (refs_of n out.new ≡ refs_of n out.old ++ refs_of n (slot.now ∷ [])) }
{
    if let Slot::Obj(object) = slot {
        out.push(Slot::Obj(*object))?;
    }
    Ok(())
}

/// The references of the statics, and then those of the context.
#[tactic(auto, using(crate::proofs::Refs::statics_next, crate::proofs::Refs::pairs_next))]
fn roots_of(alloc: Global, world: &World) -> Result<Seq<Slot>, Memory>
    ensures { IfOk result (λ slots. refs_of (length world.now.objects) slots ≡ roots world.now) }
{
    let mut out = Seq::new(alloc);
    for row in world.statics() {
        add_refs(row.as_slice(), &mut out)?;
    }
    for pair in world.context() {
        add_ref(&pair.1, &mut out)?;
    }
    Ok(out)
}

/// The objects that the statics reach, and then those that the context reaches, in the order of
/// their numbers: by first visit, depth first. They are found without recursion.
///
/// # Errors
/// `Memory` for want of memory.
pub fn graph(alloc: Global, world: &World) -> Result<Seq<u32>, Memory>
    ensures { IfOk result (λ order. IsGraph world.now order) }
{
    let roots = roots_of(alloc, world)?;
    match visited(alloc, world.objects(), roots.as_slice()) {
        Ok(order) => Ok(Seq::from_vec(order)),
        Err(_) => Err(Memory),
    }
}
