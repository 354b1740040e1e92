ghost use Rattle.std.specs.Prelude.{◌≡◌};
ghost use Rattle.world_graph.specs.Walks.{fresh_at};

use startup_rules::Slot;

/// The object to which the slot refers, where there is one that wasn't seen.
pub fn fresh(slot: &Slot, seen: &[bool]) -> Option<u32>
    ensures { result ≡ fresh_at seen.now slot.now }
{
    match slot {
        Slot::Obj(object) => match seen.get(*object as usize) {
            Some(false) => Some(*object),
            _ => None,
        },
        _ => None,
    }
}
