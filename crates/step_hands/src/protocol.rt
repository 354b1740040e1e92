ghost use Rattle.std.specs.Prelude.{◌<◌, All, IfSome};

use crossbeam_deque::protocol::{Outcome, Protocol};
use crossbeam_deque::{Steal, Stealer, Worker};
use std::alloc::{AllocError, Global};

/// No project has more steps.
pub(crate) const STEP_LIMIT: u32 = 2048;

/// The slots that a deque begins with.
const SLOTS: usize = 64;

/// The rule of each deque: its items are below the limit on steps.
pub(crate) struct BelowLimit;

impl Protocol<u32, ()> for BelowLimit {
    ghost holds = { λ items _. All (λ x. x < 2048) items };

    ghost first = { tt };

    ghost guest = { tt };
}

impl Outcome<u32, ()> for BelowLimit {
    ghost then = { λ _ xs _. All (λ x. x < 2048) xs };
}

pub(crate) type Owner = Worker<u32, Global, (), BelowLimit>;

pub(crate) type Thief = Stealer<u32, Global, (), BelowLimit>;

/// An empty first-in first-out deque.
pub(crate) fn make_owner(alloc: Global) -> Result<Owner, AllocError> {
    Owner::fifo_as(alloc, SLOTS)
}

/// Puts the step at the back. Where the deque can't grow, it stays as it is.
pub(crate) fn push(own: &mut Owner, step: u32)
    requires { step < 2048 }
{
    let _full = own.push_as::<BelowLimit>(step);
}

/// The step at the front.
pub(crate) fn pop(own: &mut Owner) -> Option<u32>
    ensures { IfSome result (λ step. step < 2048) }
{
    own.pop_as::<BelowLimit>()
}

/// The step at the front, unless the deque is empty or another takes one at the same time.
pub(crate) fn steal(other: &Thief) -> Option<u32>
    ensures { IfSome result (λ step. step < 2048) }
{
    let mut pass = other.pass();
    match other.steal_as::<BelowLimit>(&mut pass) {
        Steal::Success(step) => Some(step),
        Steal::Empty | Steal::Retry => None,
    }
}
