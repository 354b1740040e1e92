ghost use Rattle.std.specs.Prelude.{◌≡◌};

use item_types::Memory;
use startup_rules::{Invoked, MethodFault};
use std::alloc::AllocError;

/// Why a walk ends before its part does.
#[derive(Drop)]
pub enum Stop {
    /// For want of memory.
    Memory,
    /// The method ends.
    Ends(Invoked),
}

/// The method fails.
pub fn failed(fault: MethodFault) -> Stop
    ensures { result ≡ Stop.Ends (Invoked.Failed fault) }
{
    Stop::Ends(Invoked::Failed(fault))
}

/// An operand has another kind than the operation at that token needs.
pub fn wrong_kind(at: u32) -> Stop
    ensures { result ≡ Stop.Ends (Invoked.Failed (MethodFault.Kind at)) }
{
    failed(MethodFault::Kind { at })
}

impl From<AllocError> for Stop {
    ghost use Rattle.std.specs.Prelude.{◌≡◌};
    ghost use Rattle.method_exec.specs.declared.stop.Stop.TheVariants as stop;

    ghost from_gives = { λ _ e. e ≡ stop.Memory };

    fn from(_: AllocError) -> Stop {
        Stop::Memory
    }
}

impl From<Memory> for Stop {
    ghost use Rattle.std.specs.Prelude.{◌≡◌};
    ghost use Rattle.method_exec.specs.declared.stop.Stop.TheVariants as stop;

    ghost from_gives = { λ _ e. e ≡ stop.Memory };

    fn from(_: Memory) -> Stop {
        Stop::Memory
    }
}

impl From<MethodFault> for Stop {
    ghost use Rattle.std.specs.Prelude.{◌≡◌};
    ghost use Rattle.startup_rules.specs.declared.fault.Invoked.TheVariants.{Failed};
    ghost use Rattle.method_exec.specs.declared.stop.Stop.TheVariants as stop;

    ghost from_gives = { λ fault e. e ≡ stop.Ends (Failed fault) };

    fn from(fault: MethodFault) -> Stop {
        failed(fault)
    }
}
