ghost use Rattle.std.specs.Prelude.{◌≡◌, ◌++◌, string_bytes, OnOk};
ghost use Rattle.world_text.specs.FaultText.{fault_text};

use item_types::{Memory, push_quoted};
use startup_rules::MethodFault;

/// Appends why a method failed, in words.
///
/// # Errors
/// `Memory` for want of memory.
pub fn push_fault(fault: &MethodFault, out: &mut String) -> Result<(), Memory>
    ensures { OnOk result (string_bytes out.new ≡ string_bytes out.old ++ fault_text fault.now) }
{
    match fault {
        MethodFault::Said(text) => push_quoted(text.as_str(), out)?,
        MethodFault::Kind { at } => write!(out, "kind at {at}")?,
        MethodFault::TooManyTurns => out.push_str("too many turns")?,
        MethodFault::TooManyCells => out.push_str("too many cells")?,
        MethodFault::TextTooLong => out.push_str("text too long")?,
        MethodFault::TooMuchText => out.push_str("too much text")?,
    }
    Ok(())
}
