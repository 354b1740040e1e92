ghost use Rattle.std.specs.Prelude.{◌≡◌, ◌++◌, string_bytes, OnOk};
ghost use Rattle.class_grammar.specs.FaultText.{fault_text};

use class_pool::ClassFault;
use item_types::Memory;

/// Appends the fault's text, as a refused class file is reported with it.
///
/// # Errors
/// `Memory` for want of memory.
pub fn push_fault(fault: ClassFault, out: &mut String) -> Result<(), Memory>
    ensures { OnOk result (string_bytes out.new ≡ string_bytes out.old ++ fault_text fault) }
{
    match fault {
        ClassFault::Magic => out.push_str("magic")?,
        ClassFault::Version => out.push_str("version")?,
        ClassFault::Short { at } => write!(out, "short at {at}")?,
        ClassFault::Pool { index } => write!(out, "pool {index}")?,
        ClassFault::Shape { at } => write!(out, "shape at {at}")?,
        ClassFault::Trailing { at } => write!(out, "trailing at {at}")?,
        ClassFault::Memory => {}
    }
    Ok(())
}
