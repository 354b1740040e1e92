ghost use Rattle.std.specs.Prelude.{◌≡◌, string_bytes, IfOk};
ghost use Rattle.lang_print.specs.Canonical.{text_of};

use crate::printer::Printer;
use crate::stmts::print_stmts;
use item_types::{Memory, Names};
use std::alloc::Global;
use syntax_tree::Stmt;

/// The canonical text of the statements: their tokens with one space between two, but none
/// before `; , ) ] . : (` and none after `( [ . !`. It takes time about linear in the text.
///
/// # Errors
/// `Memory` for want of memory.
#[tactic(auto, using(crate::proofs::Puts::put_all_text))]
pub fn canonical_text(alloc: Global, names: &Names, stmts: &[Stmt]) -> Result<String, Memory>
    ensures { IfOk result (λ s. string_bytes s ≡ text_of names.now stmts.now) }
{
    let mut out = Printer::new(alloc);
    print_stmts(&mut out, names, stmts)?;
    Ok(out.into_text())
}
