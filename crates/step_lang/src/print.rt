ghost use Rattle.std.specs.Prelude.{◌≡◌, string_bytes, IfOk};
ghost use Rattle.lang_print.specs.Canonical.{text_of};

use item_types::{Memory, Names};
use lang_print::canonical_text;
use std::alloc::Global;
use syntax_tree::{Body, Method};

/// The canonical text of a body: its tokens with one space between two, but none before
/// `; , ) ] . : (` and none after `( [ . !`.
///
/// # Errors
/// `Memory` for want of memory.
pub fn print_body(alloc: Global, body: &Body, names: &Names) -> Result<String, Memory>
    ensures { IfOk result (λ s. string_bytes s ≡ text_of names.now body.now.stmts) }
{
    canonical_text(alloc, names, body.stmts.as_slice())
}

/// The canonical text of a method of that recorder, as [`print_body`]'s.
///
/// # Errors
/// `Memory` for want of memory.
pub fn print_method(
    alloc: Global,
    method: &Method,
    names: &Names,
    recorder: u32,
) -> Result<String, Memory>
    ensures { IfOk result (λ s. string_bytes s ≡ text_of names.now method.now.stmts) }
{
    let _ = recorder;
    canonical_text(alloc, names, method.stmts.as_slice())
}
