ghost use Rattle.std.specs.Prelude.{◌≡◌, ◌++◌, string_bytes, IfOk, OnOk};
ghost use Rattle.project_generator.specs.Generated.{below, generated, item_line, step_line};

use crate::step_line::push_step;
use item_types::Memory;
use std::alloc::Global;

/// What stands before the items.
const HEAD: &str =
    "format = 1\napp = \"gen\"\nfinals = [\"M\"]\n[[extensions]]\nname = \"g\"\nitems = [\n";

/// What stands between the items that hold values and the steps.
const MIDDLE: &str =
    "{name = \"M\", kind = \"multi\"},\n]\nbeans = [\n{name = \"P\", fields = [\"n\", \"up\"]},\n]\nrecorders = [\n{name = \"R\", statics = [\"seen\"], methods = [{name = \"note\", params = [\"p\"], body = 'if static.seen == null { static.seen = []; } add(static.seen, p); print p.n;'}]},\n]\nsteps = [\n";

/// The text of a project file with `n` steps. Each step produces an item of its own and the final
/// item `M`, each but the first consumes the item of the one above it, and every second one
/// records a call.
///
/// # Errors
/// `Memory` for want of memory.
pub fn gen_text(alloc: Global, n: u32) -> Result<String, Memory>
    ensures { IfOk result (λ text. string_bytes text ≡ generated n) }
{
    let mut out = String::new(alloc);
    out.push_str(HEAD)?;
    push_items(n, &mut out)?;
    out.push_str(MIDDLE)?;
    push_steps(n, &mut out)?;
    out.push_str("]\n")?;
    Ok(out)
}

/// Appends the lines of so many items.
fn push_items(n: u32, out: &mut String) -> Result<(), Memory>
    ensures { OnOk result (string_bytes out.new ≡ string_bytes out.old ++ below item_line n) }
{
    for item in 0..n {
        push_item(item, out)?;
    }
    Ok(())
}

/// Appends the line of the item that holds a step's value.
fn push_item(step: u32, out: &mut String) -> Result<(), Memory>
    ensures { OnOk result (string_bytes out.new ≡ string_bytes out.old ++ item_line step) }
{
    write!(out, "{{name = \"V{step}\", kind = \"simple\"}},\n")?;
    Ok(())
}

/// Appends the lines of so many steps.
fn push_steps(n: u32, out: &mut String) -> Result<(), Memory>
    ensures { OnOk result (string_bytes out.new ≡ string_bytes out.old ++ below step_line n) }
{
    for step in 0..n {
        push_step(step, out)?;
    }
    Ok(())
}
