ghost use Rattle.std.specs.Prelude.{◌≡◌, ◌++◌, string_bytes, OnOk};
ghost use Rattle.project_generator.specs.Generated.{above, body_key, closing, consumes_key, marker, phase_of, produces_key, record_key, step_line, upper};

use item_types::{Memory, Phase};

/// Appends a step's line.
pub fn push_step(step: u32, out: &mut String) -> Result<(), Memory>
    ensures { OnOk result (string_bytes out.new ≡ string_bytes out.old ++ step_line step) }
{
    write!(out, "{{name = \"s{step}\"")?;
    push_consumes(step, out)?;
    push_produces(step, out)?;
    push_record(phase_of(step), out)?;
    push_body(step, out)?;
    Ok(())
}

/// The step above a step in the tree.
fn above(step: u32) -> u32
    ensures { result ≡ above step }
{
    step.saturating_sub(1) / 2
}

/// How a step produces the final item.
fn marker(step: u32) -> &'static str
    ensures { result.now ≡ marker step }
{
    if step % 5 == 4 { "M weak" } else { "M" }
}

/// The phase that a step records for.
fn phase_of(step: u32) -> Option<Phase>
    ensures { result ≡ phase_of step }
{
    match step % 4 {
        0 => Some(Phase::Static),
        2 => Some(Phase::Runtime),
        _ => None,
    }
}

/// Appends what a step consumes.
fn push_consumes(step: u32, out: &mut String) -> Result<(), Memory>
    ensures { OnOk result (string_bytes out.new ≡ string_bytes out.old ++ consumes_key step) }
{
    if step != 0 {
        let above = above(step);
        write!(out, ", consumes = [\"V{above}\"]")?;
    }
    Ok(())
}

/// Appends the phase that a step records for.
fn push_record(phase: Option<Phase>, out: &mut String) -> Result<(), Memory>
    ensures { OnOk result (string_bytes out.new ≡ string_bytes out.old ++ record_key phase) }
{
    match phase {
        Some(Phase::Static) => out.push_str(", record = \"static\"")?,
        Some(Phase::Runtime) => out.push_str(", record = \"runtime\"")?,
        None => {}
    }
    Ok(())
}

/// Appends what a step produces.
fn push_produces(step: u32, out: &mut String) -> Result<(), Memory>
    ensures { OnOk result (string_bytes out.new ≡ string_bytes out.old ++ produces_key step) }
{
    let marker = marker(step);
    write!(out, ", produces = [\"V{step}\", \"{marker}\"]")?;
    Ok(())
}

/// Appends a step's body, and the end of its line.
fn push_body(step: u32, out: &mut String) -> Result<(), Memory>
    ensures { OnOk result (string_bytes out.new ≡ string_bytes out.old ++ body_key step) }
{
    write!(out, ", body = 'let x = new P{{n: {step}, up: ")?;
    push_upper(step, out)?;
    write!(out, "}}; produce V{step}(x); produce M(x);")?;
    push_closing(phase_of(step), out)?;
    Ok(())
}

/// Appends the end of a step's body and of its line: with a phase it records a call.
fn push_closing(phase: Option<Phase>, out: &mut String) -> Result<(), Memory>
    ensures { OnOk result (string_bytes out.new ≡ string_bytes out.old ++ closing phase) }
{
    match phase {
        Some(_) => out.push_str(" call R.note(x);'},\n")?,
        None => out.push_str("'},\n")?,
    }
    Ok(())
}

/// Appends what a step hands on from the one above it.
fn push_upper(step: u32, out: &mut String) -> Result<(), Memory>
    ensures { OnOk result (string_bytes out.new ≡ string_bytes out.old ++ upper step) }
{
    if step == 0 {
        out.push_str("null")?;
    } else {
        let above = above(step);
        write!(out, "get V{above}")?;
    }
    Ok(())
}
