ghost use Rattle.std.specs.Prelude.{◌≡◌, ◌++◌, ◌<◌, length, codes, string_bytes, IfOk, OnOk};
ghost use Rattle.std.specs.Fmt.{decimal};
ghost use Rattle.build_report.specs.PlanText.{IsPlanText, AppendsRows, AppendsRow, after_text, numbers_text, count_text};

use chain_builder::Plan;
use item_types::{Memory, StepDecl, Text};
use std::alloc::Global;

/// A line for each needed step, with the steps that it waits for, and a last line that counts
/// them.
///
/// # Errors
/// `Memory` for want of memory.
pub fn report_plan(alloc: Global, app: &Text, plan: &Plan) -> Result<String, Memory>
    ensures { IfOk result (λ text. IsPlanText app.now plan.now.steps plan.now.finals (string_bytes text)) }
{
    let mut out = String::new(alloc);
    let planned = push_rows(plan, &mut out)?;
    push_count(app.as_str(), planned, plan.steps().len(), &mut out)?;
    Ok(out)
}

/// Appends the lines of the needed steps, and says how many there are.
fn push_rows(plan: &Plan, out: &mut String) -> Result<usize, Memory>
    ensures { IfOk result (λ planned. AppendsRows plan.now.steps plan.now.finals (string_bytes out.old) (string_bytes out.new) planned) }
{
    // A law of every plan: 32 bits count its steps.
    plan.accepted();
    let mut planned = 0;
    for step in 0..plan.steps().len() {
        if plan.needed(step as u32) {
            push_row(plan, step as u32, out)?;
            planned += 1;
        }
    }
    Ok(planned)
}

/// Appends a step's line.
fn push_row(plan: &Plan, step: u32, out: &mut String) -> Result<(), Memory>
    requires { step < length plan.now.steps }
    ensures { OnOk result (AppendsRow plan.now.steps plan.now.finals (string_bytes out.old) (string_bytes out.new) step) }
{
    push_step(step, &plan.steps().as_slice()[step as usize], out)?;
    push_after(plan.edges_into(step).as_slice(), out)?;
    out.push_str("\n")?;
    Ok(())
}

/// Appends a step's number and name.
fn push_step(step: u32, decl: &StepDecl, out: &mut String) -> Result<(), Memory>
    ensures { OnOk result (string_bytes out.new ≡ string_bytes out.old ++ (codes "step " ++ decimal step ++ codes " " ++ decl.now.ext ++ codes "." ++ decl.now.name)) }
{
    let ext = decl.ext.as_str();
    let name = decl.name.as_str();
    write!(out, "step {step} {ext}.{name}")?;
    Ok(())
}

/// Appends what a step waits for.
fn push_after(producers: &[u32], out: &mut String) -> Result<(), Memory>
    ensures { OnOk result (string_bytes out.new ≡ string_bytes out.old ++ after_text producers.now) }
{
    if !producers.is_empty() {
        out.push_str(" after")?;
        push_numbers(producers, out)?;
    }
    Ok(())
}

/// Appends the numbers, with a space before each.
fn push_numbers(numbers: &[u32], out: &mut String) -> Result<(), Memory>
    ensures { OnOk result (string_bytes out.new ≡ string_bytes out.old ++ numbers_text numbers.now) }
{
    for number in numbers {
        write!(out, " {number}")?;
    }
    Ok(())
}

/// Appends the line that counts the steps.
fn push_count(app: &str, planned: usize, all: usize, out: &mut String) -> Result<(), Memory>
    ensures { OnOk result (string_bytes out.new ≡ string_bytes out.old ++ count_text app.now planned all) }
{
    writeln!(out, "planned {app}: steps {planned} of {all}")?;
    Ok(())
}
