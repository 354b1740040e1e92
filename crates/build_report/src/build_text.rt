ghost use Rattle.std.specs.Prelude.{◌≡◌, ◌++◌, length, codes, string_bytes, IfOk, OnOk};
ghost use Rattle.std.specs.Fmt.{decimal};
ghost use Rattle.build_history.specs.Events.{ended};
ghost use Rattle.build_history.specs.EventText.{step_text};
ghost use Rattle.build_report.specs.BuildText.{build_text, built_line, calls, failed_line, failure, last_line, puts};

use build_history::{Event, History, Job, print, push_reason};
use item_types::{Memory, Text};
use std::alloc::Global;
use step_eval::Reason;

/// The text of a build: a line for each event of the history and for each recorded call, and a last
/// line that counts the ends, the puts and the calls, or names the step that failed and why.
///
/// # Errors
/// `Memory` for want of memory.
pub fn report_build(
    alloc: Global,
    app: &Text,
    job: &Job,
    history: &History,
) -> Result<String, Memory>
    ensures { IfOk result (λ text. string_bytes text ≡ build_text app.now job.now history.now.events) }
{
    let mut out = print(alloc, history, job)?;
    push_last_line(app, job, history, &mut out)?;
    Ok(out)
}

/// Appends the last line of a build's text, which stands after its history.
///
/// # Errors
/// `Memory` for want of memory.
pub fn push_last_line(
    app: &Text,
    job: &Job,
    history: &History,
    out: &mut String,
) -> Result<(), Memory>
    ensures { OnOk result (string_bytes out.new ≡ string_bytes out.old ++ last_line app.now job.now history.now.events (failure history.now.events)) }
{
    let events = history.events();
    match events.last() {
        Some(Event::Fail { step, reason }) => push_failed(job, *step, reason, out),
        _ => push_built(app.as_str(), count(events)?, out),
    }
}

fn push_failed(job: &Job, step: u32, reason: &Reason, out: &mut String) -> Result<(), Memory>
    ensures { OnOk result (string_bytes out.new ≡ string_bytes out.old ++ failed_line job.now (step, reason.now)) }
{
    out.push_str("step failed: ")?;
    push_step(job, step, out)?;
    out.push_str(": ")?;
    push_reason(reason, job.names(), out)?;
    out.push_str("\n")?;
    Ok(())
}

/// Appends the step's name: its extension's and its own.
fn push_step(job: &Job, step: u32, out: &mut String) -> Result<(), Memory>
    ensures { OnOk result (string_bytes out.new ≡ string_bytes out.old ++ step_text job.now step) }
{
    match job.plan().steps().as_slice().get(step as usize) {
        Some(decl) => {
            out.push_str(decl.ext.as_str())?;
            out.push_str(".")?;
            out.push_str(decl.name.as_str())?;
        }
        None => out.push_str(".")?,
    }
    Ok(())
}

/// How many steps of a history ended, how many items were produced, how many calls were recorded.
#[derive(Clone, Copy, Debug)]
struct Counts {
    ends: usize,
    puts: usize,
    calls: usize,
}

fn push_built(app: &str, counts: Counts, out: &mut String) -> Result<(), Memory>
    ensures { OnOk result (string_bytes out.new ≡ string_bytes out.old ++ (codes "built " ++ app.now ++ codes ": steps " ++ decimal counts.ends ++ codes ", puts " ++ decimal counts.puts ++ codes ", calls " ++ decimal counts.calls ++ codes "\n")) }
{
    let Counts { ends, puts, calls } = counts;
    writeln!(out, "built {app}: steps {ends}, puts {puts}, calls {calls}")?;
    Ok(())
}

/// Counts the events. More calls than 64 bits count are more than memory holds.
fn count(events: &[Event]) -> Result<Counts, Memory>
    ensures { IfOk result (λ c. c ≡ record { ends = length (ended events.now); puts = length (puts events.now); calls = length (calls events.now) }) }
{
    let mut ends = 0;
    let mut puts = 0;
    let mut calls: usize = 0;
    for event in events {
        match event {
            Event::Put { .. } => puts += 1,
            Event::End {
                calls: recorded,
                ..
            } => {
                ends += 1;
                let Some(sum) = calls.checked_add(recorded.as_slice().len()) else {
                    return Err(Memory);
                };
                calls = sum;
            }
            _ => {}
        }
    }
    Ok(Counts { ends, puts, calls })
}
