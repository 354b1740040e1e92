ghost use Rattle.std.specs.Prelude.{◌≡◌, ◌++◌, length, string_bytes, codes, IfOk, OnOk};
ghost use Rattle.std.specs.Fmt.{decimal};
ghost use Rattle.item_types.specs.Printed.{value_text};
ghost use Rattle.build_history.specs.Events.{step_of};
ghost use Rattle.build_history.specs.EventText.{step_text, values_text, calls_text, word_of, event_text, rest_text, history_text};
ghost use Rattle.build_history.specs.ReasonText.{item_text, reason_text};

use crate::call_lines::{push_calls, push_list};
use crate::event::Event;
use crate::history::History;
use crate::job::Job;
use crate::reason_words::{push_item, push_reason};
use item_types::{Memory, Names, Value, push_value};
use recorder_proxy::Call;
use std::alloc::Global;
use step_eval::Reason;

/// The text of a history: a line for each event, and after an end a line for each of its calls.
///
/// # Errors
/// `Memory` for want of memory.
pub fn print(alloc: Global, history: &History, job: &Job) -> Result<String, Memory>
    ensures { IfOk result (λ s. string_bytes s ≡ history_text job.now history.now.events) }
{
    let mut out = String::new(alloc);
    push_events(job, history.events(), &mut out)?;
    Ok(out)
}

fn push_events(job: &Job, events: &[Event], out: &mut String) -> Result<(), Memory>
    ensures { OnOk result (string_bytes out.new ≡ string_bytes out.old ++ history_text job.now events.now) }
{
    for event in events {
        push_event(job, event, out)?;
    }
    Ok(())
}

/// Appends the lines of an event.
///
/// # Errors
/// `Memory` for want of memory.
pub fn push_event(job: &Job, event: &Event, out: &mut String) -> Result<(), Memory>
    ensures { OnOk result (string_bytes out.new ≡ string_bytes out.old ++ event_text job.now event.now) }
{
    out.push_str(word_of(event))?;
    out.push_str(" ")?;
    push_step(job, step_of(event), out)?;
    push_rest(job, event, out)
}

fn word_of(event: &Event) -> &'static str
    ensures { result.now ≡ word_of event.now }
{
    match event {
        Event::Start { .. } => "start",
        Event::Take { .. } => "take",
        Event::Put { .. } => "put",
        Event::End { .. } => "end",
        Event::Fail { .. } => "fail",
    }
}

fn step_of(event: &Event) -> u32
    ensures { result ≡ step_of event.now }
{
    match event {
        Event::Start { step }
        | Event::Take { step, .. }
        | Event::Put { step, .. }
        | Event::End { step, .. }
        | Event::Fail { step, .. } => *step,
    }
}

/// Appends what stands after the step's name.
fn push_rest(job: &Job, event: &Event, out: &mut String) -> Result<(), Memory>
    ensures { OnOk result (string_bytes out.new ≡ string_bytes out.old ++ rest_text job.now event.now) }
{
    match event {
        Event::Start { .. } => {
            out.push_str("\n")?;
            Ok(())
        }
        Event::Take { item, values, .. } => {
            push_taken(*item, values.as_slice(), job.names(), out)
        }
        Event::Put { item, value, .. } => push_put(*item, value, job.names(), out),
        Event::End { step, calls } => push_end(job, *step, calls.as_slice(), out),
        Event::Fail { reason, .. } => push_failure(reason, job.names(), out),
    }
}

fn push_taken(item: u32, values: &[Value], names: &Names, out: &mut String) -> Result<(), Memory>
    ensures { OnOk result (string_bytes out.new ≡ string_bytes out.old ++ (codes " " ++ item_text names.now item ++ codes " " ++ values_text names.now values.now ++ codes "\n")) }
{
    out.push_str(" ")?;
    push_item(item, names, out)?;
    out.push_str(" ")?;
    push_list(values, names, out)?;
    out.push_str("\n")?;
    Ok(())
}

fn push_put(item: u32, value: &Value, names: &Names, out: &mut String) -> Result<(), Memory>
    ensures { OnOk result (string_bytes out.new ≡ string_bytes out.old ++ (codes " " ++ item_text names.now item ++ codes " " ++ value_text names.now value.now ++ codes "\n")) }
{
    out.push_str(" ")?;
    push_item(item, names, out)?;
    out.push_str(" ")?;
    push_value(value, names, out)?;
    out.push_str("\n")?;
    Ok(())
}

fn push_end(job: &Job, step: u32, calls: &[Call], out: &mut String) -> Result<(), Memory>
    ensures { OnOk result (string_bytes out.new ≡ string_bytes out.old ++ (codes " " ++ decimal (length calls.now) ++ codes "\n" ++ calls_text job.now step 0 calls.now)) }
{
    let count = calls.len();
    write!(out, " {count}\n")?;
    push_calls(job, step, calls, out)
}

fn push_failure(reason: &Reason, names: &Names, out: &mut String) -> Result<(), Memory>
    ensures { OnOk result (string_bytes out.new ≡ string_bytes out.old ++ (codes " " ++ reason_text names.now reason.now ++ codes "\n")) }
{
    out.push_str(" ")?;
    push_reason(reason, names, out)?;
    out.push_str("\n")?;
    Ok(())
}

/// Appends the step's name: its extension's and its own.
fn push_step(job: &Job, step: u32, out: &mut String) -> Result<(), Memory>
    ensures { OnOk result (string_bytes out.new ≡ string_bytes out.old ++ step_text job.now step) }
{
    match job.plan().steps().as_slice().get(step as usize) {
        Some(decl) => {
            out.push_str(decl.ext.as_str())?;
            out.push_str(".")?;
            out.push_str(decl.name.as_str())?;
        }
        None => out.push_str(".")?,
    }
    Ok(())
}
