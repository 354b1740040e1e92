ghost use Rattle.std.specs.Prelude.{◌≡◌, ◌≤◌, IfOk};
ghost use Rattle.ext_parser.specs.ProjectOfTheBytes.{project};
ghost use Rattle.build_report.specs.BuildText.{failure};
ghost use Rattle.quarkus_cli.specs.Answers.{AnswersCommand, outside};
ghost use Rattle.quarkus_cli.specs.Builds.{OfBuild, build_status, built, history_name};
ghost use Rattle.quarkus_cli.specs.Outcomes.{OfChain, OfRead};

use crate::delivery::deliver;
use crate::prepare::{Prepared, prepare};
use crate::reading::{PROJECT_LIMIT, read_input};
use crate::status::{DONE, NO_MEMORY, STEP_FAILED};
use crate::{Command, Outcome};
use aug_base::{Gate, Shelf, Sink};
use build_history::{Event, History, Job, print};
use build_report::push_last_line;
use ext_parser::project_of_cut_bytes;
use item_types::{Memory, Seq, Text};
use std::alloc::Global;
use std::sync::Wait;
use std::thread::Threads;
use step_workers::{run_one, run_workers};

/// Does `build FILE OUT`: reads the project, builds its chain, runs the steps, least first, and
/// writes and prints what they did, or why there is nothing to run. It waits for nobody.
pub fn build_one<S: Shelf, K: Sink>(
    alloc: Global,
    file: &str,
    out: &str,
    shelf: &mut S,
    sink: &mut K,
) -> u8
    ensures answers { AnswersCommand (Command.Build file.now out.now 1) (outside (S.state shelf.old) (K.state sink.old)) (outside (S.state shelf.new) (K.state sink.new)) result }
{
    project_of_cut_bytes();
    let bytes = match read_input(alloc, shelf, file, PROJECT_LIMIT) {
        Ok(bytes) => bytes,
        Err(status) => return status,
    };
    match one_outcome(alloc, bytes.as_slice(), out) {
        Ok(outcome) => deliver(&outcome, shelf, sink),
        Err(Memory) => NO_MEMORY,
    }
}

/// As `build_one`, by that many workers, who wait for one another. `gate` is where they may be held
/// up.
pub fn build_together<R: Threads + Wait + Sync, S: Shelf, K: Sink, G: Gate + Sync>(
    rt: &R,
    alloc: Global,
    file: &str,
    out: &str,
    workers: u32,
    shelf: &mut S,
    sink: &mut K,
    gate: &G,
) -> u8
    requires workers { (1 ≤ workers) × (workers ≤ 64) }
    ensures answers { AnswersCommand (Command.Build file.now out.now workers) (outside (S.state shelf.old) (K.state sink.old)) (outside (S.state shelf.new) (K.state sink.new)) result }
{
    project_of_cut_bytes();
    let bytes = match read_input(alloc, shelf, file, PROJECT_LIMIT) {
        Ok(bytes) => bytes,
        Err(status) => return status,
    };
    match together_outcome(rt, alloc, bytes.as_slice(), out, workers, gate) {
        Ok(outcome) => deliver(&outcome, shelf, sink),
        Err(Memory) => NO_MEMORY,
    }
}

/// What `build` comes to over a file's bytes, by one worker.
fn one_outcome(alloc: Global, bytes: &[u8], out: &str) -> Result<Outcome, Memory>
    ensures { IfOk result (λ o. OfRead (OfChain (OfBuild out.now 1)) (project bytes.now) o) }
{
    match prepare(alloc, bytes)? {
        Prepared::Ready { app, job } => {
            let history = run_one(alloc, &job)?;
            built(alloc, &app, &job, out, &history)
        }
        Prepared::Refused(outcome) => Ok(outcome),
    }
}

/// What `build` comes to over a file's bytes, by that many workers.
fn together_outcome<R: Threads + Wait + Sync, G: Gate + Sync>(
    rt: &R,
    alloc: Global,
    bytes: &[u8],
    out: &str,
    workers: u32,
    gate: &G,
) -> Result<Outcome, Memory>
    requires workers { (1 ≤ workers) × (workers ≤ 64) }
    ensures { IfOk result (λ o. OfRead (OfChain (OfBuild out.now workers)) (project bytes.now) o) }
{
    match prepare(alloc, bytes)? {
        Prepared::Ready { app, job } => {
            let history = run_workers(rt, alloc, &job, workers, gate)?;
            built(alloc, &app, &job, out, &history)
        }
        Prepared::Refused(outcome) => Ok(outcome),
    }
}

/// What comes of a build that kept this history.
fn built(
    alloc: Global,
    app: &Text,
    job: &Job,
    out: &str,
    history: &History,
) -> Result<Outcome, Memory>
    ensures { IfOk result (λ o. o ≡ built app.now job.now out.now history.now.events) }
{
    let lines = print(alloc, history, job)?;
    let mut text = String::from_str(alloc, lines.as_str())?;
    push_last_line(app, job, history, &mut text)?;
    let mut files = Seq::new(alloc);
    files.push((history_name(alloc, out)?, Seq::from_vec(lines.into_bytes())))?;
    Ok(Outcome {
        status: build_status(history),
        text: Text::from_string(text),
        files,
    })
}

/// The name under which the history is written.
fn history_name(alloc: Global, out: &str) -> Result<Text, Memory>
    ensures { IfOk result (λ name. name ≡ history_name out.now) }
{
    let mut name = String::from_str(alloc, out)?;
    name.push_str("/history.txt")?;
    Ok(Text::from_string(name))
}

/// The status of a build that kept this history.
fn build_status(history: &History) -> u8
    ensures { result ≡ build_status (failure history.now.events) }
{
    match history.events().last() {
        Some(Event::Fail { .. }) => STEP_FAILED,
        _ => DONE,
    }
}
