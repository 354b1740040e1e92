ghost use Rattle.std.specs.Prelude.{◌≡◌, IfOk};
ghost use Rattle.item_types.specs.Numbered.{IsNumbered};
ghost use Rattle.ext_parser.specs.ProjectOfTheBytes.{project};
ghost use Rattle.quarkus_cli.specs.Answers.{AnswersCommand, outside};
ghost use Rattle.quarkus_cli.specs.Outcomes.{OfRead, OfChain, OfPlan};

use crate::delivery::deliver;
use crate::reading::{PROJECT_LIMIT, read_input};
use crate::refusals::{chain_refused, project_refused, said};
use crate::status::{DONE, NO_MEMORY};
use crate::{Command, Outcome};
use aug_base::{Shelf, Sink};
use build_report::report_plan;
use chain_builder::{ChainFault, build_chain};
use ext_parser::{Project, ProjectFault, project_of_cut_bytes, read_project};
use item_types::Memory;
use std::alloc::Global;

/// Does `plan FILE`: reads the project, builds its chain and prints the plan, or why there is
/// none. It waits for nobody.
pub fn plan_call<S: Shelf, K: Sink>(alloc: Global, file: &str, shelf: &mut S, sink: &mut K) -> u8
    ensures answers { AnswersCommand (Command.Plan file.now) (outside (S.state shelf.old) (K.state sink.old)) (outside (S.state shelf.new) (K.state sink.new)) result }
{
    project_of_cut_bytes();
    let bytes = match read_input(alloc, shelf, file, PROJECT_LIMIT) {
        Ok(bytes) => bytes,
        Err(status) => return status,
    };
    match plan_outcome(alloc, bytes.as_slice()) {
        Ok(outcome) => deliver(&outcome, shelf, sink),
        Err(Memory) => NO_MEMORY,
    }
}

/// What `plan` comes to over a file's bytes.
fn plan_outcome(alloc: Global, bytes: &[u8]) -> Result<Outcome, Memory>
    ensures { IfOk result (λ o. OfRead (OfChain OfPlan) (project bytes.now) o) }
{
    match read_project(alloc, bytes) {
        Ok(project) => plan_project(alloc, &project),
        Err(ProjectFault::Memory) => Err(Memory),
        Err(fault) => project_refused(alloc, &fault),
    }
}

/// What `plan` comes to over a project.
fn plan_project(alloc: Global, project: &Project) -> Result<Outcome, Memory>
    requires { IsNumbered project.now.steps project.now.names.items project.now.finals }
    ensures { IfOk result (λ o. OfChain OfPlan project.now o) }
{
    match build_chain(alloc, &project.steps, &project.names.items, &project.finals) {
        Ok(plan) => {
            let text = report_plan(alloc, &project.app, &plan)?;
            Ok(said(alloc, DONE, text))
        }
        Err(ChainFault::Memory) => Err(Memory),
        Err(fault) => chain_refused(alloc, project, &fault),
    }
}
