ghost use Rattle.std.specs.Prelude.{◌≡◌, length, IfOk, Ok};
ghost use Rattle.item_types.specs.Numbered.{IsNumbered};
ghost use Rattle.ext_parser.specs.ProjectOfTheBytes.{project};
ghost use Rattle.quarkus_cli.specs.Prepared.{IsPrepared};

use crate::Outcome;
use crate::refusals::{chain_refused, project_refused};
use build_history::Job;
use chain_builder::{ChainFault, build_chain};
use ext_parser::{Project, ProjectFault, read_project};
use item_types::{Memory, Text};
use project_job::a_body_for_each_step;
use std::alloc::Global;

/// What a file's bytes hold to be run.
#[derive(Drop)]
pub enum Prepared {
    /// The project's name and its job.
    Ready { app: Text, job: Job },
    /// What comes of bytes that are no project, or of a project whose chain isn't accepted.
    Refused(Outcome),
}

/// Reads a project and builds its chain.
///
/// # Errors
/// `Memory` for want of memory.
pub fn prepare(alloc: Global, bytes: &[u8]) -> Result<Prepared, Memory>
    ensures { IfOk result (IsPrepared bytes.now) }
{
    a_body_for_each_step();
    match read_project(alloc, bytes) {
        Ok(found) => prepare_project(alloc, bytes, found),
        Err(ProjectFault::Memory) => Err(Memory),
        Err(fault) => Ok(Prepared::Refused(project_refused(alloc, &fault)?)),
    }
}

/// Builds the chain of the project that the bytes hold.
fn prepare_project(alloc: Global, bytes: &[u8], found: Project) -> Result<Prepared, Memory>
    requires numbered { IsNumbered found.steps found.names.items found.finals }
    requires bodies { length found.bodies ≡ length found.steps }
    requires held { project bytes.now ≡ Ok found }
    ensures { IfOk result (IsPrepared bytes.now) }
{
    match build_chain(alloc, &found.steps, &found.names.items, &found.finals) {
        Ok(plan) => {
            let Project {
                app,
                names,
                bodies,
                ..
            } = found;
            Ok(Prepared::Ready {
                app,
                job: Job::new(plan, names, bodies),
            })
        }
        Err(ChainFault::Memory) => Err(Memory),
        Err(fault) => Ok(Prepared::Refused(chain_refused(alloc, &found, &fault)?)),
    }
}
