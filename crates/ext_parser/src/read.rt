ghost use Rattle.std.specs.Prelude.{◌≡◌, ◌⊎◌, Err, IfOk, IsTrue};
ghost use Rattle.item_types.specs.Numbered.{IsNumbered};
ghost use Rattle.project_fit.specs.Fits.{fits};
ghost use Rattle.ext_parser.specs.ProjectOfTheBytes.{project};

use crate::build::project_of;
use crate::fault::{ProjectFault, fault_of};
use crate::laws::{project_fits, project_is_numbered};
use crate::project::Project;
use crate::second_walk::second_walk;
use ext_draft::read_draft;
use std::alloc::Global;

#[tactic(auto, unfolding(crate::specs::ProjectOfTheBytes::project))]
fn read_bytes(alloc: Global, bytes: &[u8]) -> Result<Project, ProjectFault>
    ensures { (result ≡ Err ProjectFault.Memory) ⊎ (result ≡ project bytes.now) }
{
    let draft = match read_draft(alloc, bytes) {
        Ok(draft) => draft,
        Err(fault) => return Err(fault_of(fault)),
    };
    second_walk(alloc, &draft)?;
    project_of(alloc, &draft)
}

/// The project that a file's bytes write.
///
/// # Errors
/// The first fault in the file, in this order: `Limit` with the path `file` where there are more
/// than 1,048,576 bytes; `Toml`; `Field`, `Limit` or `Name` of the first walk; `Repeated` or
/// `Unknown` of the second; `Body` of the third.
/// `Memory` for want of memory.
pub fn read_project(alloc: Global, bytes: &[u8]) -> Result<Project, ProjectFault>
    ensures answer { (result ≡ Err ProjectFault.Memory) ⊎ (result ≡ project bytes.now) }
    ensures numbered { IfOk result (λ p. IsNumbered p.steps p.names.items p.finals) }
    ensures fits { IfOk result (λ p. IsTrue (fits p.names p.steps p.finals)) }
{
    project_is_numbered();
    project_fits();
    read_bytes(alloc, bytes)
}
