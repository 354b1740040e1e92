ghost use Rattle.std.specs.Prelude.{◌≡◌, ◌++◌, codes, string_bytes, IfOk};
ghost use Rattle.item_types.specs.Numbered.{IsNumbered};
ghost use Rattle.chain_builder.specs.Fault.{IsFault};
ghost use Rattle.quarkus_cli.specs.Outcomes.{said, no_project, no_chain, no_class};

use crate::Outcome;
use crate::status::{NO_CHAIN, NO_CLASS, NO_PROJECT};
use build_report::report_project;
use chain_builder::{ChainFault, fault_is_named};
use ext_parser::{Project, ProjectFault};
use item_types::{Memory, Seq, Text};
use std::alloc::Global;

/// An outcome that writes no file.
pub fn said(alloc: Global, status: u8, text: String) -> Outcome
    ensures { result ≡ said status (string_bytes text) }
{
    Outcome {
        status,
        text: Text::from_string(text),
        files: Seq::new(alloc),
    }
}

/// What comes of a file that is no project.
///
/// # Errors
/// `Memory` for want of memory.
pub fn project_refused(alloc: Global, fault: &ProjectFault) -> Result<Outcome, Memory>
    requires { fault.now ≡ ProjectFault.Memory → ⊥ }
    ensures { IfOk result (λ o. o ≡ no_project fault.now) }
{
    let fault = report_project(alloc, fault)?;
    let line = refusal(alloc, "project refused: ", fault.as_str())?;
    Ok(said(alloc, NO_PROJECT, line))
}

/// What comes of a project whose chain has a fault.
///
/// # Errors
/// `Memory` for want of memory.
pub fn chain_refused(
    alloc: Global,
    project: &Project,
    fault: &ChainFault,
) -> Result<Outcome, Memory>
    requires numbered { IsNumbered project.now.steps project.now.names.items project.now.finals }
    requires not_memory { fault.now ≡ ChainFault.Memory → ⊥ }
    requires fault { IsFault project.now.steps project.now.names.items project.now.finals fault.now }
    ensures { IfOk result (λ o. o ≡ no_chain project.now fault.now) }
{
    fault_is_named();
    let fault = fault.text(alloc, &project.steps, &project.names.items)?;
    let line = refusal(alloc, "chain refused: ", fault.as_str())?;
    Ok(said(alloc, NO_CHAIN, line))
}

/// What comes of a file of that name that is no class file.
///
/// # Errors
/// `Memory` for want of memory.
pub fn class_refused(alloc: Global, name: &str, fault: &str) -> Result<Outcome, Memory>
    ensures { IfOk result (λ o. o ≡ no_class name.now fault.now) }
{
    let mut what = String::from_str(alloc, name)?;
    what.push_str(": ")?;
    what.push_str(fault)?;
    let line = refusal(alloc, "classes refused: ", what.as_str())?;
    Ok(said(alloc, NO_CLASS, line))
}

/// A line of two parts.
fn refusal(alloc: Global, refused: &str, fault: &str) -> Result<String, Memory>
    ensures { IfOk result (λ line. string_bytes line ≡ refused.now ++ fault.now ++ codes "\n") }
{
    let mut line = String::from_str(alloc, refused)?;
    line.push_str(fault)?;
    line.push_str("\n")?;
    Ok(line)
}
