use crate::described::described;
use build_report::report_project;
use ext_parser::{Project, ProjectFault, fits, read_project};
use item_types::Memory;
use std::alloc::Global;

/// What a reading of the file answers: the text of its first fault, or else `ok` where that is
/// asked for, or the project in one line.
pub fn answer_of(alloc: Global, file: &str, brief: bool) -> Result<String, Memory> {
    match read_project(alloc, file.as_bytes()) {
        Ok(project) => answer_for(alloc, &project, brief),
        Err(ProjectFault::Memory) => Err(Memory),
        Err(fault) => report_project(alloc, &fault),
    }
}

fn answer_for(alloc: Global, project: &Project, brief: bool) -> Result<String, Memory> {
    if !fits(alloc, &project.names, &project.steps, &project.finals)? {
        return Ok(String::from_str(alloc, "what it declares doesn't fit")?);
    }
    if brief {
        return Ok(String::from_str(alloc, "ok")?);
    }
    described(alloc, project)
}
