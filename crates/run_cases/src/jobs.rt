ghost use Rattle.std.specs.Prelude.{◌≡◌, IfOk};
ghost use Rattle.item_types.specs.Numbered.{IsNumbered};

use build_history::Job;
use chain_builder::{Plan, build_chain};
use ext_parser::{Project, read_project};
use item_types::Memory;
use std::alloc::Global;

fn plan_of(alloc: Global, project: &Project) -> Result<Plan, Memory>
    requires { IsNumbered project.now.steps project.now.names.items project.now.finals }
    ensures steps { IfOk result (λ p. p.steps ≡ project.now.steps) }
    ensures items { IfOk result (λ p. p.items ≡ project.now.names.items) }
{
    match build_chain(alloc, &project.steps, &project.names.items, &project.finals) {
        Ok(plan) => Ok(plan),
        Err(_) => Err(Memory),
    }
}

/// The job of a project file that has one.
pub fn job_of(alloc: Global, text: &str) -> Result<Job, Memory> {
    let Ok(project) = read_project(alloc, text.as_bytes()) else {
        return Err(Memory);
    };
    let plan = plan_of(alloc, &project)?;
    let Project {
        names,
        steps,
        bodies,
        ..
    } = project;
    if bodies.len() != steps.len() {
        return Err(Memory);
    }
    Ok(Job::new(plan, names, bodies))
}

/// Two steps that produce an item, and one that consumes it.
pub const TWO_PRODUCERS: &str = r#"
format = 1
app = "two"
finals = ["Done"]
extensions = [{name = "a", items = [{name = "M", kind = "multi"}, {name = "Done", kind = "empty"}], steps = [
  {name = "x", produces = ["M"], record = "static", body = 'produce M("a"); produce M("c");'},
  {name = "y", produces = ["M"], record = "static", body = 'produce M("b");'},
  {name = "z", consumes = ["M"], produces = ["Done"]}]}]
"#;

/// The same without phases, where the second step fails.
pub const ONE_FAILS: &str = r#"
format = 1
app = "fails"
finals = ["Done"]
extensions = [{name = "a", items = [{name = "M", kind = "multi"}, {name = "Done", kind = "empty"}], steps = [
  {name = "x", produces = ["M"], body = 'produce M("a"); produce M("c");'},
  {name = "y", produces = ["M"], body = 'fail "no";'},
  {name = "z", consumes = ["M"], produces = ["Done"]}]}]
"#;

/// A step that hands on what the other one produces.
pub const HANDED_ON: &str = r#"
format = 1
app = "handed"
finals = ["V"]
extensions = [{name = "a", items = [{name = "T", kind = "simple"}, {name = "V", kind = "simple"}], steps = [
  {name = "c", consumes = ["T optional"], produces = ["V"], body = 'produce V(get T);'},
  {name = "p", produces = ["T"], body = 'produce T(5);'}]}]
"#;
