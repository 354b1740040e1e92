ghost use Rattle.std.specs.Prelude.{◌≤◌};

use crate::jobs::job_of;
use crate::meet::Meet;
use item_types::Memory;
use std::alloc::Global;
use std::sync::Wait;
use std::thread::Threads;
use step_workers::run_workers;

pub const TWO: &str = r#"
format = 1
app = "two"
finals = ["A", "B"]
extensions = [{name = "e", items = [{name = "A", kind = "empty"}, {name = "B", kind = "empty"}], steps = [
  {name = "a", produces = ["A"]}, {name = "b", produces = ["B"]}]}]
"#;

pub const FOUR: &str = r#"
format = 1
app = "four"
finals = ["A", "B", "C", "D"]
extensions = [{name = "e", items = [{name = "A", kind = "empty"}, {name = "B", kind = "empty"},
  {name = "C", kind = "empty"}, {name = "D", kind = "empty"}], steps = [
  {name = "a", produces = ["A"]}, {name = "b", produces = ["B"]},
  {name = "c", produces = ["C"]}, {name = "d", produces = ["D"]}]}]
"#;

pub const FORK: &str = r#"
format = 1
app = "fork"
finals = ["A", "B"]
extensions = [{name = "e", items = [{name = "T", kind = "simple"}, {name = "A", kind = "empty"},
  {name = "B", kind = "empty"}], steps = [
  {name = "t", produces = ["T"], body = 'produce T(1);'},
  {name = "a", consumes = ["T"], produces = ["A"]}, {name = "b", consumes = ["T"], produces = ["B"]}]}]
"#;

/// Whether so many workers run each step of the project once, the pauses see all that they look
/// at, and the history has so many events.
fn meet<R: Threads + Wait + Sync>(
    rt: &R,
    alloc: Global,
    text: &str,
    workers: u32,
    others: &'static [&'static [u32]],
    events: usize,
) -> Result<bool, Memory>
    requires { (1 ≤ workers) × (workers ≤ 64) }
{
    let job = job_of(alloc, text)?;
    let gate = Meet::new(alloc, workers, others.len(), others)?;
    let history = run_workers(rt, alloc, &job, workers, &gate)?;
    Ok(history.events().len() == events && gate.saw_all(others.len()))
}

#[test]
fn two_evaluations_run_side_by_side(rt: HostRuntime) -> Result<(), Memory> {
    assert!(&rt; meet(&rt, rt.alloc(), TWO, 2, &[&[1], &[0]], 4)?);
    Ok(())
}

#[test]
fn four_evaluations_run_side_by_side(rt: HostRuntime) -> Result<(), Memory> {
    let others: &[&[u32]] = &[&[1, 2, 3], &[0, 2, 3], &[0, 1, 3], &[0, 1, 2]];
    assert!(&rt; meet(&rt, rt.alloc(), FOUR, 4, others, 8)?);
    Ok(())
}

#[test]
fn two_evaluations_run_side_by_side_once_they_are_released(rt: HostRuntime) -> Result<(), Memory> {
    assert!(&rt; meet(&rt, rt.alloc(), FORK, 2, &[&[], &[2], &[1]], 9)?);
    Ok(())
}
