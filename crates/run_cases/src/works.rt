use crate::jobs::{HANDED_ON, job_of};
use build_history::{Job, Work, print};
use build_state::{Act, BuildState, HandIn, Mark};
use item_types::{Memory, Seq, Value};
use std::alloc::Global;
use step_eval::Inputs;

/// Inputs of one list, which has this number alone.
fn inputs_of(alloc: Global, number: i64) -> Result<Inputs, Memory> {
    let mut list = Seq::new(alloc);
    list.push(Value::Long(number))?;
    let mut lists = Seq::new(alloc);
    lists.push(list)?;
    Ok(Inputs { lists })
}

/// The state after the producer has ended and the consumer has taken.
fn ready_state<'j>(alloc: Global, job: &'j Job) -> Result<BuildState<'j>, Memory> {
    let mut state = BuildState::new(alloc, job)?;
    let moves = [
        Act::Claim(1),
        Act::Eval(1),
        Act::Put(1),
        Act::End(1),
        Act::Claim(0),
        Act::Take(0),
    ];
    for act in &moves {
        state.make_move(alloc, *act)?;
    }
    Ok(state)
}

/// Hands in the work of the consumer on this number, and tells whether it came back.
fn comes_back<'j>(alloc: Global, state: &mut BuildState<'j>, number: i64) -> Result<bool, Memory> {
    let job = state.job();
    if job.plan().steps().len() == 0 || state.is_halted() {
        return Err(Memory);
    }
    let work = Work::make(alloc, job, 0, inputs_of(alloc, number)?)?;
    match state.mark(0) {
        Mark::Ready => {}
        _ => return Err(Memory),
    }
    match state.hand_in(alloc, work) {
        Ok(()) => Ok(false),
        Err(HandIn::Foreign(work)) => Ok(work.step() == 0 && work.inputs().lists.len() == 1),
        Err(HandIn::Memory(_)) => Err(Memory),
    }
}

const TAKEN: &str = "start a.p\nput a.p T 5\nend a.p 0\nstart a.c\ntake a.c T (5)\n";

/// Whether the work on 6 comes back, the one on 5 is kept, and neither changes the history.
fn works_are_right(alloc: Global, job: &Job) -> Result<bool, Memory> {
    let mut state = ready_state(alloc, job)?;
    let first = comes_back(alloc, &mut state, 6)?;
    let second = comes_back(alloc, &mut state, 5)?;
    let text = print(alloc, state.history(), job)?;
    Ok(first && !second && text.as_str() == TAKEN)
}

/// Whether this holds of the job whose consumer hands on what it takes.
fn handed_on_is_right(alloc: Global) -> Result<bool, Memory> {
    let job = job_of(alloc, HANDED_ON)?;
    works_are_right(alloc, &job)
}

#[test]
fn a_work_on_other_inputs_comes_back(rt: HostRuntime) -> Result<(), Memory> {
    assert!(&rt; handed_on_is_right(rt.alloc())?);
    Ok(())
}
