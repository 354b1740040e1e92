use crate::jobs::{ONE_FAILS, TWO_PRODUCERS, job_of};
use build_history::{Job, print};
use build_state::{Act, BuildState};
use item_types::{Memory, Seq};
use recorder_proxy::Recording;
use std::alloc::Global;

/// Whether these moves, and then a drain, leave a history of this text.
fn leaves(alloc: Global, job: &Job, moves: &[Act], text: &str) -> Result<bool, Memory> {
    let state = BuildState::play(alloc, job, moves)?;
    let printed = print(alloc, state.history(), job)?;
    Ok(printed.as_str() == text)
}

/// Whether these moves, and then a drain, leave recordings of just these steps, in this order.
fn records(alloc: Global, job: &Job, moves: &[Act], steps: &[u32]) -> Result<bool, Memory> {
    let state = BuildState::play(alloc, job, moves)?;
    let recordings = state.history().recordings(alloc, job)?;
    Ok(are_of(&recordings, steps))
}

/// Whether the recordings are of these steps.
fn are_of(recordings: &Seq<Recording>, steps: &[u32]) -> bool {
    let mut all = recordings.len() == steps.len();
    for (recording, step) in recordings.as_slice().iter().zip(steps) {
        all = all && recording.step == *step;
    }
    all
}

const TAKEN_IN_TURN: [Act; 9] = [
    Act::Claim(0),
    Act::Claim(1),
    Act::Eval(0),
    Act::Eval(1),
    Act::Put(0),
    Act::Put(1),
    Act::Put(0),
    Act::End(1),
    Act::End(0),
];

const ONE_BY_ONE: [Act; 5] = [
    Act::Claim(0),
    Act::Eval(0),
    Act::Put(0),
    Act::Put(0),
    Act::End(0),
];

const NOT_YET: [Act; 4] = [Act::Claim(2), Act::Put(0), Act::Claim(9), Act::End(1)];

const FAILING: [Act; 7] = [
    Act::Claim(0),
    Act::Eval(0),
    Act::Put(0),
    Act::Claim(1),
    Act::Eval(1),
    Act::Fail(1),
    Act::Put(0),
];

const IN_TURN_TEXT: &str =
    "start a.x\nstart a.y\nput a.x M \"a\"\nput a.y M \"b\"\nput a.x M \"c\"\nend a.y 0\nend a.x 0\nstart a.z\ntake a.z M (\"a\", \"b\", \"c\")\nend a.z 0\n";

const ONE_BY_ONE_TEXT: &str =
    "start a.x\nput a.x M \"a\"\nput a.x M \"c\"\nend a.x 0\nstart a.y\nput a.y M \"b\"\nend a.y 0\nstart a.z\ntake a.z M (\"a\", \"c\", \"b\")\nend a.z 0\n";

const FAILING_TEXT: &str = "start a.x\nput a.x M \"a\"\nstart a.y\nfail a.y \"no\"\n";

/// Whether all that is said of the job of two producers holds.
fn two_producers_are_right(alloc: Global) -> Result<bool, Memory> {
    let job = job_of(alloc, TWO_PRODUCERS)?;
    Ok(
        leaves(alloc, &job, &TAKEN_IN_TURN, IN_TURN_TEXT)?
            && leaves(alloc, &job, &ONE_BY_ONE, ONE_BY_ONE_TEXT)?
            && leaves(alloc, &job, &NOT_YET, ONE_BY_ONE_TEXT)?,
    )
}

/// Whether its recordings stand in the order of the ends.
fn recordings_are_right(alloc: Global) -> Result<bool, Memory> {
    let job = job_of(alloc, TWO_PRODUCERS)?;
    Ok(
        records(alloc, &job, &TAKEN_IN_TURN, &[1, 0])?
            && records(alloc, &job, &ONE_BY_ONE, &[0, 1])?,
    )
}

/// Whether nothing follows the failure.
fn failure_is_last(alloc: Global) -> Result<bool, Memory> {
    let job = job_of(alloc, ONE_FAILS)?;
    leaves(alloc, &job, &FAILING, FAILING_TEXT)
}

#[test]
fn values_stand_in_the_order_of_their_puts(rt: HostRuntime) -> Result<(), Memory> {
    assert!(&rt; two_producers_are_right(rt.alloc())?);
    Ok(())
}

#[test]
fn recordings_stand_in_the_order_of_the_ends(rt: HostRuntime) -> Result<(), Memory> {
    assert!(&rt; recordings_are_right(rt.alloc())?);
    Ok(())
}

#[test]
fn nothing_follows_a_failure(rt: HostRuntime) -> Result<(), Memory> {
    assert!(&rt; failure_is_last(rt.alloc())?);
    Ok(())
}
