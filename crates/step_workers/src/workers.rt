ghost use Rattle.std.specs.Prelude.{◌≡◌, ◌≤◌, IfOk};
ghost use Rattle.build_history.specs.Kinds.{IsFinished, IsLeastFirst};

use crate::begin::Claimed;
use crate::desk::Desk;
use crate::one::run_one;
use aug_base::Gate;
use build_history::{History, Job, Work};
use build_state::BuildState;
use item_types::Memory;
use std::alloc::Global;
use std::sync::Wait;
use std::thread;
use std::thread::Threads;
use step_hands::{Hands, make_hands};

/// Runs the job with so many workers, and gives a finished one-thread run. With one worker it is
/// `run_one`. It may wait.
///
/// Each worker calls `gate.pause` with its number, from 0, between a step's last take and its
/// evaluation.
///
/// # Errors
/// `Memory` for want of memory.
pub fn run_workers<R: Threads + Wait + Sync, G: Gate + Sync>(
    rt: &R,
    alloc: Global,
    job: &Job,
    workers: u32,
    gate: &G,
) -> Result<History, Memory>
    requires many { (1 ≤ workers) × (workers ≤ 64) }
    ensures done { IfOk result (λ h. IsFinished job.now h.events) }
    ensures least { workers ≡ 1 → IfOk result (λ h. IsLeastFirst job.now h.events) }
{
    if workers == 1 {
        return run_one(alloc, job);
    }
    let hands = make_hands(alloc, workers as usize)?;
    let state = BuildState::new(alloc, job)?;
    let mut state = together(rt, alloc, state, workers, hands, gate);
    if !state.job().same(job) {
        return run_one(alloc, job);
    }
    state.drain(alloc)?;
    Ok(state.into_history())
}

/// Has a worker for each of the hands at the state, and gives it back once all have left. Where no
/// thread can be made, this one does that worker's work.
fn together<'j, R: Threads + Wait + Sync, G: Gate + Sync>(
    rt: &R,
    alloc: Global,
    state: BuildState<'j>,
    workers: u32,
    all: Vec<Hands>,
    gate: &G,
) -> BuildState<'j> {
    let desk = Desk::new(state);
    let shared = &desk;
    thread::scope(thread::scope_env(), rt, |scope| {
        for (worker, hands) in (0..workers).zip(all) {
            match scope.spawn(move || work(rt, alloc, shared, hands, gate, worker)) {
                Ok(_) => {}
                Err(refused) => (refused.value)(),
            }
        }
    });
    desk.into_state()
}

/// The work of one worker: a step, and the next one, until nothing more can come.
fn work<'j, R: Wait, G: Gate>(
    rt: &R,
    alloc: Global,
    desk: &Desk<'j>,
    hands: Hands,
    gate: &G,
    worker: u32,
) {
    let mut hands = hands;
    for _ in rt.forever() {
        let Some(claimed) = desk.next(rt, alloc, &mut hands) else {
            return;
        };
        turn(rt, alloc, desk, &mut hands, gate, worker, claimed);
    }
    unreachable!()
}

/// Evaluates the step outside the lock, finishes it, and offers the steps that it released.
fn turn<'j, R: Wait, G: Gate>(
    rt: &R,
    alloc: Global,
    desk: &Desk<'j>,
    hands: &mut Hands,
    gate: &G,
    worker: u32,
    claimed: Claimed<'j>,
) {
    let Claimed { job, step, inputs } = claimed;
    gate.pause(worker, step);
    let made = Work::make(alloc, job, step, inputs);
    let left = desk.finish(rt, alloc, made);
    for step in left.released.as_slice() {
        hands.offer(*step);
    }
    desk.wake_for(&left);
}
