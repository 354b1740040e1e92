use crate::begin::{Claimed, begin};
use crate::finish::finish;
use build_history::Work;
use build_state::BuildState;
use item_types::{Memory, Seq};
use std::alloc::Global;
use std::sync::{Condvar, Mutex, Wait};
use step_hands::Hands;

/// What lies under the build lock.
#[derive(Drop)]
struct Shared<'j> {
    state: BuildState<'j>,
    /// How many workers hold a step.
    busy: u32,
    /// How many workers wait for one.
    waiting: u32,
}

/// What a finished step leaves: the steps that it released, and how many workers wait for one.
#[derive(Drop)]
pub(crate) struct Left {
    pub(crate) released: Seq<u32>,
    pub(crate) waiting: u32,
}

impl<'j> Shared<'j> {
    /// Whether nothing more can come: nobody holds a step, or something has halted.
    fn is_over(&self) -> bool {
        self.busy == 0 || self.state.is_halted()
    }

    /// Has a worker begin a step. Want of memory halts the state.
    fn begin(&mut self, alloc: Global, found: Option<u32>) -> Option<Claimed<'j>> {
        match begin(alloc, &mut self.state, found) {
            Ok(Some(claimed)) => {
                self.busy = self.busy.saturating_add(1);
                Some(claimed)
            }
            Ok(None) => None,
            Err(Memory) => {
                self.state.note_memory();
                None
            }
        }
    }

    /// Has a worker that holds a step finish it. Want of memory halts the state.
    fn finish(&mut self, alloc: Global, made: Result<Work<'j>, Memory>) -> Left {
        self.busy = self.busy.saturating_sub(1);
        let done = match made {
            Ok(work) => finish(alloc, &mut self.state, work),
            Err(Memory) => Err(Memory),
        };
        let released = match done {
            Ok(released) => released,
            Err(Memory) => {
                self.state.note_memory();
                Seq::new(alloc)
            }
        };
        Left {
            released,
            waiting: self.waiting,
        }
    }
}

/// The build lock, and the bell for those who wait for a step.
#[derive(Drop)]
pub(crate) struct Desk<'j> {
    lock: Mutex<Shared<'j>>,
    bell: Condvar,
}

impl<'j> Desk<'j> {
    /// A desk with this state.
    pub(crate) fn new(state: BuildState<'j>) -> Desk<'j> {
        Desk {
            lock: Mutex::new(Shared {
                state,
                busy: 0,
                waiting: 0,
            }),
            bell: Condvar::new(),
        }
    }

    /// The state, once all workers have left.
    pub(crate) fn into_state(self) -> BuildState<'j> {
        let Desk { lock, bell: _ } = self;
        let Shared {
            state,
            busy: _,
            waiting: _,
        } = lock.into_inner();
        state
    }

    /// The next step for a worker. It waits while a step may still be released by another worker;
    /// `None` where nothing more can come.
    pub(crate) fn next<R: Wait>(
        &self,
        rt: &R,
        alloc: Global,
        hands: &mut Hands,
    ) -> Option<Claimed<'j>> {
        for _ in rt.forever() {
            let found = hands.find();
            let mut shared = self.lock.lock(rt);
            let claimed = shared.begin(alloc, found);
            if claimed.is_some() {
                return claimed;
            }
            if shared.is_over() {
                drop(shared);
                self.bell.notify_all();
                return None;
            }
            shared.waiting = shared.waiting.saturating_add(1);
            let mut woken = self.bell.wait(rt, shared);
            woken.waiting = woken.waiting.saturating_sub(1);
            drop(woken);
        }
        unreachable!()
    }

    /// Has a worker finish its step.
    pub(crate) fn finish<R: Wait>(
        &self,
        rt: &R,
        alloc: Global,
        made: Result<Work<'j>, Memory>,
    ) -> Left {
        self.lock.lock(rt).finish(alloc, made)
    }

    /// Wakes one who waits for each released step but the one that the worker goes on with.
    pub(crate) fn wake_for(&self, left: &Left) {
        let others = left.released.len().saturating_sub(1);
        for _ in 0..others.min(left.waiting as usize) {
            self.bell.notify_one();
        }
    }
}
