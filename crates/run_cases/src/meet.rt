use aug_base::Gate;
use std::alloc::{AllocError, Global};
use std::sync::atomic::{AtomicU64, Ordering};

/// How often a pause looks at the others at most.
const LOOKS: u64 = 100_000_000;

/// A gate that counts its calls, and at which a step waits a while until others are there.
#[derive(Drop)]
pub struct Meet {
    workers: u32,
    /// For each step those that it waits for; none for a step that isn't there.
    others: &'static [&'static [u32]],
    /// How often each step's pause was called.
    calls: Vec<AtomicU64>,
    /// How many pauses saw all that they look at.
    met: AtomicU64,
    /// How many pauses got the number of a step or a worker that there isn't.
    strangers: AtomicU64,
}

impl Meet {
    /// A gate for so many workers and steps.
    pub fn new(
        alloc: Global,
        workers: u32,
        steps: usize,
        others: &'static [&'static [u32]],
    ) -> Result<Meet, AllocError> {
        let mut calls = Vec::new(alloc);
        for _ in 0..steps {
            calls.push(AtomicU64::new(0))?;
        }
        Ok(Meet {
            workers,
            others,
            calls,
            met: AtomicU64::new(0),
            strangers: AtomicU64::new(0),
        })
    }

    /// How often the step's pause was called.
    fn calls(&self, step: u32) -> u64 {
        match self.calls.get(step as usize) {
            Some(calls) => calls.load(Ordering::SeqCst),
            None => 0,
        }
    }

    /// Whether each of the first `needed` steps paused exactly once and no other did, each pause got
    /// a step's and a worker's number, and each saw all that it looks at.
    pub fn saw_all(&self, needed: usize) -> bool {
        let mut all = self.met.load(Ordering::SeqCst) == needed as u64;
        all = all && self.strangers.load(Ordering::SeqCst) == 0;
        for (step, calls) in self.calls.iter().enumerate() {
            all = all && calls.load(Ordering::SeqCst) == u64::from(step < needed);
        }
        all
    }

    /// Whether all that the step waits for are there, or come while it looks.
    fn sees(&self, step: u32) -> bool {
        let Some(others) = self.others.get(step as usize) else {
            return true;
        };
        for _ in 0..LOOKS {
            if others.iter().all(|other| self.calls(*other) > 0) {
                return true;
            }
        }
        false
    }
}

impl Gate for Meet {
    fn pause(&self, worker: u32, step: u32) {
        match self.calls.get(step as usize) {
            Some(calls) if worker < self.workers => {
                calls.fetch_add(1, Ordering::SeqCst);
            }
            _ => {
                self.strangers.fetch_add(1, Ordering::SeqCst);
            }
        }
        if self.sees(step) {
            self.met.fetch_add(1, Ordering::SeqCst);
        }
    }
}
