ghost use Rattle.std.specs.Prelude.{◌≡◌, ◌<◌, length, IfOk, IfSome, vec_len};

use crate::protocol::{Owner, STEP_LIMIT, Thief, make_owner, pop, push, steal};
use item_types::Memory;
use std::alloc::{AllocError, Global};

/// A worker's own deque, and the stealers of the others.
#[derive(Drop)]
pub struct Hands {
    own: Owner,
    others: Vec<Thief>,
}

impl Hands {
    /// Puts a released step into the worker's own deque.
    ///
    /// A step whose number isn't below 2,048, or for which the deque can't grow, is left out: it
    /// stays released, and whoever asks the build state finds it.
    pub fn offer(&mut self, step: u32) {
        if step < STEP_LIMIT {
            push(&mut self.own, step);
        }
    }

    /// The step at the front of the worker's own deque, or else one stolen from the front of
    /// another, trying each once. It takes no memory.
    pub fn find(&mut self) -> Option<u32>
        ensures { IfSome result (λ step. step < 2048) }
    {
        if let Some(step) = pop(&mut self.own) {
            return Some(step);
        }
        for other in self.others.iter() {
            if let Some(step) = steal(other) {
                return Some(step);
            }
        }
        None
    }
}

/// The hands of so many workers, each with an empty deque of its own.
///
/// # Errors
/// `Memory` for want of memory.
pub fn make_hands(alloc: Global, workers: usize) -> Result<Vec<Hands>, Memory>
    ensures { IfOk result (λ all. vec_len all ≡ workers) }
{
    let owners = make_owners(alloc, workers)?;
    let stealers = make_stealers(alloc, owners.as_slice())?;
    Ok(paired(alloc, owners, stealers)?)
}

/// So many empty deques.
fn make_owners(alloc: Global, workers: usize) -> Result<Vec<Owner>, AllocError>
    ensures { IfOk result (λ owners. vec_len owners ≡ workers) }
{
    let mut owners = Vec::new(alloc);
    for _ in 0..workers {
        owners.push(make_owner(alloc)?)?;
    }
    Ok(owners)
}

/// For each of the deques the stealers of the others.
fn make_stealers(alloc: Global, owners: &[Owner]) -> Result<Vec<Vec<Thief>>, AllocError>
    ensures { IfOk result (λ stealers. vec_len stealers ≡ length owners.now) }
{
    let mut stealers = Vec::new(alloc);
    for worker in 0..owners.len() {
        stealers.push(stealers_but(alloc, owners, worker)?)?;
    }
    Ok(stealers)
}

/// The stealers of all deques but this one.
fn stealers_but(alloc: Global, owners: &[Owner], but: usize) -> Result<Vec<Thief>, AllocError> {
    let mut stealers = Vec::new(alloc);
    for (i, owner) in owners.iter().enumerate() {
        if i != but {
            stealers.push(owner.stealer()?)?;
        }
    }
    Ok(stealers)
}

/// Each deque with the stealers at its place.
fn paired(
    alloc: Global,
    owners: Vec<Owner>,
    stealers: Vec<Vec<Thief>>,
) -> Result<Vec<Hands>, AllocError>
    requires { vec_len stealers ≡ vec_len owners }
    ensures { IfOk result (λ all. vec_len all ≡ vec_len owners) }
{
    let mut all = Vec::new(alloc);
    for (own, others) in owners.into_iter().zip(stealers) {
        all.push(Hands { own, others })?;
    }
    Ok(all)
}
