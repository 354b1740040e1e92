ghost use Rattle.std.specs.Prelude.{◌≡◌, ℕ, ◌<◌, ◌≤◌, ◌^◌, length, vec_len, Contains, IfOk, OnOk, slice_index};
ghost use Rattle.chain_builder.specs.Rows.{AreBelow, IsTransposed};
ghost use Rattle.chain_builder.specs.Core.{Releases, AreOutside, AreLeftWithOne, AreInOrder};

use crate::marks::Marks;
use item_types::{Memory, Seq};
use std::alloc::Global;

/// The first place, from a place on, of a number that is not removed, or the row's length.
pub fn first_left(row: &[u32], from: usize, removed: &Marks) -> usize
    requires { (j : ℕ) → j < from → j < length row.now → Contains removed.now.items (slice_index row.now j) }
    ensures within { result ≤ length row.now }
    ensures passed { (j : ℕ) → j < result → Contains removed.now.items (slice_index row.now j) }
    ensures left { result < length row.now → Contains removed.now.items (slice_index row.now result) → ⊥ }
{
    for place in from..row.len() {
        if !removed.contains(row[place]) {
            return place;
        }
    }
    row.len()
}

/// Moves the place of `d` over what is removed, and removes `d` at the end of its row.
fn release(removed: &mut Marks, next: &mut Vec<usize>, row: &[u32], d: u32) -> Result<(), Memory>
    requires step { d < removed.old.limit }
    requires width { removed.old.limit ≡ vec_len next.old }
    requires passed { (j : ℕ) → j < slice_index next.old.items d → j < length row.now → Contains removed.old.items (slice_index row.now j) }
    ensures { OnOk result (Releases removed.old next.old.items row.now d removed.new next.new.items) }
{
    let place = first_left(row, next[d as usize], removed);
    next[d as usize] = place;
    if place == row.len() {
        removed.add(d)?;
    }
    Ok(())
}

/// The numbers outside the greatest set of which each has one of the set in its row, each after
/// those in its row.
pub fn removed_steps(
    alloc: Global,
    into: &[Seq<u32>],
    dependents: &[Seq<u32>],
) -> Result<Marks, Memory>
    requires few { length into.now < 2 ^ 32 }
    requires below { AreBelow into.now (length into.now) }
    requires dependents { IsTransposed into.now dependents.now }
    requires width { length dependents.now ≡ length into.now }
    ensures limit { IfOk result (λ removed. removed.limit ≡ length into.now) }
    ensures outside { IfOk result (λ removed. AreOutside into.now removed) }
    ensures left { IfOk result (λ removed. AreLeftWithOne into.now removed) }
    ensures order { IfOk result (λ removed. AreInOrder into.now removed.items) }
{
    let mut removed = Marks::new(alloc, into.len())?;
    let mut next = vec![in alloc; 0usize; into.len()]?;
    for s in 0..into.len() {
        release(&mut removed, &mut next, into[s].as_slice(), s as u32)?;
    }
    let mut at = 0;
    while at < removed.len() {
        let x = removed.get(at);
        let waiting = dependents[x as usize].as_slice();
        for d in waiting {
            release(&mut removed, &mut next, into[*d as usize].as_slice(), *d)?;
        }
        at += 1;
    }
    Ok(removed)
}
