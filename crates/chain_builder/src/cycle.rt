ghost use Rattle.std.specs.Prelude.{◌≡◌, ℕ, ◌<◌, ◌≤◌, ◌^◌, length, Contains, ◌↔◌, IfOk, IfSome, IfNone, slice_index};
ghost use Rattle.std.specs.List.Sorted.{IsStrictlyIncreasing};
ghost use Rattle.chain_builder.specs.Rows.{row, AreBelow, AreAscending};
ghost use Rattle.chain_builder.specs.Core.{AreOutside, AreLeftWithOne, AreInOrder};
ghost use Rattle.chain_builder.specs.Edge.{HasEdge};
ghost use Rattle.chain_builder.specs.ChainFaults.{IsCycle, HasNoCycle};
ghost use Rattle.chain_builder.specs.Rank.{HasRank};
ghost use Rattle.chain_builder.specs.Turn.{IsFirstLeft, IsReturn, IsTurned};

use crate::core_steps::first_left;
use crate::marks::Marks;
use item_types::{Memory, Seq, StepDecl};
use std::alloc::Global;

/// The least number of a row that is not removed.
fn next_in_core(row: &[u32], removed: &Marks) -> u32
    requires ascending { IsStrictlyIncreasing row.now }
    requires some { (p : ℕ) × Contains row.now p × (Contains removed.now.items p → ⊥) }
    ensures { IsFirstLeft row.now removed.now.items result }
{
    row[first_left(row, 0, removed)]
}

/// The place of the least number.
fn least_place(list: &[u32]) -> usize
    requires { 0 < length list.now }
    ensures within { result < length list.now }
    ensures least { (k : ℕ) → k < length list.now → slice_index list.now result ≤ slice_index list.now k }
{
    let mut least = 0;
    for k in 1..list.len() {
        if list[k] < list[least] {
            least = k;
        }
    }
    least
}

/// The place of a number in a list that has it.
fn place_of(list: &[u32], x: u32) -> usize
    requires { Contains list.now x }
    ensures within { result < length list.now }
    ensures place { slice_index list.now result ≡ x }
{
    let mut place = 0;
    for k in 0..list.len() {
        if list[k] == x {
            place = k;
        }
    }
    place
}

/// The part from `back` on, against its order and from its least number on.
fn turned(alloc: Global, walk: &[u32], back: usize) -> Result<Seq<u32>, Memory>
    requires { back < length walk.now }
    ensures { IfOk result (λ cycle. IsTurned walk.now back cycle) }
{
    let mut backwards = Seq::new(alloc);
    for k in back..walk.len() {
        backwards.push(walk[walk.len() - 1 - (k - back)])?;
    }
    let least = least_place(backwards.as_slice());
    let mut cycle = Vec::from_slice(alloc, &backwards.as_slice()[least..])?;
    cycle.extend_from_slice(&backwards.as_slice()[..least])?;
    Ok(Seq::from_vec(cycle))
}

/// The walk from the least number that isn't removed, until it comes back, and where it comes back.
fn walk_back(
    alloc: Global,
    into: &[Seq<u32>],
    removed: &Marks,
    start: u32,
) -> Result<(Marks, u32), Memory>
    requires few { length into.now < 2 ^ 32 }
    requires below { AreBelow into.now (length into.now) }
    requires ascending { AreAscending into.now }
    requires left { AreLeftWithOne into.now removed.now }
    requires within { start < length into.now }
    requires start { Contains removed.now.items start → ⊥ }
    ensures { IfOk result (λ r. IsReturn into.now removed.now.items start r.0.items r.1) }
{
    let mut walk = Marks::new(alloc, into.len())?;
    let mut step = start;
    while !walk.contains(step) {
        walk.add(step)?;
        step = next_in_core(into[step as usize].as_slice(), removed);
    }
    Ok((walk, step))
}

/// The least number that isn't removed.
fn first_in_core(limit: usize, removed: &Marks) -> Option<u32>
    requires { limit < 2 ^ 32 }
    ensures found { IfSome result (λ s. (s < limit) × (Contains removed.now.items s → ⊥) × ((k : ℕ) → k < s → Contains removed.now.items k)) }
    ensures none { IfNone result ((k : ℕ) → k < limit → Contains removed.now.items k) }
{
    for s in 0..limit {
        if !removed.contains(s as u32) {
            return Some(s as u32);
        }
    }
    None
}

/// The cycle of the core, if it isn't empty.
pub fn find_cycle(
    alloc: Global,
    steps: &[StepDecl],
    finals: &[u32],
    into: &[Seq<u32>],
    removed: &Marks,
) -> Result<Option<Seq<u32>>, Memory>
    requires few { length into.now < 2 ^ 32 }
    requires edges { (s p : ℕ) → Contains (row into.now s) p ↔ HasEdge steps.now finals.now p s }
    requires below { AreBelow into.now (length into.now) }
    requires ascending { AreAscending into.now }
    requires outside { AreOutside into.now removed.now }
    requires left { AreLeftWithOne into.now removed.now }
    requires order { AreInOrder into.now removed.now.items }
    ensures found { IfOk result (λ r. IfSome r (λ cycle. IsCycle steps.now finals.now cycle)) }
    ensures none { IfOk result (λ r. IfNone r (HasNoCycle steps.now finals.now)) }
    ensures ranked { IfOk result (λ r. IfNone r (HasRank steps.now finals.now)) }
{
    match first_in_core(into.len(), removed) {
        Some(start) => {
            let (walk, step) = walk_back(alloc, into, removed, start)?;
            let back = place_of(walk.items(), step);
            let cycle = turned(alloc, walk.items(), back)?;
            Ok(Some(cycle))
        }
        None => Ok(None),
    }
}
