ghost use Rattle.std.specs.Prelude.{◌≡◌, ℕ, ◌<◌, ◌^◌, [], length, vec_len, Contains, ◌↔◌, IfOk, OnOk};
ghost use Rattle.chain_builder.specs.Rows.{row, AreBelow, IsTransposed, IsLinkedWith, IsJoined, AreAscending, IsRowUpTo, AddsOne, AddsToRows};

use item_types::{Memory, Seq};
use std::alloc::Global;

/// The table that has a in row b where the rows have b in row a. Its rows are in order, whatever
/// the order in the rows.
pub fn transposed(alloc: Global, rows: &[Seq<u32>], width: usize) -> Result<Seq<Seq<u32>>, Memory>
    requires below { AreBelow rows.now width }
    requires few { length rows.now < 2 ^ 32 }
    ensures width { IfOk result (λ table. length table ≡ width) }
    ensures transposed { IfOk result (λ table. IsTransposed rows.now table) }
    ensures ascending { IfOk result (λ table. AreAscending table) }
{
    let mut table = empty_rows(alloc, width)?;
    for (a, keys) in rows.iter().enumerate() {
        note_all(&mut table, keys.as_slice(), a as u32)?;
    }
    Ok(Seq::from_vec(table))
}

/// The table that has a in row c where the rows have a number in row a that the links have c for.
/// Its rows are in order.
pub fn joined(
    alloc: Global,
    rows: &[Seq<u32>],
    links: &[Seq<u32>],
    width: usize,
) -> Result<Seq<Seq<u32>>, Memory>
    requires below { AreBelow rows.now (length links.now) }
    requires links { AreBelow links.now width }
    requires few { length rows.now < 2 ^ 32 }
    ensures width { IfOk result (λ table. length table ≡ width) }
    ensures joined { IfOk result (λ table. IsJoined rows.now links.now table) }
    ensures ascending { IfOk result (λ table. AreAscending table) }
{
    let mut table = empty_rows(alloc, width)?;
    for (a, keys) in rows.iter().enumerate() {
        note_linked(&mut table, keys.as_slice(), links, a as u32)?;
    }
    Ok(Seq::from_vec(table))
}

fn empty_rows(alloc: Global, width: usize) -> Result<Vec<Seq<u32>>, Memory>
    ensures width { IfOk result (λ table. vec_len table ≡ width) }
    ensures empty { IfOk result (λ table. (b : ℕ) → row table.items b ≡ []) }
{
    let mut table = Seq::new(alloc);
    for _ in 0..width {
        table.push(Seq::new(alloc))?;
    }
    Ok(table.into_vec())
}

/// Notes `x` in each row that a link of the keys names.
fn note_linked(
    table: &mut Vec<Seq<u32>>,
    keys: &[u32],
    links: &[Seq<u32>],
    x: u32,
) -> Result<(), Memory>
    requires keys { (b : ℕ) → Contains keys.now b → b < length links.now }
    requires links { AreBelow links.now (vec_len table.old) }
    requires rising { (c : ℕ) → IsRowUpTo x (row table.old.items c) }
    ensures adds { OnOk result (AddsToRows table.old.items (IsLinkedWith links.now keys.now) x table.new.items) }
    ensures rising { OnOk result ((c : ℕ) → IsRowUpTo x (row table.new.items c)) }
{
    for key in keys {
        note_all(table, links[*key as usize].as_slice(), x)?;
    }
    Ok(())
}

/// Notes `x` in each row that the keys name.
fn note_all(table: &mut Vec<Seq<u32>>, keys: &[u32], x: u32) -> Result<(), Memory>
    requires keys { (b : ℕ) → Contains keys.now b → b < vec_len table.old }
    requires rising { (b : ℕ) → IsRowUpTo x (row table.old.items b) }
    ensures adds { OnOk result (AddsToRows table.old.items (Contains keys.now) x table.new.items) }
    ensures rising { OnOk result ((b : ℕ) → IsRowUpTo x (row table.new.items b)) }
{
    for key in keys {
        note(&mut table[*key as usize], x)?;
    }
    Ok(())
}

/// Adds `x` at the end of a row, if it is not there yet.
fn note(row: &mut Seq<u32>, x: u32) -> Result<(), Memory>
    requires { IsRowUpTo x row.old }
    ensures adds { OnOk result (AddsOne row.old x row.new) }
    ensures rising { OnOk result (IsRowUpTo x row.new) }
{
    let count = row.len();
    if count > 0 && row.as_slice()[count - 1] == x {
        return Ok(());
    }
    row.push(x)?;
    Ok(())
}
