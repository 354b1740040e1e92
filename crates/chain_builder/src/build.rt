ghost use Rattle.std.specs.Prelude.{◌≡◌, ◌^◌, ◌<◌, ℕ, length, Contains, OnOk, IfOk, IfErr, IfSome, IfNone};
ghost use Rattle.item_types.specs.Numbered.{IsNumbered};
ghost use Rattle.chain_builder.specs.Accepted.{IsAccepted};
ghost use Rattle.chain_builder.specs.Fault.{IsFault};
ghost use Rattle.chain_builder.specs.Rank.{HasRank};
ghost use Rattle.chain_builder.specs.Tables.{AreTables};

use crate::core_steps::removed_steps;
use crate::cycle::find_cycle;
use crate::edges::dependents;
use crate::fault::ChainFault;
use crate::faults::{find_duplicate, lacking_items, missing_consumed, missing_final};
use crate::needed::needed_steps;
use crate::plan::Plan;
use crate::producers::{consumed_rows, effective_rows, plain_items};
use crate::rows::transposed;
use crate::tables::Tables;
use item_types::{ItemDecl, Memory, Same, Seq, StepDecl};
use std::alloc::Global;

/// Builds the plan of a chain.
///
/// # Errors
/// The chain's fault where it isn't accepted. `ChainFault::Memory` for want of memory.
pub fn build_chain(
    alloc: Global,
    steps: &Seq<StepDecl>,
    items: &Seq<ItemDecl>,
    finals: &Seq<u32>,
) -> Result<Plan, ChainFault>
    requires { IsNumbered steps.now items.now finals.now }
    ensures accepted { OnOk result (IsAccepted steps.now items.now finals.now) }
    ensures plan { IfOk result (λ plan. plan ≡ record { steps = steps.now; items = items.now; finals = finals.now }) }
    ensures fault { IfErr result (IsFault steps.now items.now finals.now) }
{
    match judged(alloc, steps.as_slice(), items.as_slice(), finals.as_slice()) {
        Err(fault) => Err(fault),
        Ok(tables) => match plan_of(alloc, steps, items, finals, tables) {
            Err(_) => Err(ChainFault::Memory),
            Ok(plan) => Ok(plan),
        },
    }
}

fn plan_of(
    alloc: Global,
    steps: &Seq<StepDecl>,
    items: &Seq<ItemDecl>,
    finals: &Seq<u32>,
    tables: Tables,
) -> Result<Plan, Memory>
    requires tables { AreTables steps.now items.now finals.now tables }
    requires accepted { IsAccepted steps.now items.now finals.now }
    requires ranked { HasRank steps.now finals.now }
    requires numbered { IsNumbered steps.now items.now finals.now }
    ensures { IfOk result (λ plan. plan ≡ record { steps = steps.now; items = items.now; finals = finals.now }) }
{
    Ok(Plan {
        steps: steps.try_copy(alloc)?,
        items: items.try_copy(alloc)?,
        finals: finals.try_copy(alloc)?,
        tables,
    })
}

/// The tables of a chain, where it has no fault.
fn judged(
    alloc: Global,
    steps: &[StepDecl],
    items: &[ItemDecl],
    finals: &[u32],
) -> Result<Tables, ChainFault>
    requires { IsNumbered steps.now items.now finals.now }
    ensures tables { IfOk result (AreTables steps.now items.now finals.now) }
    ensures accepted { OnOk result (IsAccepted steps.now items.now finals.now) }
    ensures ranked { OnOk result (HasRank steps.now finals.now) }
    ensures fault { IfErr result (IsFault steps.now items.now finals.now) }
{
    match tables_of(alloc, steps, items, finals) {
        Err(_) => Err(ChainFault::Memory),
        Ok(tables) => match first_fault(alloc, steps, items, finals, &tables) {
            Err(_) => Err(ChainFault::Memory),
            Ok(Some(fault)) => Err(fault),
            Ok(None) => Ok(tables),
        },
    }
}

/// The tables of a chain.
fn tables_of(
    alloc: Global,
    steps: &[StepDecl],
    items: &[ItemDecl],
    finals: &[u32],
) -> Result<Tables, Memory>
    requires { IsNumbered steps.now items.now finals.now }
    ensures { IfOk result (AreTables steps.now items.now finals.now) }
{
    let width = items.len();
    let plain = plain_items(alloc, steps, width)?;
    let consumed = consumed_rows(alloc, steps)?;
    let strong_rows = effective_rows(alloc, steps, &plain, true)?;
    let strong = transposed(alloc, strong_rows.as_slice(), width)?;
    let needed = needed_steps(alloc, steps, finals, consumed.as_slice(), strong.as_slice())?;
    let effective = effective_rows(alloc, steps, &plain, false)?;
    let dependents = dependents(
        alloc,
        steps,
        finals,
        &needed,
        consumed.as_slice(),
        effective.as_slice(),
        width,
    )?;
    let into = transposed(alloc, dependents.as_slice(), steps.len())?;
    Ok(Tables {
        needed,
        effective,
        into,
        dependents,
    })
}

/// The first fault of a chain, if there is one.
fn first_fault(
    alloc: Global,
    steps: &[StepDecl],
    items: &[ItemDecl],
    finals: &[u32],
    tables: &Tables,
) -> Result<Option<ChainFault>, Memory>
    requires numbered { IsNumbered steps.now items.now finals.now }
    requires tables { AreTables steps.now items.now finals.now tables.now }
    ensures fault { IfOk result (λ r. IfSome r (IsFault steps.now items.now finals.now)) }
    ensures accepted { IfOk result (λ r. IfNone r (IsAccepted steps.now items.now finals.now)) }
    ensures ranked { IfOk result (λ r. IfNone r (HasRank steps.now finals.now)) }
{
    let producers = transposed(alloc, tables.effective.as_slice(), items.len())?;
    match find_duplicate(steps, items, producers.as_slice()) {
        Some(d) => {
            return Ok(Some(ChainFault::Duplicate {
                item: d.item,
                first: d.first,
                second: d.second,
            }));
        }
        None => {}
    }
    let lacking = lacking_items(
        alloc,
        steps,
        items,
        finals,
        &tables.needed,
        producers.as_slice(),
    )?;
    match missing_final(steps, items, finals, lacking.as_slice()) {
        Some(item) => {
            return Ok(Some(ChainFault::Missing {
                item,
                consumer: None,
            }));
        }
        None => {}
    }
    match missing_consumed(steps, items, finals, &tables.needed, lacking.as_slice()) {
        Some(wanted) => {
            return Ok(Some(ChainFault::Missing {
                item: wanted.item,
                consumer: Some(wanted.consumer),
            }));
        }
        None => {}
    }
    let removed = removed_steps(alloc, tables.into.as_slice(), tables.dependents.as_slice())?;
    match find_cycle(alloc, steps, finals, tables.into.as_slice(), &removed)? {
        Some(cycle) => Ok(Some(ChainFault::Cycle(cycle))),
        None => Ok(None),
    }
}
