ghost use Rattle.std.specs.Prelude.{◌≡◌, ℕ, ◌<◌, ◌++◌, codes, length, Contains, IfOk, OnOk, string_bytes};
ghost use Rattle.chain_builder.specs.FaultText.{item_name, step_name, step_names, fault_text, IsNamed};

use crate::fault::ChainFault;
use item_types::{ItemDecl, Memory, Seq, StepDecl};
use std::alloc::Global;

impl ChainFault {
    /// The fault's text, by the names of these steps and items.
    ///
    /// # Errors
    /// `Memory` for want of memory.
    pub fn text(
        &self,
        alloc: Global,
        steps: &Seq<StepDecl>,
        items: &Seq<ItemDecl>,
    ) -> Result<String, Memory>
        requires { IsNamed steps.now items.now self.now }
        ensures { IfOk result (λ text. string_bytes text ≡ fault_text steps.now items.now self.now) }
    {
        let mut out = String::new(alloc);
        push_fault(self, steps, items, &mut out)?;
        Ok(out)
    }
}

fn push_fault(
    fault: &ChainFault,
    steps: &Seq<StepDecl>,
    items: &Seq<ItemDecl>,
    out: &mut String,
) -> Result<(), Memory>
    requires { IsNamed steps.now items.now fault.now }
    ensures { OnOk result (string_bytes out.new ≡ string_bytes out.old ++ fault_text steps.now items.now fault.now) }
{
    match fault {
        ChainFault::Duplicate {
            item,
            first,
            second,
        } => push_duplicate(steps, items, *item, *first, *second, out),
        ChainFault::Missing {
            item,
            consumer: None,
        } => push_missing_final(items, *item, out),
        ChainFault::Missing {
            item,
            consumer: Some(step),
        } => push_missing_consumed(steps, items, *item, *step, out),
        ChainFault::Cycle(cycle) => {
            out.push_str("cycle ")?;
            push_steps(steps, cycle.as_slice(), out)
        }
        ChainFault::Memory => Ok(()),
    }
}

fn push_duplicate(
    steps: &Seq<StepDecl>,
    items: &Seq<ItemDecl>,
    t: u32,
    a: u32,
    b: u32,
    out: &mut String,
) -> Result<(), Memory>
    requires item { t < length items.now }
    requires first { a < length steps.now }
    requires second { b < length steps.now }
    ensures { OnOk result (string_bytes out.new ≡ string_bytes out.old ++ (codes "item " ++ item_name items.now t ++ codes " has the producers " ++ step_name steps.now a ++ codes " and " ++ step_name steps.now b)) }
{
    out.push_str("item ")?;
    push_item(items, t, out)?;
    out.push_str(" has the producers ")?;
    push_step(steps, a, out)?;
    out.push_str(" and ")?;
    push_step(steps, b, out)?;
    Ok(())
}

fn push_missing_final(items: &Seq<ItemDecl>, t: u32, out: &mut String) -> Result<(), Memory>
    requires { t < length items.now }
    ensures { OnOk result (string_bytes out.new ≡ string_bytes out.old ++ (codes "item " ++ item_name items.now t ++ codes ", a final item, has no producer")) }
{
    out.push_str("item ")?;
    push_item(items, t, out)?;
    out.push_str(", a final item, has no producer")?;
    Ok(())
}

fn push_missing_consumed(
    steps: &Seq<StepDecl>,
    items: &Seq<ItemDecl>,
    t: u32,
    s: u32,
    out: &mut String,
) -> Result<(), Memory>
    requires item { t < length items.now }
    requires step { s < length steps.now }
    ensures { OnOk result (string_bytes out.new ≡ string_bytes out.old ++ (codes "item " ++ item_name items.now t ++ codes ", wanted by " ++ step_name steps.now s ++ codes ", has no producer")) }
{
    out.push_str("item ")?;
    push_item(items, t, out)?;
    out.push_str(", wanted by ")?;
    push_step(steps, s, out)?;
    out.push_str(", has no producer")?;
    Ok(())
}

/// Appends the names of steps, in order.
fn push_steps(steps: &Seq<StepDecl>, list: &[u32], out: &mut String) -> Result<(), Memory>
    requires { (s : ℕ) → Contains list.now s → s < length steps.now }
    ensures { OnOk result (string_bytes out.new ≡ string_bytes out.old ++ step_names steps.now list.now) }
{
    for (k, s) in list.iter().enumerate() {
        if k > 0 {
            out.push_str(", ")?;
        }
        push_step(steps, *s, out)?;
    }
    Ok(())
}

/// Appends an item's name.
fn push_item(items: &Seq<ItemDecl>, t: u32, out: &mut String) -> Result<(), Memory>
    requires { t < length items.now }
    ensures { OnOk result (string_bytes out.new ≡ string_bytes out.old ++ item_name items.now t) }
{
    let item = &items.as_slice()[t as usize];
    out.push_str(item.name.as_str())?;
    Ok(())
}

/// Appends a step's name, after that of its extension.
fn push_step(steps: &Seq<StepDecl>, s: u32, out: &mut String) -> Result<(), Memory>
    requires { s < length steps.now }
    ensures { OnOk result (string_bytes out.new ≡ string_bytes out.old ++ step_name steps.now s) }
{
    let step = &steps.as_slice()[s as usize];
    out.push_str(step.ext.as_str())?;
    out.push_str(".")?;
    out.push_str(step.name.as_str())?;
    Ok(())
}
