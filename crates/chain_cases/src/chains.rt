use chain_builder::{Plan, build_chain, fault_is_named, is_numbered};
use item_types::{Consume, ItemDecl, ItemKind, Memory, Produce, Seq, StepDecl, Text};
use std::alloc::Global;

/// Items named `I0`, `I1` ..: `s` simple, `m` multi, `e` empty.
fn items_of(alloc: Global, kinds: &str) -> Result<Seq<ItemDecl>, Memory> {
    let mut items = Seq::new(alloc);
    for c in kinds.chars() {
        let kind = match c {
            's' => ItemKind::Simple,
            'm' => ItemKind::Multi,
            _ => ItemKind::Empty,
        };
        let k = items.len();
        let name = Text::from_string(format!(in alloc; "I{k}")?);
        items.push(ItemDecl { name, kind })?;
    }
    Ok(items)
}

/// Steps `e.s0`, `e.s1` .., each up to `;`: the digits of what it consumes (`?` before an optional
/// one), `>`, and the digits of what it produces (`w` before a weak one, `o` before an overridable
/// one). A step with a `-` isn't active.
fn steps_of(alloc: Global, text: &str) -> Result<Seq<StepDecl>, Memory> {
    let mut steps = Seq::new(alloc);
    let mut consumes = Seq::new(alloc);
    let mut produces = Seq::new(alloc);
    let mut active = true;
    let mut produced = false;
    let mut optional = false;
    let mut weak = false;
    let mut overridable = false;
    for c in text.chars() {
        match c {
            '-' => active = false,
            '>' => produced = true,
            '?' => optional = true,
            'w' => weak = true,
            'o' => overridable = true,
            ';' => {
                let k = steps.len();
                steps.push(StepDecl {
                    ext: Text::of(alloc, "e")?,
                    name: Text::from_string(format!(in alloc; "s{k}")?),
                    consumes,
                    produces,
                    phase: None,
                    active,
                })?;
                consumes = Seq::new(alloc);
                produces = Seq::new(alloc);
                active = true;
                produced = false;
            }
            _ => {
                let item = c as u32 % 16;
                if produced {
                    produces.push(Produce {
                        item,
                        weak,
                        overridable,
                    })?;
                } else {
                    consumes.push(Consume { item, optional })?;
                }
                optional = false;
                weak = false;
                overridable = false;
            }
        }
    }
    Ok(steps)
}

fn finals_of(alloc: Global, digits: &str) -> Result<Seq<u32>, Memory> {
    let mut finals = Seq::new(alloc);
    for c in digits.chars() {
        finals.push(c as u32 % 16)?;
    }
    Ok(finals)
}

/// The needed steps, each with the steps that have an edge to it.
fn plan_text(alloc: Global, plan: &Plan) -> Result<String, Memory> {
    plan.accepted();
    let mut text = String::new(alloc);
    for s in 0..plan.steps().len() {
        if plan.needed(s as u32) {
            write!(text, "{s}<")?;
            for p in plan.edges_into(s as u32).as_slice() {
                write!(text, "{p}")?;
            }
            text.push_str(" ")?;
        }
    }
    Ok(text)
}

fn answer(alloc: Global, kinds: &str, steps: &str, finals: &str) -> Result<String, Memory> {
    let items = items_of(alloc, kinds)?;
    let steps = steps_of(alloc, steps)?;
    let finals = finals_of(alloc, finals)?;
    if !is_numbered(&steps, &items, &finals) {
        return Ok(format!(in alloc; "not numbered")?);
    }
    match build_chain(alloc, &steps, &items, &finals) {
        Ok(plan) => plan_text(alloc, &plan),
        Err(fault) => {
            if fault.is_memory() {
                return Err(Memory);
            }
            fault_is_named();
            fault.text(alloc, &steps, &items)
        }
    }
}

#[test]
fn chains_are_judged(rt: HostRuntime) -> Result<(), Memory> {
    let cases = [
        // an overridden producer has no edge, and a weak production alone makes no step needed
        ("sm", ">o0;>0;0>1;>w1;", "1", "1< 2<1 "),
        // edges by weak productions between needed steps
        ("sms", ">0w1;>1;1>2;", "02", "0< 1< 2<01 "),
        // a cycle among steps that aren't needed
        ("sss", ">0;2>1;1>2;", "0", "0< "),
        // a step that isn't active
        ("s", "->0;>0;", "0", "1< "),
        (
            "ss",
            "0>1;->0;",
            "1",
            "item I0, wanted by e.s0, has no producer",
        ),
        // duplicates: the least item and its two least producers, whether needed or not
        (
            "sss",
            ">2;>1;>2;>1;>1;",
            "0",
            "item I1 has the producers e.s1 and e.s3",
        ),
        (
            "s",
            ">o0;>o0;",
            "0",
            "item I0 has the producers e.s0 and e.s1",
        ),
        ("me", ">0;>0;0>1;", "1", "0< 1< 2<01 "),
        // what is missing: final items first, then consumers and their consumptions in order
        (
            "sssm",
            "0>2;",
            "231",
            "item I1, a final item, has no producer",
        ),
        ("m", "", "0", ""),
        (
            "ssss",
            "1>3;1320>2;",
            "2",
            "item I1, wanted by e.s0, has no producer",
        ),
        (
            "sssss",
            ">3;?1340>2;",
            "2",
            "item I4, wanted by e.s1, has no producer",
        ),
        ("ss", "?0>1;", "1", "0< "),
        (
            "ss",
            ">w0;0>1;",
            "1",
            "item I0, wanted by e.s1, has no producer",
        ),
        // cycles: a step alone, a tail into the cycle, a walk that meets it late
        ("s", "0>0;", "0", "cycle e.s0"),
        ("ssss", ">3;32>1;1>2;", "1", "cycle e.s1, e.s2"),
        ("ssss", "3>0;2>1;1>2;12>3;", "0", "cycle e.s1, e.s2"),
        (
            "sssss",
            "4>0;3>1;1>2;2>3;1>4;",
            "0",
            "cycle e.s1, e.s2, e.s3",
        ),
        ("s", ">3;", "0", "not numbered"),
    ];
    for (kinds, steps, finals, want) in cases {
        let text = answer(rt.alloc(), kinds, steps, finals)?;
        assert_eq!(rt; text.as_str(), want, "{kinds} {steps} {finals}");
    }
    Ok(())
}
