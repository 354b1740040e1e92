// What the bodies are evaluated with.

use crate::trees::{one, two};
use item_types::{
    BeanDecl, Consume, ItemDecl, ItemKind, Memory, Names, Phase, Same, Seq, StepDecl, Text, Value,
};
use std::alloc::Global;
use step_eval::{Inputs, Outcome, Reason, eval};
use syntax_tree::{Body, Stmt};

fn item(alloc: Global, name: &str, kind: ItemKind) -> Result<ItemDecl, Memory> {
    Ok(ItemDecl {
        name: Text::of(alloc, name)?,
        kind,
    })
}

/// The simple item `S`, which is number 0, the item `O`, which is ordered by `k`, and the multi
/// item `M`.
fn items(alloc: Global) -> Result<Seq<ItemDecl>, Memory> {
    let key = Text::of(alloc, "k")?;
    let simple = item(alloc, "S", ItemKind::Simple)?;
    let ordered = item(alloc, "O", ItemKind::Ordered(key))?;
    let mut items = two(alloc, simple, ordered)?;
    items.push(item(alloc, "M", ItemKind::Multi)?)?;
    Ok(items)
}

/// The bean `B{k, n}`.
fn bean(alloc: Global) -> Result<BeanDecl, Memory> {
    let key = Text::of(alloc, "k")?;
    let other = Text::of(alloc, "n")?;
    Ok(BeanDecl {
        name: Text::of(alloc, "B")?,
        fields: two(alloc, key, other)?,
    })
}

/// The items and the bean, which is number 0.
fn names(alloc: Global) -> Result<Names, Memory> {
    let items = items(alloc)?;
    let bean = bean(alloc)?;
    Ok(Names {
        items,
        beans: one(alloc, bean)?,
        recorders: Seq::new(alloc),
    })
}

/// A static step that consumes `S`.
fn declaration(alloc: Global) -> Result<StepDecl, Memory> {
    let consume = Consume {
        item: 0,
        optional: true,
    };
    let ext = Text::of(alloc, "a")?;
    let name = Text::of(alloc, "s")?;
    let consumes = one(alloc, consume)?;
    Ok(StepDecl {
        ext,
        name,
        consumes,
        produces: Seq::new(alloc),
        phase: Some(Phase::Static),
        active: true,
    })
}

/// The outcome of that step, which has the number 3, where it took these values.
pub fn outcome_of(alloc: Global, taken: Seq<Value>, stmts: Seq<Stmt>) -> Result<Outcome, Memory> {
    let lists = one(alloc, taken)?;
    let inputs = Inputs { lists };
    let body = Body { stmts };
    let names = names(alloc)?;
    let decl = declaration(alloc)?;
    eval(alloc, &names, &decl, 3, &body, &inputs)
}

/// The outcome of the same step where it took nothing.
pub fn outcome(alloc: Global, stmts: Seq<Stmt>) -> Result<Outcome, Memory> {
    outcome_of(alloc, Seq::new(alloc), stmts)
}

/// Whether the step came to its end.
pub fn ends(outcome: &Outcome) -> bool {
    matches!(outcome, Outcome::Done { .. })
}

/// Whether the step came to its end, recorded nothing and put these values of the item `M`, and no
/// others.
pub fn ends_with(alloc: Global, outcome: &Outcome, wanted: Seq<Value>) -> Result<bool, Memory> {
    let mut puts = Seq::new(alloc);
    for value in wanted.into_vec() {
        puts.push((2, value))?;
    }
    let calls = Seq::new(alloc);
    Ok(outcome.same(&Outcome::Done { puts, calls }))
}

/// Whether the step failed for this reason.
pub fn fails(outcome: &Outcome, reason: Reason) -> bool {
    outcome.same(&Outcome::Fails(reason))
}
