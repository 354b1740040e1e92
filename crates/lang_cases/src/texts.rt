// Large texts of bodies, and what becomes of them.

use item_types::{BeanDecl, Memory, Names, Same, Seq, StepDecl, Text};
use std::alloc::Global;
use step_lang::{Body, LangFault, parse_body, print_body};

/// The bean `B` with the field `f`, and nothing else.
fn one_bean(alloc: Global) -> Result<Names, Memory> {
    let mut fields = Seq::new(alloc);
    fields.push(Text::of(alloc, "f")?)?;
    let name = Text::of(alloc, "B")?;
    let mut beans = Seq::new(alloc);
    beans.push(BeanDecl { name, fields })?;
    Ok(Names {
        items: Seq::new(alloc),
        beans,
        recorders: Seq::new(alloc),
    })
}

/// A step that consumes and produces nothing and doesn't record.
fn plain_step(alloc: Global) -> Result<StepDecl, Memory> {
    Ok(StepDecl {
        ext: Text::of(alloc, "a")?,
        name: Text::of(alloc, "s")?,
        consumes: Seq::new(alloc),
        produces: Seq::new(alloc),
        phase: None,
        active: true,
    })
}

/// A text's beginning, so many times its middle, and its end.
pub(crate) fn repeated(
    alloc: Global,
    before: &str,
    middle: &str,
    count: usize,
    after: &str,
) -> Result<String, Memory> {
    let mut text = String::from_str(alloc, before)?;
    for _ in 0..count {
        text.push_str(middle)?;
    }
    text.push_str(after)?;
    Ok(text)
}

/// Whether the body's copy equals it and it is printed as this text.
fn is_printed_as(alloc: Global, body: &Body, names: &Names, text: &str) -> Result<bool, Memory> {
    let copy = body.try_copy(alloc)?;
    let printed = print_body(alloc, &copy, names)?;
    Ok(body.same(&copy) && printed.as_str() == text)
}

/// Whether a text is read as a body that is printed as the text itself.
pub(crate) fn reads_and_prints(alloc: Global, text: &str) -> Result<bool, Memory> {
    let names = one_bean(alloc)?;
    let decl = plain_step(alloc)?;
    if text.len() > 65535 {
        return Ok(false);
    }
    match parse_body(alloc, text, &names, &decl) {
        Ok(body) => is_printed_as(alloc, &body, &names, text),
        Err(LangFault::Memory) => Err(Memory),
        Err(_) => Ok(false),
    }
}
