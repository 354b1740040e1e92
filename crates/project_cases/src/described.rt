use ext_parser::Project;
use item_types::{
    BeanDecl, Consume, ItemDecl, ItemKind, Memory, MethodSig, Phase, Produce, RecorderDecl,
    StepDecl, Text,
};
use std::alloc::Global;

/// A project in one line: its name and version, and then its items, beans, recorders, steps and
/// final items, a bar before each kind.
pub fn described(alloc: Global, project: &Project) -> Result<String, Memory> {
    let mut out = String::from_str(alloc, project.app.as_str())?;
    push_number(alloc, project.major as u32, &mut out)?;
    push_items(project.names.items.as_slice(), &mut out)?;
    push_beans(project.names.beans.as_slice(), &mut out)?;
    push_recorders(project.names.recorders.as_slice(), &mut out)?;
    push_steps(alloc, project.steps.as_slice(), &mut out)?;
    out.push_str(" |")?;
    for number in project.finals.as_slice() {
        push_number(alloc, *number, &mut out)?;
    }
    Ok(out)
}

fn push_number(alloc: Global, number: u32, out: &mut String) -> Result<(), Memory> {
    let digits = number.to_string(alloc)?;
    out.push_str(" ")?;
    out.push_str(digits.as_str())?;
    Ok(())
}

fn push_name(name: &Text, out: &mut String) -> Result<(), Memory> {
    out.push_str(" ")?;
    out.push_str(name.as_str())?;
    Ok(())
}

/// Names behind a word.
fn push_names(word: &str, names: &[Text], out: &mut String) -> Result<(), Memory> {
    out.push_str(" ")?;
    out.push_str(word)?;
    for name in names {
        push_name(name, out)?;
    }
    Ok(())
}

fn push_items(items: &[ItemDecl], out: &mut String) -> Result<(), Memory> {
    out.push_str(" |")?;
    for item in items {
        push_name(&item.name, out)?;
        match &item.kind {
            ItemKind::Simple => out.push_str(" simple")?,
            ItemKind::Multi => out.push_str(" multi")?,
            ItemKind::Ordered(key) => {
                out.push_str(" ordered by")?;
                push_name(key, out)?;
            }
            ItemKind::Empty => out.push_str(" empty")?,
        }
    }
    Ok(())
}

fn push_beans(beans: &[BeanDecl], out: &mut String) -> Result<(), Memory> {
    out.push_str(" |")?;
    for bean in beans {
        push_name(&bean.name, out)?;
        push_names("has", bean.fields.as_slice(), out)?;
    }
    Ok(())
}

fn push_methods(methods: &[MethodSig], out: &mut String) -> Result<(), Memory> {
    for method in methods {
        push_names("method", &[], out)?;
        push_name(&method.name, out)?;
        push_names("of", method.params.as_slice(), out)?;
    }
    Ok(())
}

fn push_recorders(recorders: &[RecorderDecl], out: &mut String) -> Result<(), Memory> {
    out.push_str(" |")?;
    for recorder in recorders {
        push_name(&recorder.name, out)?;
        push_names("has", recorder.fields.as_slice(), out)?;
        push_names("static", recorder.statics.as_slice(), out)?;
        push_methods(recorder.methods.as_slice(), out)?;
    }
    Ok(())
}

fn push_consumes(alloc: Global, consumes: &[Consume], out: &mut String) -> Result<(), Memory> {
    out.push_str(" consumes")?;
    for entry in consumes {
        push_number(alloc, entry.item, out)?;
        if entry.optional {
            out.push_str(" optional")?;
        }
    }
    Ok(())
}

fn push_produces(alloc: Global, produces: &[Produce], out: &mut String) -> Result<(), Memory> {
    out.push_str(" produces")?;
    for entry in produces {
        push_number(alloc, entry.item, out)?;
        if entry.weak {
            out.push_str(" weak")?;
        }
        if entry.overridable {
            out.push_str(" overridable")?;
        }
    }
    Ok(())
}

/// When a step records, and whether it is active.
fn push_phase(step: &StepDecl, out: &mut String) -> Result<(), Memory> {
    match &step.phase {
        Some(Phase::Static) => out.push_str(" static")?,
        Some(Phase::Runtime) => out.push_str(" runtime")?,
        None => {}
    }
    if !step.active {
        out.push_str(" inactive")?;
    }
    Ok(())
}

fn push_steps(alloc: Global, steps: &[StepDecl], out: &mut String) -> Result<(), Memory> {
    out.push_str(" |")?;
    for step in steps {
        push_name(&step.ext, out)?;
        out.push_str(".")?;
        out.push_str(step.name.as_str())?;
        push_phase(step, out)?;
        push_consumes(alloc, step.consumes.as_slice(), out)?;
        push_produces(alloc, step.produces.as_slice(), out)?;
    }
    Ok(())
}
