ghost use Rattle.std.specs.Prelude.{◌≡◌, IfOk, map};
ghost use Rattle.project_fit.specs.Fits.{full_name};

use item_types::{Memory, Seq, StepDecl, Text};
use std::alloc::Global;

/// A step's full name: its extension's name, a dot and its own.
fn full_name(alloc: Global, step: &StepDecl) -> Result<Text, Memory>
    ensures { IfOk result (λ name. name ≡ full_name step.now) }
{
    let mut name = String::from_str(alloc, step.ext.as_str())?;
    name.push_str(".")?;
    name.push_str(step.name.as_str())?;
    Ok(Text::from_string(name))
}

/// The full names of these steps.
pub fn full_names(alloc: Global, steps: &[StepDecl]) -> Result<Seq<Text>, Memory>
    ensures { IfOk result (λ names. names ≡ map full_name steps.now) }
{
    let mut names = Seq::new(alloc);
    for step in steps {
        names.push(full_name(alloc, step)?)?;
    }
    Ok(names)
}
