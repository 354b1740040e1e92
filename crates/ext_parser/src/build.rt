ghost use Rattle.std.specs.Prelude.{◌≡◌, ◌⊎◌, ◌<◌, ◌^◌, ◌++◌, length, map, Err, IfOk, Ok};
ghost use Rattle.std.specs.List.{flat_map};
ghost use Rattle.ext_draft.specs.Limits.{KeepsLimits};
ghost use Rattle.ext_parser.specs.Declarations.{beans_of, keys_on, method_of, names_of, recorder_of, recorders_of, step_of, steps_of};
ghost use Rattle.ext_parser.specs.ProjectOfTheBytes.{project_of, texts_of};
ghost use Rattle.ext_parser.specs.SecondWalk.{item_names, items_of, then};

use crate::active::{is_active, keys_on};
use crate::fault::ProjectFault;
use crate::mention::numbered;
use crate::project::Project;
use crate::second_walk::names_of_items;
use crate::texts::Texts;
use crate::third_walk::{Reading, third_walk};
use ext_draft::{Draft, DraftExtension, DraftMethod, DraftRecorder, DraftStep};
use item_types::{
    BeanDecl, ItemDecl, Memory, MethodSig, Names, RecorderDecl, Same, Seq, StepDecl, Text,
};
use name_index::Index;
use std::alloc::Global;
use step_lang::{Directory, Methods, Register};

/// The list, and copies of these at its end.
fn with_copies<T: Same>(alloc: Global, more: &[T], mut found: Seq<T>) -> Result<Seq<T>, Memory>
    ensures { IfOk result (λ all. all ≡ found ++ more.now) }
{
    for one in more {
        found.push(one.try_copy(alloc)?)?;
    }
    Ok(found)
}

/// All items that the file declares.
fn all_items(alloc: Global, extensions: &[DraftExtension]) -> Result<Seq<ItemDecl>, Memory>
    ensures { IfOk result (λ all. all ≡ items_of extensions.now) }
{
    let mut found = Seq::new(alloc);
    for extension in extensions {
        found = with_copies(alloc, extension.items.as_slice(), found)?;
    }
    Ok(found)
}

/// All beans that the file declares.
fn all_beans(alloc: Global, extensions: &[DraftExtension]) -> Result<Seq<BeanDecl>, Memory>
    ensures { IfOk result (λ all. all ≡ beans_of extensions.now) }
{
    let mut found = Seq::new(alloc);
    for extension in extensions {
        found = with_copies(alloc, extension.beans.as_slice(), found)?;
    }
    Ok(found)
}

fn methods_of(alloc: Global, methods: &[DraftMethod]) -> Result<Seq<MethodSig>, Memory>
    ensures { IfOk result (λ all. all ≡ map method_of methods.now) }
{
    let mut found = Seq::new(alloc);
    for method in methods {
        found.push(MethodSig {
            name: method.name.try_copy(alloc)?,
            params: method.params.try_copy(alloc)?,
        })?;
    }
    Ok(found)
}

fn recorder_of(alloc: Global, recorder: &DraftRecorder) -> Result<RecorderDecl, Memory>
    ensures { IfOk result (λ r. r ≡ recorder_of recorder.now) }
{
    Ok(RecorderDecl {
        name: recorder.name.try_copy(alloc)?,
        fields: recorder.fields.try_copy(alloc)?,
        statics: recorder.statics.try_copy(alloc)?,
        methods: methods_of(alloc, recorder.methods.as_slice())?,
    })
}

/// The recorders found so far, and these.
fn with_recorders(
    alloc: Global,
    recorders: &[DraftRecorder],
    mut found: Seq<RecorderDecl>,
) -> Result<Seq<RecorderDecl>, Memory>
    ensures { IfOk result (λ all. all ≡ found ++ map recorder_of recorders.now) }
{
    for recorder in recorders {
        found.push(recorder_of(alloc, recorder)?)?;
    }
    Ok(found)
}

/// All recorders that the file declares.
fn all_recorders(alloc: Global, extensions: &[DraftExtension]) -> Result<Seq<RecorderDecl>, Memory>
    ensures { IfOk result (λ all. all ≡ recorders_of extensions.now) }
{
    let mut found = Seq::new(alloc);
    for extension in extensions {
        found = with_recorders(alloc, extension.recorders.as_slice(), found)?;
    }
    Ok(found)
}

/// A step of that extension.
pub fn step_of(
    alloc: Global,
    items: &Index,
    on: &Index,
    extension: &Text,
    step: &DraftStep,
) -> Result<StepDecl, Memory>
    requires { length items.now < 2 ^ 32 }
    ensures { IfOk result (λ s. s ≡ step_of items.now on.now extension.now step.now) }
{
    let ext = extension.try_copy(alloc)?;
    let name = step.name.try_copy(alloc)?;
    let consumes = numbered(alloc, items, step.consumes.as_slice())?;
    let produces = numbered(alloc, items, step.produces.as_slice())?;
    Ok(StepDecl {
        ext,
        name,
        consumes,
        produces,
        phase: step.phase,
        active: is_active(on, step),
    })
}

/// The steps found so far, and those of one more extension.
fn with_steps(
    alloc: Global,
    items: &Index,
    on: &Index,
    extension: &Text,
    steps: &[DraftStep],
    mut found: Seq<StepDecl>,
) -> Result<Seq<StepDecl>, Memory>
    requires { length items.now < 2 ^ 32 }
    ensures { IfOk result (λ all. all ≡ found ++ map (step_of items.now on.now extension.now) steps.now) }
{
    for step in steps {
        found.push(step_of(alloc, items, on, extension, step)?)?;
    }
    Ok(found)
}

/// All steps that the file declares.
fn all_steps(
    alloc: Global,
    items: &Index,
    on: &Index,
    extensions: &[DraftExtension],
) -> Result<Seq<StepDecl>, Memory>
    requires { length items.now < 2 ^ 32 }
    ensures { IfOk result (λ all. all ≡ flat_map (steps_of items.now on.now) extensions.now) }
{
    let mut found = Seq::new(alloc);
    for extension in extensions {
        let steps = extension.steps.as_slice();
        found = with_steps(alloc, items, on, &extension.name, steps, found)?;
    }
    Ok(found)
}

/// All that the extensions declare.
fn names_of(alloc: Global, extensions: &[DraftExtension]) -> Result<Names, Memory>
    ensures { IfOk result (λ n. n ≡ names_of extensions.now) }
{
    let items = all_items(alloc, extensions)?;
    let beans = all_beans(alloc, extensions)?;
    let recorders = all_recorders(alloc, extensions)?;
    Ok(Names {
        items,
        beans,
        recorders,
    })
}

/// What is declared in a draft whose names were all found, and the trees of its texts.
#[tactic(auto, using(crate::proofs::Whole::texts_are))]
fn texts_of<'n, 'i>(
    alloc: Global,
    names: &'n Names,
    items: &'n Index<'i>,
    on: &'n Index<'i>,
    draft: &Draft,
) -> Result<Texts, ProjectFault>
    requires keeps { KeepsLimits draft.now }
    requires names { names.now ≡ names_of draft.now.extensions }
    requires items { items.now ≡ item_names (items_of draft.now.extensions) }
    requires on { on.now ≡ keys_on draft.now.config }
    ensures { (result ≡ Err ProjectFault.Memory) ⊎ (result ≡ texts_of draft.now) }
{
    let register = Register::new(alloc, names)?;
    let directory = Directory::new(&*names, &register);
    let reading = Reading {
        names: &directory,
        items: &*items,
        on: &*on,
    };
    third_walk(alloc, &reading, draft.extensions.as_slice())
}

/// The project of a draft whose names were all found.
///
/// # Errors
/// `Body` with the path of the first body or method that isn't right; `Memory` for want of memory.
pub fn project_of(alloc: Global, draft: &Draft) -> Result<Project, ProjectFault>
    requires { KeepsLimits draft.now }
    ensures { (result ≡ Err ProjectFault.Memory) ⊎ (result ≡ then (texts_of draft.now) (λ texts. Ok (project_of draft.now texts))) }
{
    let items = names_of_items(alloc, draft.extensions.as_slice())?;
    let on = keys_on(alloc, draft.config.as_slice())?;
    let names = names_of(alloc, draft.extensions.as_slice())?;
    let texts = texts_of(alloc, &names, &items, &on, draft)?;
    let steps = all_steps(alloc, &items, &on, draft.extensions.as_slice())?;
    let finals = numbered(alloc, &items, draft.finals.as_slice())?;
    let app = draft.app.try_copy(alloc)?;
    Ok(Project {
        app,
        major: draft.major,
        names,
        steps,
        finals,
        bodies: texts.bodies,
        methods: Methods { lists: texts.lists },
    })
}
