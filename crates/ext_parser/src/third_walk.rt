ghost use Rattle.std.specs.Prelude.{◌≡◌, ◌⊎◌, ◌<◌, ◌≤◌, ◌^◌, ◌+◌, ◌++◌, [], length, Err, Ok, IfOk, All, codes};
ghost use Rattle.std.specs.List.{flat_map};
ghost use Rattle.ext_draft.specs.Limits.{IsRightExtension, IsRightMethod, IsRightRecorder, IsRightStep};
ghost use Rattle.ext_draft.specs.Paths.{nth, inside};
ghost use Rattle.ext_parser.specs.Declarations.{step_of};
ghost use Rattle.ext_parser.specs.ThirdWalk.{bodies_at, body_at, extension_texts, lists_at, method_at, methods_at, texts_at, texts_with};

use crate::build::step_of;
use crate::fault::ProjectFault;
use crate::texts::Texts;
use ext_draft::{DraftExtension, DraftMethod, DraftRecorder, DraftStep, inside_nth, path_of};
use item_types::{Memory, Seq, StepDecl, Text};
use name_index::Index;
use std::alloc::Global;
use step_lang::{Body, Directory, LangFault, Method, parse_body_in, parse_method_in};

/// The fault of the text at the key `body` after that prefix.
fn body_fault<T>(alloc: Global, prefix: &str, fault: LangFault) -> Result<T, ProjectFault>
    requires { fault ≡ LangFault.Memory → ⊥ }
    ensures { (result ≡ Err ProjectFault.Memory) ⊎ (result ≡ Err (ProjectFault.Body (prefix.now ++ codes "body") fault)) }
{
    match path_of(alloc, prefix, "body") {
        Ok(path) => Err(ProjectFault::Body(Text::from_string(path), fault)),
        Err(_) => Err(ProjectFault::Memory),
    }
}

/// The method of a recorder at that prefix.
fn method_at<'a>(
    alloc: Global,
    names: &'a Directory<'a>,
    prefix: &str,
    recorder: u32,
    method: u32,
    text: &Text,
) -> Result<Method, ProjectFault>
    requires { length text.now ≤ 65535 }
    ensures { (result ≡ Err ProjectFault.Memory) ⊎ (result ≡ method_at names.now prefix.now recorder method text.now) }
{
    match parse_method_in(alloc, text.as_str(), names, recorder, method) {
        Ok(tree) => Ok(tree),
        Err(LangFault::Memory) => Err(ProjectFault::Memory),
        Err(fault) => body_fault(alloc, prefix, fault),
    }
}

/// The body of a step at that prefix.
fn body_at<'a>(
    alloc: Global,
    names: &'a Directory<'a>,
    prefix: &str,
    decl: &StepDecl,
    text: &Text,
) -> Result<Body, ProjectFault>
    requires { length text.now ≤ 65535 }
    ensures { (result ≡ Err ProjectFault.Memory) ⊎ (result ≡ body_at names.now prefix.now decl.now text.now) }
{
    match parse_body_in(alloc, text.as_str(), names, decl) {
        Ok(tree) => Ok(tree),
        Err(LangFault::Memory) => Err(ProjectFault::Memory),
        Err(fault) => body_fault(alloc, prefix, fault),
    }
}

/// The methods of the recorder of that number.
fn methods_at<'a>(
    alloc: Global,
    names: &'a Directory<'a>,
    recorder: u32,
    path: &str,
    methods: &[DraftMethod],
) -> Result<Seq<Method>, ProjectFault>
    requires right { All IsRightMethod methods.now }
    requires few { length methods.now ≤ 1024 }
    ensures { (result ≡ Err ProjectFault.Memory) ⊎ (result ≡ methods_at names.now recorder path.now 0 methods.now) }
{
    let mut found = Seq::new(alloc);
    for (index, method) in methods.iter().enumerate() {
        let prefix = inside_nth(alloc, path, index)?;
        match method_at(
            alloc,
            names,
            prefix.as_str(),
            recorder,
            index as u32,
            &method.body,
        ) {
            Ok(tree) => found.push(tree)?,
            Err(fault) => return Err(fault),
        }
    }
    Ok(found)
}

/// The methods of recorder `index` of the list at `path`, which has that number in the file.
fn list_at<'a>(
    alloc: Global,
    names: &'a Directory<'a>,
    number: u32,
    path: &str,
    index: usize,
    recorder: &DraftRecorder,
) -> Result<Seq<Method>, ProjectFault>
    requires { IsRightRecorder recorder.now }
    ensures { (result ≡ Err ProjectFault.Memory) ⊎ (result ≡ methods_at names.now number (inside (nth path.now index) ++ codes "methods") 0 recorder.now.methods) }
{
    let prefix = inside_nth(alloc, path, index)?;
    let path = path_of(alloc, prefix.as_str(), "methods")?;
    methods_at(
        alloc,
        names,
        number,
        path.as_str(),
        recorder.methods.as_slice(),
    )
}

/// The methods of the recorders of the list at `path`, after so many recorders in the file.
#[tactic(auto, using(crate::proofs::Trees::one_more_list))]
fn lists_at<'a>(
    alloc: Global,
    names: &'a Directory<'a>,
    first: usize,
    path: &str,
    recorders: &[DraftRecorder],
) -> Result<Seq<Seq<Method>>, ProjectFault>
    requires right { All IsRightRecorder recorders.now }
    requires few { first + length recorders.now ≤ 256 }
    ensures answer { (result ≡ Err ProjectFault.Memory) ⊎ (result ≡ lists_at names.now first path.now 0 recorders.now) }
    ensures many { IfOk result (λ all. length all ≡ length recorders.now) }
{
    let mut found = Seq::new(alloc);
    for (index, recorder) in recorders.iter().enumerate() {
        let number = (first + index) as u32;
        match list_at(alloc, names, number, path, index, recorder) {
            Ok(list) => found.push(list)?,
            Err(fault) => return Err(fault),
        }
    }
    Ok(found)
}

/// What the texts of a file may name.
#[derive(Drop)]
pub struct Reading<'n, 'i> {
    pub names: &'n Directory<'n>,
    /// The names of all items.
    pub items: &'n Index<'i>,
    /// The keys of `config` that are true.
    pub on: &'n Index<'i>,
}

/// The body of step `index` of the list at `path`.
fn step_body(
    alloc: Global,
    reading: &Reading<'_, '_>,
    extension: &Text,
    path: &str,
    index: usize,
    step: &DraftStep,
) -> Result<Body, ProjectFault>
    requires right { IsRightStep step.now }
    requires few { length reading.now.items.now < 2 ^ 32 }
    ensures { (result ≡ Err ProjectFault.Memory) ⊎ (result ≡ body_at reading.now.names.now (inside (nth path.now index)) (step_of reading.now.items.now reading.now.on.now extension.now step.now) step.now.body) }
{
    let prefix = inside_nth(alloc, path, index)?;
    let decl = step_of(alloc, reading.items, reading.on, extension, step)?;
    body_at(alloc, reading.names, prefix.as_str(), &decl, &step.body)
}

/// The bodies of the steps of the list at `path`.
fn bodies_at(
    alloc: Global,
    reading: &Reading<'_, '_>,
    extension: &Text,
    path: &str,
    steps: &[DraftStep],
) -> Result<Seq<Body>, ProjectFault>
    requires right { All IsRightStep steps.now }
    requires few { length reading.now.items.now < 2 ^ 32 }
    ensures { (result ≡ Err ProjectFault.Memory) ⊎ (result ≡ bodies_at reading.now.names.now reading.now.items.now reading.now.on.now extension.now path.now 0 steps.now) }
{
    let mut found = Seq::new(alloc);
    for (index, step) in steps.iter().enumerate() {
        match step_body(alloc, reading, extension, path, index, step) {
            Ok(tree) => found.push(tree)?,
            Err(fault) => return Err(fault),
        }
    }
    Ok(found)
}

/// The trees of an extension's texts, after so many recorders in the file.
#[tactic(auto, unfolding(crate::specs::ThirdWalk::extension_texts))]
fn extension_texts(
    alloc: Global,
    reading: &Reading<'_, '_>,
    first: usize,
    prefix: &str,
    extension: &DraftExtension,
) -> Result<Texts, ProjectFault>
    requires right { IsRightExtension extension.now }
    requires few { length reading.now.items.now < 2 ^ 32 }
    requires few_lists { first + length extension.now.recorders ≤ 256 }
    ensures answer { (result ≡ Err ProjectFault.Memory) ⊎ (result ≡ extension_texts reading.now.names.now reading.now.items.now reading.now.on.now first prefix.now extension.now) }
    ensures many { IfOk result (λ all. length all.lists ≡ length extension.now.recorders) }
{
    let path = path_of(alloc, prefix, "recorders")?;
    let recorders = extension.recorders.as_slice();
    let lists = lists_at(alloc, reading.names, first, path.as_str(), recorders)?;
    let path = path_of(alloc, prefix, "steps")?;
    let steps = extension.steps.as_slice();
    let bodies = bodies_at(alloc, reading, &extension.name, path.as_str(), steps)?;
    Ok(Texts { lists, bodies })
}

fn joined<T: Drop>(found: Seq<T>, more: Seq<T>) -> Result<Seq<T>, Memory>
    ensures { IfOk result (λ all. all ≡ found ++ more) }
{
    let mut all = found.into_vec();
    let mut more = more.into_vec();
    match all.append(&mut more) {
        Ok(()) => Ok(Seq::from_vec(all)),
        Err(_) => Err(Memory),
    }
}

/// The trees found so far, and more of them.
fn texts_with(found: Texts, more: Texts) -> Result<Texts, Memory>
    ensures { IfOk result (λ all. all ≡ texts_with found more) }
{
    let lists = joined(found.lists, more.lists)?;
    let bodies = joined(found.bodies, more.bodies)?;
    Ok(Texts { lists, bodies })
}

/// The third walk over a file: the trees of all methods and bodies, or the first fault in one.
pub fn third_walk(
    alloc: Global,
    reading: &Reading<'_, '_>,
    extensions: &[DraftExtension],
) -> Result<Texts, ProjectFault>
    requires right { All IsRightExtension extensions.now }
    requires few { length reading.now.items.now < 2 ^ 32 }
    requires few_lists { length (flat_map (λ e. e.recorders) extensions.now) ≤ 256 }
    ensures { (result ≡ Err ProjectFault.Memory) ⊎ (result ≡ texts_at reading.now.names.now reading.now.items.now reading.now.on.now 0 0 extensions.now) }
{
    let mut found = Texts {
        lists: Seq::new(alloc),
        bodies: Seq::new(alloc),
    };
    for (index, extension) in extensions.iter().enumerate() {
        let prefix = inside_nth(alloc, "extensions", index)?;
        let first = found.lists.len();
        match extension_texts(alloc, reading, first, prefix.as_str(), extension) {
            Ok(more) => found = texts_with(found, more)?,
            Err(fault) => return Err(fault),
        }
    }
    Ok(found)
}
