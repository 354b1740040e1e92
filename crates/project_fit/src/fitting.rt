ghost use Rattle.std.specs.Prelude.{◌≡◌, ◌++◌, ◌∷◌, ◌&&◌, ◌==◌, ◌≤◌, ◌<◌, ◌^◌, ◌+◌, [], not, length, map, nat_le, IfOk, IsTrue, codes, string_bytes};
ghost use Rattle.std.specs.List.{list_all, list_any};
ghost use Rattle.ext_draft.specs.Names.{is_name};
ghost use Rattle.project_fit.specs.Fits.{are_names, bean_fits, beans_fit, fits, item_fits, items_fit, kind_fits, method_fits, method_names, method_total, names_fit, no_number_twice, none_twice, numbers_fit, recorder_fits, recorders_fit, full_name, step_fits, step_numbers_fit, steps_fit};

use crate::full_names::full_names;
use crate::item_numbers::numbers_fit;
use ext_draft::is_name;
use item_types::{
    BeanDecl, ItemDecl, ItemKind, Memory, MethodSig, Names, RecorderDecl, Seq, StepDecl, Text,
};
use name_index::{Index, Named};
use std::alloc::Global;

fn all_names<M: Named>(things: &[M]) -> bool
    ensures { result ≡ list_all is_name (map M.named things.now) }
{
    for thing in things {
        if !is_name(thing.named()) {
            return false;
        }
    }
    true
}

fn none_twice<M: Named>(alloc: Global, things: &[M]) -> Result<bool, Memory>
    ensures { IfOk result (λ b. b ≡ none_twice [] (map M.named things.now)) }
{
    let mut before = Index::new(alloc);
    for thing in things {
        if before.place(thing.named()).is_some() {
            return Ok(false);
        }
        before = before.with(thing.named())?;
    }
    Ok(true)
}

/// Whether the things have names, are at most so many, and no name is given twice.
fn are_names<M: Named>(alloc: Global, limit: usize, things: &[M]) -> Result<bool, Memory>
    ensures { IfOk result (λ b. b ≡ are_names limit (map M.named things.now)) }
{
    if things.len() <= limit && all_names(things) {
        none_twice(alloc, things)
    } else {
        Ok(false)
    }
}

fn item_fits(item: &ItemDecl) -> bool
    ensures { result ≡ item_fits item.now }
{
    match &item.kind {
        ItemKind::Simple => true,
        ItemKind::Multi => true,
        ItemKind::Ordered(by) => is_name(by.as_str()),
        ItemKind::Empty => true,
    }
}

fn each_item_fits(items: &[ItemDecl]) -> bool
    ensures { result ≡ list_all item_fits items.now }
{
    for item in items {
        if !item_fits(item) {
            return false;
        }
    }
    true
}

fn items_fit(alloc: Global, items: &[ItemDecl]) -> Result<bool, Memory>
    ensures { IfOk result (λ b. b ≡ items_fit items.now) }
{
    Ok(are_names(alloc, 2048, items)? && each_item_fits(items))
}

fn each_bean_fits(alloc: Global, beans: &[BeanDecl]) -> Result<bool, Memory>
    ensures { IfOk result (λ b. b ≡ list_all bean_fits beans.now) }
{
    for bean in beans {
        if !are_names(alloc, 16, bean.fields.as_slice())? {
            return Ok(false);
        }
    }
    Ok(true)
}

fn beans_fit(alloc: Global, beans: &[BeanDecl]) -> Result<bool, Memory>
    ensures { IfOk result (λ b. b ≡ beans_fit beans.now) }
{
    if are_names(alloc, 1024, beans)? {
        each_bean_fits(alloc, beans)
    } else {
        Ok(false)
    }
}

fn each_method_fits(alloc: Global, methods: &[MethodSig]) -> Result<bool, Memory>
    ensures { IfOk result (λ b. b ≡ list_all method_fits methods.now) }
{
    for method in methods {
        if !are_names(alloc, 8, method.params.as_slice())? {
            return Ok(false);
        }
    }
    Ok(true)
}

fn methods_fit(alloc: Global, methods: &[MethodSig]) -> Result<bool, Memory>
    ensures { IfOk result (λ b. b ≡ (are_names 1024 (method_names methods.now) && list_all method_fits methods.now)) }
{
    if are_names(alloc, 1024, methods)? {
        each_method_fits(alloc, methods)
    } else {
        Ok(false)
    }
}

fn recorder_fits(alloc: Global, recorder: &RecorderDecl) -> Result<bool, Memory>
    ensures { IfOk result (λ b. b ≡ recorder_fits recorder.now) }
{
    let fields = are_names(alloc, 16, recorder.fields.as_slice())?;
    let statics = are_names(alloc, 16, recorder.statics.as_slice())?;
    let methods = methods_fit(alloc, recorder.methods.as_slice())?;
    Ok(fields && statics && methods)
}

fn each_recorder_fits(alloc: Global, recorders: &[RecorderDecl]) -> Result<bool, Memory>
    ensures { IfOk result (λ b. b ≡ list_all recorder_fits recorders.now) }
{
    for recorder in recorders {
        if !recorder_fits(alloc, recorder)? {
            return Ok(false);
        }
    }
    Ok(true)
}

/// Whether the recorders have at most 1,024 methods.
fn few_methods(recorders: &[RecorderDecl]) -> bool
    ensures { result ≡ nat_le (method_total recorders.now) 1024 }
{
    let mut left = 1024;
    for recorder in recorders {
        let count = recorder.methods.len();
        if left < count {
            return false;
        }
        left -= count;
    }
    true
}

fn recorders_fit(alloc: Global, recorders: &[RecorderDecl]) -> Result<bool, Memory>
    ensures { IfOk result (λ b. b ≡ recorders_fit recorders.now) }
{
    let named = are_names(alloc, 256, recorders)?;
    let each = each_recorder_fits(alloc, recorders)?;
    Ok(named && each && few_methods(recorders))
}

#[tactic(auto, unfolding(crate::specs::Fits::names_fit))]
fn names_fit(alloc: Global, names: &Names) -> Result<bool, Memory>
    ensures { IfOk result (λ b. b ≡ names_fit names.now) }
{
    let items = items_fit(alloc, names.items.as_slice())?;
    let beans = beans_fit(alloc, names.beans.as_slice())?;
    let recorders = recorders_fit(alloc, names.recorders.as_slice())?;
    Ok(items && beans && recorders)
}

#[tactic(auto, unfolding(crate::specs::Fits::step_numbers_fit))]
fn step_numbers_fit(size: usize, step: &StepDecl) -> bool
    ensures { result ≡ step_numbers_fit size step.now }
{
    let consumed = numbers_fit(size, 64, step.consumes.as_slice());
    let produced = numbers_fit(size, 64, step.produces.as_slice());
    consumed && produced
}

fn step_fits(size: usize, step: &StepDecl) -> bool
    ensures { result ≡ step_fits size step.now }
{
    is_name(step.ext.as_str()) && is_name(step.name.as_str()) && step_numbers_fit(size, step)
}

fn each_step_fits(size: usize, steps: &[StepDecl]) -> bool
    ensures { result ≡ list_all (step_fits size) steps.now }
{
    for step in steps {
        if !step_fits(size, step) {
            return false;
        }
    }
    true
}

/// Whether no two steps have one full name.
#[tactic(auto, using(crate::proofs::FullNames::own_names))]
fn steps_apart(alloc: Global, steps: &[StepDecl]) -> Result<bool, Memory>
    ensures { IfOk result (λ b. b ≡ none_twice [] (map full_name steps.now)) }
{
    let names = full_names(alloc, steps)?;
    none_twice(alloc, names.as_slice())
}

#[tactic(auto, unfolding(crate::specs::Fits::steps_fit))]
fn steps_fit(alloc: Global, size: usize, steps: &[StepDecl]) -> Result<bool, Memory>
    ensures { IfOk result (λ b. b ≡ steps_fit size steps.now) }
{
    if steps.len() <= 2048 && each_step_fits(size, steps) {
        steps_apart(alloc, steps)
    } else {
        Ok(false)
    }
}

/// Whether names, steps and final items fit each other as those of a project do: all names are
/// right; none is given twice among items, beans, recorders, the methods, fields and statics of a
/// recorder, the fields of a bean, the parameters of a method, or the steps of an extension; each
/// item that is named is declared; a step names none twice among what it consumes or what it
/// produces; no final item stands there twice; and the limits on what a file declares are kept.
///
/// # Errors
/// `Memory` for want of memory.
pub fn fits(
    alloc: Global,
    names: &Names,
    steps: &Seq<StepDecl>,
    finals: &Seq<u32>,
) -> Result<bool, Memory>
    ensures { IfOk result (λ b. b ≡ fits names.now steps.now finals.now) }
{
    let declared = names_fit(alloc, names)?;
    let size = names.items.len();
    let stepped = steps_fit(alloc, size, steps.as_slice())?;
    Ok(declared && stepped && numbers_fit(size, 2048, finals.as_slice()))
}
