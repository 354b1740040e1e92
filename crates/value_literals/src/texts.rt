ghost use Rattle.std.specs.Prelude.{◌≡◌, ◌++◌, IfOk, OnOk, codes, slice_get, string_bytes};
ghost use Rattle.std.specs.Option.{option_copied};
ghost use Rattle.value_literals.specs.Code as spec;
ghost use Rattle.value_literals.specs.Emitted as whole;

use item_types::{Memory, MethodSig, Names, Seq, Text};
use recording_units::{Kept, Kind};
use std::alloc::Global;

fn recorder_name(names: &Names, recorder: u32) -> &str
    ensures { result.now ≡ spec.recorder_name (slice_get names.now.recorders recorder) }
{
    match names.recorders.as_slice().get(recorder as usize) {
        Some(decl) => decl.name.as_str(),
        None => "",
    }
}

/// The class of what is made.
pub fn kind_class(alloc: Global, names: &Names, kind: Kind) -> Result<Text, Memory>
    ensures { IfOk result (λ t. t ≡ spec.kind_class names.now kind) }
{
    match kind {
        Kind::List => Text::of(alloc, "java/util/ArrayList"),
        Kind::Bean(bean) => {
            let name = names.bean_name(bean);
            let text = format!(in alloc; "bean/{name}")?;
            Ok(Text::from_string(text))
        }
        Kind::Recorder(recorder) => {
            let name = recorder_name(names, recorder);
            let text = format!(in alloc; "rec/{name}")?;
            Ok(Text::from_string(text))
        }
    }
}

/// The descriptor of a class's objects.
pub fn of_class(alloc: Global, class: &Text) -> Result<Text, Memory>
    ensures { IfOk result (λ t. t ≡ spec.of_class class.now) }
{
    let class = class.as_str();
    let text = format!(in alloc; "L{class};")?;
    Ok(Text::from_string(text))
}

pub fn number_name(alloc: Global, number: u32) -> Result<Text, Memory>
    ensures { IfOk result (λ t. t ≡ spec.number_name number) }
{
    let text = format!(in alloc; "n${number}")?;
    Ok(Text::from_string(text))
}

pub fn part_name(alloc: Global, number: u32) -> Result<Text, Memory>
    ensures { IfOk result (λ t. t ≡ whole.part_name number) }
{
    let text = format!(in alloc; "part${number}")?;
    Ok(Text::from_string(text))
}

pub fn kept_key(alloc: Global, kept: Kept) -> Result<Text, Memory>
    ensures { IfOk result (λ t. t ≡ spec.kept_key kept) }
{
    let step = kept.step;
    let call = kept.call;
    let text = format!(in alloc; "proxy${step}${call}")?;
    Ok(Text::from_string(text))
}

pub fn field_name(alloc: Global, names: &Names, bean: u32, field: u32) -> Result<Text, Memory>
    ensures { IfOk result (λ t. t ≡ spec.field_name names.now bean field) }
{
    match names.fields_of(bean).get(field as usize) {
        Some(name) => Text::of(alloc, name.as_str()),
        None => Text::of(alloc, ""),
    }
}

/// The method that a recorder has under a number.
pub fn sig_of(names: &Names, recorder: u32, method: u32) -> Option<&MethodSig>
    ensures { option_copied result ≡ spec.sig_of (slice_get names.now.recorders recorder) method }
{
    match names.recorders.as_slice().get(recorder as usize) {
        Some(decl) => decl.methods.as_slice().get(method as usize),
        None => None,
    }
}

fn push_params(params: &[Text], out: &mut String) -> Result<(), Memory>
    ensures { OnOk result (string_bytes out.new ≡ string_bytes out.old ++ spec.objects params.now) }
{
    for param in params {
        let _ = param.as_str().len();
        out.push_str("Ljava/lang/Object;")?;
    }
    Ok(())
}

/// The descriptor of a method with these parameters.
pub fn method_descriptor(alloc: Global, params: &[Text]) -> Result<Text, Memory>
    ensures { IfOk result (λ t. t ≡ spec.method_descriptor params.now) }
{
    let mut text = String::new(alloc);
    text.push_str("(")?;
    push_params(params, &mut text)?;
    text.push_str(")Ljava/lang/Object;")?;
    Ok(Text::from_string(text))
}
