ghost use Rattle.std.specs.Prelude.{◌≡◌, ◌++◌, codes, string_bytes, OnOk, IfOk};
ghost use Rattle.std.specs.List.{flat_map};
ghost use Rattle.std.specs.Option.{option_copied};
ghost use Rattle.class_dump.specs.Dump as spec;

use crate::code::push_code;
use crate::entry::push_pool;
use crate::hex::push_hex;
use crate::name::{push_class_at, push_text_at};
use class_pool::{Attribute, Class, Code, Entry, Member};
use item_types::Memory;
use std::alloc::Global;

fn push_parent(pool: &[Entry], parent: u16, out: &mut String) -> Result<(), Memory>
    ensures { OnOk result (string_bytes out.new ≡ string_bytes out.old ++ spec.parent_text pool.now parent) }
{
    if parent == 0 {
        out.push_str("-")?;
        Ok(())
    } else {
        push_class_at(pool, parent, out)
    }
}

fn push_head(class: &Class, out: &mut String) -> Result<(), Memory>
    ensures { OnOk result (string_bytes out.new ≡ string_bytes out.old ++ spec.head_line class.now) }
{
    out.push_str("class ")?;
    push_class_at(class.pool.entries(), class.this, out)?;
    let major = class.major;
    write!(out, " major {major} super ")?;
    push_parent(class.pool.entries(), class.parent, out)?;
    out.push_str("\n")?;
    Ok(())
}

fn push_interfaces(pool: &[Entry], interfaces: &[u16], out: &mut String) -> Result<(), Memory>
    ensures { OnOk result (string_bytes out.new ≡ string_bytes out.old ++ flat_map (spec.interface_line pool.now) interfaces.now) }
{
    for interface in interfaces {
        out.push_str("interface ")?;
        push_class_at(pool, *interface, out)?;
        out.push_str("\n")?;
    }
    Ok(())
}

fn push_member(kind: &str, pool: &[Entry], member: &Member, out: &mut String) -> Result<(), Memory>
    ensures { OnOk result (string_bytes out.new ≡ string_bytes out.old ++ spec.member_text kind.now pool.now member.now) }
{
    out.push_str(kind)?;
    push_hex(&member.flags.bits.to_be_bytes(), out)?;
    out.push_str(" ")?;
    push_text_at(pool, member.name, out)?;
    out.push_str(" ")?;
    push_text_at(pool, member.descriptor, out)
}

fn push_fields(pool: &[Entry], fields: &[Member], out: &mut String) -> Result<(), Memory>
    ensures { OnOk result (string_bytes out.new ≡ string_bytes out.old ++ flat_map (spec.field_line pool.now) fields.now) }
{
    for field in fields {
        push_member("field ", pool, field, out)?;
        out.push_str("\n")?;
    }
    Ok(())
}

/// The code among the attributes.
fn code_in(attributes: &[Attribute]) -> Option<&Code>
    ensures { option_copied result ≡ spec.code_in attributes.now }
{
    for attribute in attributes {
        if let Attribute::Coded { code, .. } = attribute {
            return Some(code);
        }
    }
    None
}

fn push_method_code(attributes: &[Attribute], out: &mut String) -> Result<(), Memory>
    ensures { OnOk result (string_bytes out.new ≡ string_bytes out.old ++ spec.code_text (spec.code_in attributes.now)) }
{
    match code_in(attributes) {
        None => {
            out.push_str("\n")?;
            Ok(())
        }
        Some(code) => {
            let stack = code.max_stack;
            let locals = code.max_locals;
            writeln!(out, " stack {stack} locals {locals}")?;
            push_code(code.code.as_slice(), out)
        }
    }
}

fn push_methods(pool: &[Entry], methods: &[Member], out: &mut String) -> Result<(), Memory>
    ensures { OnOk result (string_bytes out.new ≡ string_bytes out.old ++ flat_map (spec.method_lines pool.now) methods.now) }
{
    for method in methods {
        push_member("method ", pool, method, out)?;
        push_method_code(method.attributes.as_slice(), out)?;
    }
    Ok(())
}

fn push_attribute(pool: &[Entry], attribute: &Attribute, out: &mut String) -> Result<(), Memory>
    ensures { OnOk result (string_bytes out.new ≡ string_bytes out.old ++ spec.attribute_line pool.now attribute.now) }
{
    match attribute {
        Attribute::Raw { name, bytes } => {
            out.push_str("attribute ")?;
            push_text_at(pool, *name, out)?;
            let len = bytes.len();
            writeln!(out, " {len}")?;
        }
        Attribute::Coded { .. } => {}
    }
    Ok(())
}

fn push_attributes(pool: &[Entry], attributes: &[Attribute], out: &mut String) -> Result<(), Memory>
    ensures { OnOk result (string_bytes out.new ≡ string_bytes out.old ++ flat_map (spec.attribute_line pool.now) attributes.now) }
{
    for attribute in attributes {
        push_attribute(pool, attribute, out)?;
    }
    Ok(())
}

/// The text of a class: a line for the class, for each entry of its pool, its interfaces, its fields,
/// its methods with their instructions, and its attributes.
///
/// # Errors
/// `Memory` for want of memory.
pub fn dump(alloc: Global, class: &Class) -> Result<String, Memory>
    ensures { IfOk result (λ s. string_bytes s ≡ spec.dump_text class.now) }
{
    let mut out = String::new(alloc);
    let pool = class.pool.entries();
    push_head(class, &mut out)?;
    push_pool(pool, &mut out)?;
    push_interfaces(pool, class.interfaces.as_slice(), &mut out)?;
    push_fields(pool, class.fields.as_slice(), &mut out)?;
    push_methods(pool, class.methods.as_slice(), &mut out)?;
    push_attributes(pool, class.attributes.as_slice(), &mut out)?;
    Ok(out)
}
