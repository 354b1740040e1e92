ghost use Rattle.std.specs.Prelude.{◌≡◌, ◌+◌, ◌/◌, ◌%◌, ◌<◌, ◌^◌, [], ◌∷◌, ◌++◌, List, ℕ, length, IfOk, OnOk};
ghost use Rattle.std.specs.List.{flat_map};
ghost use Rattle.class_pool.specs.Tags.{byte_of};
ghost use Rattle.class_grammar.specs.Grammar.{Spells};
ghost use Rattle.class_grammar.specs.Valid.{IsValid};
ghost use Rattle.class_grammar.specs.Bytes as spec;

use class_pool::{Attribute, CatchRow, Class, Code, Entry, Member, Tag, encode_text};
use item_types::{Bytes, Memory, Seq};
use std::alloc::{AllocError, Global};

fn put_tag(out: &mut Vec<u8>, tag: Tag) -> Result<(), AllocError>
    ensures { OnOk result (out.new.items ≡ out.old.items ++ byte_of tag ∷ []) }
{
    out.push(tag.byte())?;
    Ok(())
}

fn put_u2(out: &mut Vec<u8>, n: usize) -> Result<(), AllocError>
    ensures { OnOk result (out.new.items ≡ out.old.items ++ spec.u2 n) }
{
    out.extend_from_slice(&((n % 65536) as u16).to_be_bytes())
}

fn put_u4(out: &mut Vec<u8>, n: u64) -> Result<(), AllocError>
    ensures { OnOk result (out.new.items ≡ out.old.items ++ spec.u4 n) }
{
    out.extend_from_slice(&((n % 0x1_0000_0000) as u32).to_be_bytes())
}

fn put_pair(out: &mut Vec<u8>, tag: Tag, a: u16, b: u16) -> Result<(), AllocError>
    ensures { OnOk result (out.new.items ≡ out.old.items ++ (byte_of tag ∷ [] ++ (spec.u2 a ++ spec.u2 b))) }
{
    put_tag(out, tag)?;
    put_u2(out, a as usize)?;
    put_u2(out, b as usize)
}

fn put_one(out: &mut Vec<u8>, tag: Tag, a: u16) -> Result<(), AllocError>
    ensures { OnOk result (out.new.items ≡ out.old.items ++ (byte_of tag ∷ [] ++ spec.u2 a)) }
{
    put_tag(out, tag)?;
    put_u2(out, a as usize)
}

fn put_eight(out: &mut Vec<u8>, tag: Tag, n: u64) -> Result<(), AllocError>
    ensures { OnOk result (out.new.items ≡ out.old.items ++ (byte_of tag ∷ [] ++ (spec.u4 (n / 0x1_0000_0000) ++ spec.u4 (n % 0x1_0000_0000)))) }
{
    put_tag(out, tag)?;
    put_u4(out, n / 0x1_0000_0000)?;
    put_u4(out, n % 0x1_0000_0000)
}

/// A run of bytes behind its length.
fn put_counted(out: &mut Vec<u8>, bytes: &[u8]) -> Result<(), AllocError>
    ensures { OnOk result (out.new.items ≡ out.old.items ++ spec.counted bytes.now) }
{
    put_u4(out, bytes.len() as u64)?;
    out.extend_from_slice(bytes)
}

fn put_entry(alloc: Global, out: &mut Vec<u8>, entry: &Entry) -> Result<(), Memory>
    ensures { OnOk result (out.new.items ≡ out.old.items ++ spec.entry_bytes entry.now) }
{
    match entry {
        Entry::Utf8(text) => {
            let bytes = encode_text(alloc, text)?;
            put_tag(out, Tag::Utf8)?;
            put_u2(out, bytes.as_slice().len())?;
            out.extend_from_slice(bytes.as_slice())?;
        }
        Entry::Integer(n) => {
            put_tag(out, Tag::Integer)?;
            put_u4(out, *n as u64)?;
        }
        Entry::Float(n) => {
            put_tag(out, Tag::Float)?;
            put_u4(out, *n as u64)?;
        }
        Entry::Long(n) => put_eight(out, Tag::Long, n.cast_unsigned())?,
        Entry::Double(n) => put_eight(out, Tag::Double, *n)?,
        Entry::Class(n) => put_one(out, Tag::Class, *n)?,
        Entry::Str(n) => put_one(out, Tag::Str, *n)?,
        Entry::Field(a, b) => put_pair(out, Tag::Field, *a, *b)?,
        Entry::Method(a, b) => put_pair(out, Tag::Method, *a, *b)?,
        Entry::Interface(a, b) => put_pair(out, Tag::Interface, *a, *b)?,
        Entry::NameType(a, b) => put_pair(out, Tag::NameType, *a, *b)?,
        Entry::Gap => {}
    }
    Ok(())
}

fn put_pool(alloc: Global, out: &mut Vec<u8>, entries: &[Entry]) -> Result<(), Memory>
    ensures { OnOk result (out.new.items ≡ out.old.items ++ spec.pool_bytes entries.now) }
{
    put_u2(out, length_of(entries) + 1)?;
    for entry in entries {
        put_entry(alloc, out, entry)?;
    }
    Ok(())
}

/// No list of entries fills half of memory.
fn length_of(entries: &[Entry]) -> usize
    ensures value { result ≡ length entries.now }
    ensures small { result < 2 ^ 63 }
{
    entries.len()
}

fn put_row(out: &mut Vec<u8>, row: &CatchRow) -> Result<(), AllocError>
    ensures { OnOk result (out.new.items ≡ out.old.items ++ spec.row_bytes row.now) }
{
    put_u2(out, row.start as usize)?;
    put_u2(out, row.end as usize)?;
    put_u2(out, row.handler as usize)?;
    put_u2(out, row.caught as usize)
}

fn put_rows(out: &mut Vec<u8>, rows: &[CatchRow]) -> Result<(), AllocError>
    ensures { OnOk result (out.new.items ≡ out.old.items ++ (spec.u2 (length rows.now) ++ flat_map spec.row_bytes rows.now)) }
{
    put_u2(out, rows.len())?;
    for row in rows {
        put_row(out, row)?;
    }
    Ok(())
}

#[cycle(put)]
fn put_attribute(alloc: Global, out: &mut Vec<u8>, attribute: &Attribute) -> Result<(), AllocError>
    ensures { OnOk result (out.new.items ≡ out.old.items ++ spec.attribute_bytes attribute.now) }
{
    match attribute {
        Attribute::Raw { name, bytes } => {
            put_u2(out, *name as usize)?;
            put_counted(out, bytes.as_slice())
        }
        Attribute::Coded { name, code } => {
            let mut inner = Vec::new(alloc);
            put_code(alloc, &mut inner, code)?;
            put_u2(out, *name as usize)?;
            put_counted(out, inner.as_slice())
        }
    }
}

#[cycle(put)]
fn put_code(alloc: Global, out: &mut Vec<u8>, code: &Code) -> Result<(), AllocError>
    ensures { OnOk result (out.new.items ≡ out.old.items ++ spec.code_bytes code.now) }
{
    put_u2(out, code.max_stack as usize)?;
    put_u2(out, code.max_locals as usize)?;
    put_counted(out, code.code.as_slice())?;
    put_rows(out, code.catches.as_slice())?;
    put_attributes(alloc, out, code.attributes.as_slice())
}

#[cycle(put)]
fn put_attributes(
    alloc: Global,
    out: &mut Vec<u8>,
    attributes: &[Attribute],
) -> Result<(), AllocError>
    ensures { OnOk result (out.new.items ≡ out.old.items ++ spec.attributes_bytes attributes.now) }
{
    put_u2(out, attributes.len())?;
    for attribute in attributes {
        put_attribute(alloc, out, attribute)?;
    }
    Ok(())
}

fn put_interfaces(out: &mut Vec<u8>, interfaces: &[u16]) -> Result<(), AllocError>
    ensures { OnOk result (out.new.items ≡ out.old.items ++ spec.interfaces_bytes interfaces.now) }
{
    put_u2(out, interfaces.len())?;
    for interface in interfaces {
        put_u2(out, *interface as usize)?;
    }
    Ok(())
}

fn put_members(alloc: Global, out: &mut Vec<u8>, members: &[Member]) -> Result<(), AllocError>
    ensures { OnOk result (out.new.items ≡ out.old.items ++ spec.members_bytes members.now) }
{
    put_u2(out, members.len())?;
    for member in members {
        put_member(alloc, out, member)?;
    }
    Ok(())
}

fn put_member(alloc: Global, out: &mut Vec<u8>, member: &Member) -> Result<(), AllocError>
    ensures { OnOk result (out.new.items ≡ out.old.items ++ spec.member_bytes member.now) }
{
    put_u2(out, member.flags.bits as usize)?;
    put_u2(out, member.name as usize)?;
    put_u2(out, member.descriptor as usize)?;
    put_attributes(alloc, out, member.attributes.as_slice())
}

fn bytes_of(alloc: Global, class: &Class) -> Result<Bytes, Memory>
    ensures { IfOk result (λ b. b ≡ spec.class_bytes class.now) }
{
    let mut out = Vec::new(alloc);
    put_u4(&mut out, 0xcafe_babe)?;
    put_u2(&mut out, 0)?;
    put_u2(&mut out, class.major as usize)?;
    put_pool(alloc, &mut out, class.pool.entries())?;
    put_u2(&mut out, class.flags.bits as usize)?;
    put_u2(&mut out, class.this as usize)?;
    put_u2(&mut out, class.parent as usize)?;
    put_interfaces(&mut out, class.interfaces.as_slice())?;
    put_members(alloc, &mut out, class.fields.as_slice())?;
    put_members(alloc, &mut out, class.methods.as_slice())?;
    put_attributes(alloc, &mut out, class.attributes.as_slice())?;
    Ok(Seq::from_vec(out))
}

/// The bytes that spell the class, as the file of its name has them. The class is valid: all its
/// indices refer to entries of the right kinds and its counts fit, as in every class that was read
/// from bytes (`class_valid::valid_exactly`).
///
/// # Errors
/// `Memory` for want of memory.
pub fn write_class(alloc: Global, class: &Class) -> Result<Bytes, Memory>
    requires { IsValid class.now }
    ensures spells { IfOk result (λ b. Spells b class.now) }
    ensures bytes { IfOk result (λ b. b ≡ spec.class_bytes class.now) }
{
    bytes_of(alloc, class)
}
