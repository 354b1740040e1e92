ghost use Rattle.std.specs.Prelude.{◌≡◌, ◌++◌, [], map, codes, string_bytes, slice_get, OnOk};
ghost use Rattle.item_types.specs.Printed.{joined, separator};
ghost use Rattle.world_text.specs.WorldText.{slot_text, fields_text, object_text, recorder_name as name_in};

use crate::numbering::Numbers;
use item_types::{Memory, Names, Text, push_quoted};
use startup_rules::{Object, Slot};

/// Appends a slot's text: a value without nodes, or the number of an object.
///
/// # Errors
/// `Memory` for want of memory.
pub fn push_slot(slot: &Slot, numbers: &Numbers, out: &mut String) -> Result<(), Memory>
    ensures { OnOk result (string_bytes out.new ≡ string_bytes out.old ++ slot_text numbers.now slot.now) }
{
    match slot {
        Slot::Null => out.push_str("null")?,
        Slot::Bool(b) => write!(out, "{b}")?,
        Slot::Long(n) => write!(out, "{n}")?,
        Slot::Str(text) => push_quoted(text.as_str(), out)?,
        Slot::Obj(object) => {
            let number = numbers.of(*object);
            write!(out, "&{number}")?;
        }
    }
    Ok(())
}

fn push_slots(
    slots: &[Slot],
    numbers: &Numbers,
    before: &str,
    out: &mut String,
) -> Result<(), Memory>
    ensures { OnOk result (string_bytes out.new ≡ string_bytes out.old ++ joined before.now (codes ", ") (map (slot_text numbers.now) slots.now)) }
{
    let mut mark = before;
    for slot in slots {
        out.push_str(mark)?;
        push_slot(slot, numbers, out)?;
        mark = ", ";
    }
    Ok(())
}

fn push_fields(
    fields: &[Text],
    slots: &[Slot],
    numbers: &Numbers,
    out: &mut String,
) -> Result<(), Memory>
    ensures { OnOk result (string_bytes out.new ≡ string_bytes out.old ++ fields_text numbers.now fields.now slots.now) }
{
    for i in 0..fields.len().min(slots.len()) {
        push_separator(i, out)?;
        push_label(fields[i].as_str(), out)?;
        push_slot(&slots[i], numbers, out)?;
    }
    Ok(())
}

/// Appends what stands before the field at that place.
fn push_separator(place: usize, out: &mut String) -> Result<(), Memory>
    ensures { OnOk result (string_bytes out.new ≡ string_bytes out.old ++ separator place) }
{
    if place > 0 {
        out.push(',')?;
        out.push(' ')?;
    }
    Ok(())
}

/// Appends the field's name and what stands behind it.
fn push_label(name: &str, out: &mut String) -> Result<(), Memory>
    ensures { OnOk result (string_bytes out.new ≡ string_bytes out.old ++ (name.now ++ codes ": ")) }
{
    out.push_str(name)?;
    out.push(':')?;
    out.push(' ')?;
    Ok(())
}

fn recorder_name(names: &Names, recorder: u32) -> &str
    ensures { result.now ≡ name_in (slice_get names.now.recorders recorder) }
{
    match names.recorders.as_slice().get(recorder as usize) {
        Some(decl) => decl.name.as_str(),
        None => "",
    }
}

/// Appends an object's text, its references by the numbers of the view.
///
/// # Errors
/// `Memory` for want of memory.
pub fn push_object(
    names: &Names,
    object: &Object,
    numbers: &Numbers,
    out: &mut String,
) -> Result<(), Memory>
    ensures { OnOk result (string_bytes out.new ≡ string_bytes out.old ++ object_text names.now numbers.now object.now) }
{
    match object {
        Object::List(items) => {
            out.push('[')?;
            push_slots(items.as_slice(), numbers, "", out)?;
            out.push(']')?;
        }
        Object::Bean(bean, slots) => {
            out.push_str(names.bean_name(*bean))?;
            out.push('{')?;
            push_fields(names.fields_of(*bean), slots.as_slice(), numbers, out)?;
            out.push('}')?;
        }
        Object::Recorder(recorder, slots) => {
            out.push_str("recorder ")?;
            out.push_str(recorder_name(names, *recorder))?;
            out.push('{')?;
            push_fields(
                names.recorder_fields(*recorder),
                slots.as_slice(),
                numbers,
                out,
            )?;
            out.push('}')?;
        }
    }
    Ok(())
}
