ghost use Rattle.std.specs.Prelude.{◌≡◌, ◌++◌, string_bytes, OnOk};
ghost use Rattle.world_text.specs.WorldText.{static_text, statics_text, recorders_text};

use crate::numbering::Numbers;
use crate::object::push_slot;
use item_types::{Memory, RecorderDecl, Seq, Text};
use startup_rules::Slot;

/// Appends a line for a static that isn't null.
fn push_static(
    recorder: &str,
    field: &str,
    slot: &Slot,
    numbers: &Numbers,
    out: &mut String,
) -> Result<(), Memory>
    ensures { OnOk result (string_bytes out.new ≡ string_bytes out.old ++ static_text numbers.now recorder.now field.now slot.now) }
{
    if let Slot::Null = slot {
        return Ok(());
    }
    out.push_str("static ")?;
    out.push_str(recorder)?;
    out.push_str(".")?;
    out.push_str(field)?;
    out.push_str(" = ")?;
    push_slot(slot, numbers, out)?;
    out.push_str("\n")?;
    Ok(())
}

fn push_statics(
    recorder: &str,
    fields: &[Text],
    slots: &[Slot],
    numbers: &Numbers,
    out: &mut String,
) -> Result<(), Memory>
    ensures { OnOk result (string_bytes out.new ≡ string_bytes out.old ++ statics_text numbers.now recorder.now fields.now slots.now) }
{
    for i in 0..fields.len().min(slots.len()) {
        push_static(recorder, fields[i].as_str(), &slots[i], numbers, out)?;
    }
    Ok(())
}

/// Appends a line for each static that isn't null, by recorder and static.
pub fn push_all_statics(
    decls: &[RecorderDecl],
    rows: &[Seq<Slot>],
    numbers: &Numbers,
    out: &mut String,
) -> Result<(), Memory>
    ensures { OnOk result (string_bytes out.new ≡ string_bytes out.old ++ recorders_text numbers.now decls.now rows.now) }
{
    for i in 0..decls.len().min(rows.len()) {
        let decl = &decls[i];
        push_statics(
            decl.name.as_str(),
            decl.statics.as_slice(),
            rows[i].as_slice(),
            numbers,
            out,
        )?;
    }
    Ok(())
}
