ghost use Rattle.std.specs.Prelude.{◌≡◌, ◌++◌, string_bytes, slice_get, OnOk};
ghost use Rattle.world_text.specs.WorldText.{lines_text, object_at, objects_text, world_text};

use crate::context::push_context;
use crate::numbering::Numbers;
use crate::object::push_object;
use crate::statics::push_all_statics;
use item_types::{Memory, Names, Text};
use startup_world::World;

fn push_lines(lines: &[Text], out: &mut String) -> Result<(), Memory>
    ensures { OnOk result (string_bytes out.new ≡ string_bytes out.old ++ lines_text lines.now) }
{
    for line in lines {
        out.push_str(line.as_str())?;
        out.push_str("\n")?;
    }
    Ok(())
}

fn push_object_at(
    names: &Names,
    world: &World,
    object: u32,
    numbers: &Numbers,
    out: &mut String,
) -> Result<(), Memory>
    ensures { OnOk result (string_bytes out.new ≡ string_bytes out.old ++ object_at names.now numbers.now (slice_get world.now.objects object)) }
{
    match world.objects().get(object as usize) {
        Some(object) => push_object(names, object, numbers, out),
        None => Ok(()),
    }
}

fn push_objects(
    names: &Names,
    world: &World,
    numbers: &Numbers,
    order: &[u32],
    out: &mut String,
) -> Result<(), Memory>
    ensures { OnOk result (string_bytes out.new ≡ string_bytes out.old ++ objects_text names.now numbers.now world.now 0 order.now) }
{
    for (number, object) in order.iter().enumerate() {
        write!(out, "object {number} = ")?;
        push_object_at(names, world, *object, numbers, out)?;
        out.push_str("\n")?;
    }
    Ok(())
}

/// Appends what a started application printed and left: each line as it is; a line for each static
/// that isn't null, for each pair of the context, and for each object by its number.
///
/// # Errors
/// `Memory` for want of memory.
pub fn push_world(
    names: &Names,
    world: &World,
    numbers: &Numbers,
    out: &mut String,
) -> Result<(), Memory>
    ensures { OnOk result (string_bytes out.new ≡ string_bytes out.old ++ world_text names.now numbers.now world.now) }
{
    push_lines(world.lines(), out)?;
    push_all_statics(names.recorders.as_slice(), world.statics(), numbers, out)?;
    push_context(world.context(), numbers, out)?;
    push_objects(names, world, numbers, numbers.order(), out)
}
