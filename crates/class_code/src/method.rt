ghost use Rattle.std.specs.Prelude.{◌≡◌, ◌++◌, OnOk};
ghost use Rattle.class_code.specs.Encoded.{decoded, Gives};
ghost use Rattle.class_code.specs.declared.method.MethodInstruction.TheVariants as code;
ghost use Rattle.class_code.specs.Methods as spec;

use crate::instruction::{Instruction, decode, push_instruction, push_operand};
use item_types::{Memory, Seq};

/// An instruction of a compiled method (JVMS 6.5). A jump's distance is counted from the
/// instruction's own first byte.
#[derive(Clone, Copy, Debug)]
pub enum MethodInstruction {
    /// One that startup classes use too. `ldc_w` names an int here as well.
    Startup(Instruction),
    /// Goes so many bytes on where the int is 0.
    Ifeq(i16),
    /// Goes so many bytes on.
    Goto(i16),
    /// Ends the method with the reference.
    Areturn,
}

#[tactic(auto, unfolding(crate::specs::Methods::distance_at))]
fn distance_at(rest: &[u8]) -> Option<(i16, &[u8])>
    ensures { Gives (λ x. (x.0, x.1.now)) result (spec.distance_at rest.now) }
{
    if rest.len() < 2 {
        return None;
    }
    let distance = rest[0] as u16 * 256 + rest[1] as u16;
    Some((distance.cast_signed(), &rest[2..]))
}

fn ifeq_at(rest: &[u8]) -> Option<(MethodInstruction, &[u8])>
    ensures { Gives (λ x. (x.0, x.1.now)) result (spec.jump code.Ifeq (spec.distance_at rest.now)) }
{
    match distance_at(rest) {
        Some((distance, rest)) => Some((MethodInstruction::Ifeq(distance), rest)),
        None => None,
    }
}

fn goto_at(rest: &[u8]) -> Option<(MethodInstruction, &[u8])>
    ensures { Gives (λ x. (x.0, x.1.now)) result (spec.jump code.Goto (spec.distance_at rest.now)) }
{
    match distance_at(rest) {
        Some((distance, rest)) => Some((MethodInstruction::Goto(distance), rest)),
        None => None,
    }
}

fn startup_at(bytes: &[u8]) -> Option<(MethodInstruction, &[u8])>
    ensures { Gives (λ x. (x.0, x.1.now)) result (spec.startup (decoded bytes.now)) }
{
    match decode(bytes) {
        Some((instruction, rest)) => Some((MethodInstruction::Startup(instruction), rest)),
        None => None,
    }
}

/// The instruction of a compiled method that the bytes begin with, and the bytes behind it; none
/// where they begin with no whole one.
#[tactic(auto, unfolding(crate::specs::Methods::method_decoded))]
pub fn decode_method(bytes: &[u8]) -> Option<(MethodInstruction, &[u8])>
    ensures { Gives (λ x. (x.0, x.1.now)) result (spec.method_decoded bytes.now) }
{
    match bytes {
        [byte, rest @ ..] => {
            if *byte == 0x99 {
                ifeq_at(rest)
            } else if *byte == 0xa7 {
                goto_at(rest)
            } else if *byte == 0xb0 {
                Some((MethodInstruction::Areturn, rest))
            } else {
                startup_at(bytes)
            }
        }
        _ => None,
    }
}

/// Appends the bytes of the instruction.
///
/// # Errors
/// `Memory` for want of memory.
#[tactic(auto, unfolding(crate::specs::Methods::method_encoded))]
pub fn push_method_instruction(
    instruction: MethodInstruction,
    out: &mut Seq<u8>,
) -> Result<(), Memory>
    ensures { OnOk result (out.new ≡ out.old ++ spec.method_encoded instruction) }
{
    match instruction {
        MethodInstruction::Startup(instruction) => push_instruction(instruction, out),
        MethodInstruction::Ifeq(distance) => {
            out.push(0x99)?;
            push_operand(2, distance.cast_unsigned(), out)
        }
        MethodInstruction::Goto(distance) => {
            out.push(0xa7)?;
            push_operand(2, distance.cast_unsigned(), out)
        }
        MethodInstruction::Areturn => out.push(0xb0),
    }
}
