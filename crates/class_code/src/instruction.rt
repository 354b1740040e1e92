ghost use Rattle.std.specs.Prelude.{◌≡◌, ◌+◌, ◌≤◌, ◌++◌, length, IfSome, OnOk};
ghost use Rattle.class_code.specs.Opcodes.{size, width};
ghost use Rattle.class_code.specs.Encoded as spec;

use crate::opcode::Opcode;
use item_types::{Memory, Seq};

/// An instruction as it stands in a code.
#[derive(Clone, Copy, Debug)]
pub struct Instruction {
    /// What it does.
    pub opcode: Opcode,
    /// Its operand, 0 where it has none.
    pub operand: u16,
}

/// The operand of so many bytes, high byte first.
fn operand_at(width: usize, rest: &[u8]) -> u16
    requires enough { width ≤ length rest.now }
    requires small { width ≤ 2 }
    ensures { result ≡ spec.operand_at width rest.now }
{
    match width {
        0 => 0,
        1 => rest[0] as u16,
        _ => rest[0] as u16 * 256 + rest[1] as u16,
    }
}

#[tactic(auto, unfolding(crate::specs::Encoded::with_opcode))]
fn with_opcode(opcode: Option<Opcode>, rest: &[u8]) -> Option<(Instruction, &[u8])>
    ensures { spec.Gives (λ x. (x.0, x.1.now)) result (spec.with_opcode opcode rest.now) }
{
    match opcode {
        None => None,
        Some(opcode) => {
            let width = opcode.width();
            if rest.len() < width {
                return None;
            }
            let operand = operand_at(width, rest);
            Some((Instruction { opcode, operand }, &rest[width..]))
        }
    }
}

fn behind_wide(rest: &[u8]) -> Option<(Instruction, &[u8])>
    ensures { spec.Gives (λ x. (x.0, x.1.now)) result (spec.behind_wide rest.now) }
{
    match rest {
        [byte, rest @ ..] => with_opcode(Opcode::of_wide(*byte), rest),
        _ => None,
    }
}

#[tactic(auto, unfolding(crate::specs::Encoded::decoded))]
fn instruction_at(bytes: &[u8]) -> Option<(Instruction, &[u8])>
    ensures { spec.Gives (λ x. (x.0, x.1.now)) result (spec.decoded bytes.now) }
{
    match bytes {
        [byte, rest @ ..] => {
            if *byte == 0xc4 {
                behind_wide(rest)
            } else {
                with_opcode(Opcode::of(*byte), rest)
            }
        }
        _ => None,
    }
}

/// The instruction that the bytes begin with, and the bytes behind it; none where they begin with
/// no whole one.
pub fn decode(bytes: &[u8]) -> Option<(Instruction, &[u8])>
    ensures read { spec.Gives (λ x. (x.0, x.1.now)) result (spec.decoded bytes.now) }
    ensures size { IfSome result (λ x. size x.0.opcode + length x.1.now ≡ length bytes.now) }
{
    instruction_at(bytes)
}

/// Appends an operand of so many bytes, high byte first.
pub fn push_operand(width: usize, operand: u16, out: &mut Seq<u8>) -> Result<(), Memory>
    ensures { OnOk result (out.new ≡ out.old ++ spec.operand_bytes width operand) }
{
    match width {
        0 => Ok(()),
        1 => out.push((operand % 256) as u8),
        _ => {
            out.push((operand / 256) as u8)?;
            out.push((operand % 256) as u8)
        }
    }
}

/// Appends the bytes of the instruction.
///
/// # Errors
/// `Memory` for want of memory.
#[tactic(auto, unfolding(crate::specs::Encoded::encoded))]
pub fn push_instruction(instruction: Instruction, out: &mut Seq<u8>) -> Result<(), Memory>
    ensures { OnOk result (out.new ≡ out.old ++ spec.encoded instruction) }
{
    instruction.opcode.push(out)?;
    push_operand(instruction.opcode.width(), instruction.operand, out)
}
