ghost use Rattle.std.specs.Prelude.{◌≡◌, ◌+◌, ◌≤◌, ◌++◌, length, drop, string_bytes, OnOk, IfOk};
ghost use Rattle.class_dump.specs.Dump as spec;

use crate::hex::push_hex;
use class_code::{Instruction, decode};
use item_types::Memory;

fn push_operand(instruction: Instruction, out: &mut String) -> Result<(), Memory>
    ensures { OnOk result (string_bytes out.new ≡ string_bytes out.old ++ spec.operand_text instruction) }
{
    if instruction.opcode.width() == 0 {
        return Ok(());
    }
    let operand = instruction.operand;
    write!(out, " {operand}")?;
    Ok(())
}

fn push_instruction(pc: usize, instruction: Instruction, out: &mut String) -> Result<(), Memory>
    ensures { OnOk result (string_bytes out.new ≡ string_bytes out.old ++ spec.instruction_line pc instruction) }
{
    let word = instruction.opcode.word();
    write!(out, "  {pc}: {word}")?;
    push_operand(instruction, out)?;
    out.push_str("\n")?;
    Ok(())
}

fn push_bytes(pc: usize, bytes: &[u8], out: &mut String) -> Result<(), Memory>
    ensures { OnOk result (string_bytes out.new ≡ string_bytes out.old ++ spec.bytes_line pc bytes.now) }
{
    write!(out, "  {pc}: bytes ")?;
    push_hex(bytes, out)?;
    out.push_str("\n")?;
    Ok(())
}

/// Appends the first line of the bytes, which stand at pc, and tells how many bytes it shows: the
/// instruction that they begin with, or where they begin with no whole one all of them.
fn push_line(pc: usize, bytes: &[u8], out: &mut String) -> Result<usize, Memory>
    requires { 1 ≤ length bytes.now }
    ensures shown { IfOk result (λ n. (1 ≤ n) × (n ≤ length bytes.now)) }
    ensures line { IfOk result (λ n. string_bytes out.new ++ spec.code_lines 0 (pc + n) (drop n bytes.now) ≡ string_bytes out.old ++ spec.code_lines 0 pc bytes.now) }
{
    match decode(bytes) {
        Some((instruction, _)) => {
            push_instruction(pc, instruction, out)?;
            Ok(instruction.opcode.size())
        }
        None => {
            push_bytes(pc, bytes, out)?;
            Ok(bytes.len())
        }
    }
}

/// Appends a line for each instruction, and one for the rest that begins with no whole one.
///
/// # Errors
/// `Memory` for want of memory.
pub fn push_code(code: &[u8], out: &mut String) -> Result<(), Memory>
    ensures { OnOk result (string_bytes out.new ≡ string_bytes out.old ++ spec.code_lines 0 0 code.now) }
{
    let mut pc = 0;
    let mut rest = code;
    while !rest.is_empty() {
        let shown = push_line(pc, rest, out)?;
        pc += shown;
        rest = &rest[shown..];
    }
    Ok(())
}
