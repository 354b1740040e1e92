ghost use Rattle.std.specs.Prelude.{◌≡◌};
ghost use Rattle.class_pool.specs.Enter.{enter};
ghost use Rattle.value_literals.specs.Emitted as spec;
ghost use Rattle.value_literals.specs.Emitted.{Does, Appends};

use crate::op::Op;
use class_code::{Instruction, Opcode, push_instruction};
use class_pool::{Pool, PoolErr, Shown};
use item_types::Seq;

fn push_naming(
    pool: &mut Pool,
    opcode: Opcode,
    what: &Shown,
    code: &mut Seq<u8>,
) -> Result<(), PoolErr>
    ensures { Appends (spec.op_bytes (spec.naming opcode what.now) pool.old) result code.old code.new pool.new }
{
    match pool.enter(what) {
        Ok(operand) => {
            push_instruction(Instruction { opcode, operand }, code)?;
            Ok(())
        }
        Err(fault) => Err(fault),
    }
}

fn push_op(pool: &mut Pool, op: &Op, code: &mut Seq<u8>) -> Result<(), PoolErr>
    ensures { Appends (spec.op_bytes op.now pool.old) result code.old code.new pool.new }
{
    match op {
        Op::Plain(opcode) => {
            push_instruction(
                Instruction {
                    opcode: *opcode,
                    operand: 0,
                },
                code,
            )?;
            Ok(())
        }
        Op::Naming(opcode, what) => push_naming(pool, *opcode, what, code),
    }
}

/// The bytes of the instructions.
pub fn push_ops(pool: &mut Pool, ops: &[Op], code: &mut Seq<u8>) -> Result<(), PoolErr>
    ensures { Appends (spec.code_bytes ops.now pool.old) result code.old code.new pool.new }
{
    for op in ops {
        match push_op(pool, op, code) {
            Ok(()) => {}
            Err(fault) => return Err(fault),
        }
    }
    Ok(())
}
