ghost use Rattle.std.specs.Prelude.{◌≡◌, ◌≤◌, ◌<◌, ◌++◌, List, ℕ, Some, length, get_or};
ghost use Rattle.class_code.specs.declared.instruction.Instruction.{Instruction};
ghost use Rattle.class_code.specs.declared.method.MethodInstruction.{MethodInstruction};
ghost use Rattle.class_code.specs.Opcodes.{size};
ghost use Rattle.class_code.specs.Encoded.{decoded, encoded, IsWhole, IsBytes};
ghost use Rattle.class_code.specs.Methods.{
  method_decoded,
  method_encoded,
  method_size,
  IsWholeMethod,
};

/// The bytes of an instruction begin with that instruction, whatever follows them; and the bytes
/// that begin with an instruction are its bytes and what follows.
pub const fn reads_back()
    ensures read { (i : Instruction) (rest : List ℕ) → IsWhole i → decoded (encoded i ++ rest) ≡ Some (i, rest) }
    ensures only { (bytes : List ℕ) (i : Instruction) (rest : List ℕ) → IsBytes bytes → decoded bytes ≡ Some (i, rest) → IsWhole i × (bytes ≡ encoded i ++ rest) }
    ensures size { (i : Instruction) → length (encoded i) ≡ size i.opcode }
    ensures some { (i : Instruction) → 1 ≤ size i.opcode }
    ensures small { (i : Instruction) → size i.opcode ≤ 4 }
{}

/// The same of the instructions of compiled methods.
pub const fn method_reads_back()
    ensures read { (i : MethodInstruction) (rest : List ℕ) → IsWholeMethod i → method_decoded (method_encoded i ++ rest) ≡ Some (i, rest) }
    ensures size { (i : MethodInstruction) → length (method_encoded i) ≡ method_size i }
{}
