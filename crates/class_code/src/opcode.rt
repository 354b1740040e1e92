ghost use Rattle.std.specs.Prelude.{◌≡◌, ◌≤◌, ◌++◌, OnOk};
ghost use Rattle.class_code.specs.Opcodes as spec;

use item_types::{Memory, Seq};

/// The instructions that startup classes use (JVMS 6.5).
#[derive(Clone, Copy, Debug, PartialEq, Eq)]
pub enum Opcode {
    AconstNull,
    Iconst0,
    Iconst1,
    Ldc,
    LdcW,
    Ldc2W,
    Aload,
    Aload0,
    Astore,
    Pop,
    Dup,
    Return,
    Getstatic,
    Putstatic,
    Putfield,
    Invokevirtual,
    Invokespecial,
    Invokestatic,
    New,
    WideAload,
    WideAstore,
}

impl Opcode {
    /// The opcode of a byte, none where the byte is that of no instruction, or of `wide`.
    pub fn of(byte: u8) -> Option<Opcode>
        ensures { result ≡ spec.opcode_of byte }
    {
        match byte {
            0x01 => Some(Opcode::AconstNull),
            0x03 => Some(Opcode::Iconst0),
            0x04 => Some(Opcode::Iconst1),
            0x12 => Some(Opcode::Ldc),
            0x13 => Some(Opcode::LdcW),
            0x14 => Some(Opcode::Ldc2W),
            0x19 => Some(Opcode::Aload),
            0x2a => Some(Opcode::Aload0),
            0x3a => Some(Opcode::Astore),
            0x57 => Some(Opcode::Pop),
            0x59 => Some(Opcode::Dup),
            0xb1 => Some(Opcode::Return),
            0xb2 => Some(Opcode::Getstatic),
            0xb3 => Some(Opcode::Putstatic),
            0xb5 => Some(Opcode::Putfield),
            0xb6 => Some(Opcode::Invokevirtual),
            0xb7 => Some(Opcode::Invokespecial),
            0xb8 => Some(Opcode::Invokestatic),
            0xbb => Some(Opcode::New),
            _ => None,
        }
    }

    /// The opcode of a byte behind `wide`.
    pub fn of_wide(byte: u8) -> Option<Opcode>
        ensures { result ≡ spec.wide_of byte }
    {
        match byte {
            0x19 => Some(Opcode::WideAload),
            0x3a => Some(Opcode::WideAstore),
            _ => None,
        }
    }

    /// The mnemonic.
    pub fn word(self) -> &'static str
        ensures { result.now ≡ spec.word self }
    {
        match self {
            Opcode::AconstNull => "aconst_null",
            Opcode::Iconst0 => "iconst_0",
            Opcode::Iconst1 => "iconst_1",
            Opcode::Ldc => "ldc",
            Opcode::LdcW => "ldc_w",
            Opcode::Ldc2W => "ldc2_w",
            Opcode::Aload => "aload",
            Opcode::Aload0 => "aload_0",
            Opcode::Astore => "astore",
            Opcode::Pop => "pop",
            Opcode::Dup => "dup",
            Opcode::Return => "return",
            Opcode::Getstatic => "getstatic",
            Opcode::Putstatic => "putstatic",
            Opcode::Putfield => "putfield",
            Opcode::Invokevirtual => "invokevirtual",
            Opcode::Invokespecial => "invokespecial",
            Opcode::Invokestatic => "invokestatic",
            Opcode::New => "new",
            Opcode::WideAload => "wide aload",
            Opcode::WideAstore => "wide astore",
        }
    }

    /// How many bytes the operand has: none, one or two.
    pub fn width(self) -> usize
        ensures width { result ≡ spec.width self }
        ensures small { result ≤ 2 }
    {
        match self {
            Opcode::AconstNull
            | Opcode::Iconst0
            | Opcode::Iconst1
            | Opcode::Aload0
            | Opcode::Pop
            | Opcode::Dup
            | Opcode::Return => 0,
            Opcode::Ldc | Opcode::Aload | Opcode::Astore => 1,
            _ => 2,
        }
    }

    /// How many bytes an instruction with this opcode has, its operand included.
    pub fn size(self) -> usize
        ensures size { result ≡ spec.size self }
        ensures some { 1 ≤ result }
        ensures small { result ≤ 4 }
    {
        match self {
            Opcode::WideAload | Opcode::WideAstore => 4,
            _ => 1 + self.width(),
        }
    }

    /// Appends the opcode's bytes: one, and behind `wide` two.
    ///
    /// # Errors
    /// `Memory` for want of memory.
    pub fn push(self, out: &mut Seq<u8>) -> Result<(), Memory>
        ensures { OnOk result (out.new ≡ out.old ++ spec.bytes_of self) }
    {
        match self {
            Opcode::AconstNull => out.push(0x01),
            Opcode::Iconst0 => out.push(0x03),
            Opcode::Iconst1 => out.push(0x04),
            Opcode::Ldc => out.push(0x12),
            Opcode::LdcW => out.push(0x13),
            Opcode::Ldc2W => out.push(0x14),
            Opcode::Aload => out.push(0x19),
            Opcode::Aload0 => out.push(0x2a),
            Opcode::Astore => out.push(0x3a),
            Opcode::Pop => out.push(0x57),
            Opcode::Dup => out.push(0x59),
            Opcode::Return => out.push(0xb1),
            Opcode::Getstatic => out.push(0xb2),
            Opcode::Putstatic => out.push(0xb3),
            Opcode::Putfield => out.push(0xb5),
            Opcode::Invokevirtual => out.push(0xb6),
            Opcode::Invokespecial => out.push(0xb7),
            Opcode::Invokestatic => out.push(0xb8),
            Opcode::New => out.push(0xbb),
            Opcode::WideAload => {
                out.push(0xc4)?;
                out.push(0x19)
            }
            Opcode::WideAstore => {
                out.push(0xc4)?;
                out.push(0x3a)
            }
        }
    }
}
