ghost use Rattle.std.specs.Prelude.{◌≡◌, ◌/◌, ◌%◌, ◌==◌};

/// The access flags of a class, a field or a method (JVMS 4.1, 4.5, 4.6), in 16 bits.
#[derive(Clone, Copy, Debug, PartialEq, Eq)]
pub struct Flags {
    pub bits: u16,
}

impl Flags {
    /// A public final class whose parent's methods are called by the later rule (`ACC_PUBLIC`,
    /// `ACC_FINAL`, `ACC_SUPER`).
    pub const PUBLIC_FINAL_CLASS: Flags = Flags { bits: 0x0031 };
    /// A public member of each object.
    pub const PUBLIC: Flags = Flags { bits: 0x0001 };
    /// A public static member.
    pub const PUBLIC_STATIC: Flags = Flags { bits: 0x0009 };
    /// A private static member.
    pub const PRIVATE_STATIC: Flags = Flags { bits: 0x000a };
    /// A static member of the package.
    pub const STATIC: Flags = Flags { bits: 0x0008 };

    /// Whether the member is static (`ACC_STATIC`).
    pub fn is_static(self) -> bool
        ensures { result ≡ (self.bits / 8 % 2 == 1) }
    {
        self.bits / 8 % 2 == 1
    }
}
