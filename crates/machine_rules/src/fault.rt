ghost use Rattle.std.specs.Prelude.{◌≡◌};
ghost use Rattle.machine_rules.specs.Faults as spec;

use item_types::Text;

/// Why an instruction isn't run, in the order in which faults at one instruction are looked for.
#[derive(Clone, Copy, Debug, PartialEq, Eq)]
pub enum Fault {
    /// The budget of instructions is spent.
    Turns,
    /// No whole instruction of the table stands there.
    Opcode,
    /// The pool index isn't of the instruction's kind.
    Index,
    /// The named class is none that the instruction can use.
    NoClass,
    /// The class has no such field.
    NoField,
    /// The class has no such method, or it has no code.
    NoMethod,
    /// It would be the 65th frame.
    Depth,
    /// The called method has catch rows.
    Catches,
    /// Operands are missing, or there is no room for what is pushed.
    Stack,
    /// There is no such local, it was never set, or the called method has too few.
    Local,
    /// An operand has another kind, or the context is made a second time.
    Kind,
}

/// Where an instruction stands.
#[derive(Drop)]
pub struct Place {
    /// The class's name.
    pub class: Text,
    /// The method's name.
    pub method: Text,
    /// The offset of the instruction's first byte in the method's code.
    pub pc: u32,
}

/// A fault at its place.
#[derive(Drop)]
pub struct Refusal {
    /// Why the instruction isn't run.
    pub fault: Fault,
    /// Where it stands.
    pub place: Place,
}

/// Why code isn't run on, and at which instruction.
#[derive(Drop)]
pub enum CodeFault {
    /// The named class is none that the instruction can use.
    NoClass(Place),
    /// The class has no such method, or it has no code.
    NoMethod(Place),
    /// The class has no such field.
    NoField(Place),
    /// No whole instruction of the table stands there.
    Opcode(Place),
    /// The pool index isn't of the instruction's kind.
    Index(Place),
    /// Operands are missing, or there is no room for what is pushed.
    Stack(Place),
    /// An operand has another kind, or the context is made a second time.
    Kind(Place),
    /// There is no such local, it was never set, or the called method has too few.
    Local(Place),
    /// The called method has catch rows.
    Catches(Place),
    /// It would be the 65th frame.
    Depth(Place),
    /// The budget of instructions is spent.
    Turns(Place),
}

impl Refusal {
    /// The refusal as a fault that has its place. It takes no memory.
    pub fn into_fault(self) -> CodeFault
        ensures { result ≡ spec.code_fault self }
    {
        let Refusal { fault, place } = self;
        match fault {
            Fault::Turns => CodeFault::Turns(place),
            Fault::Opcode => CodeFault::Opcode(place),
            Fault::Index => CodeFault::Index(place),
            Fault::NoClass => CodeFault::NoClass(place),
            Fault::NoField => CodeFault::NoField(place),
            Fault::NoMethod => CodeFault::NoMethod(place),
            Fault::Depth => CodeFault::Depth(place),
            Fault::Catches => CodeFault::Catches(place),
            Fault::Stack => CodeFault::Stack(place),
            Fault::Local => CodeFault::Local(place),
            Fault::Kind => CodeFault::Kind(place),
        }
    }
}
