ghost use Rattle.std.specs.Prelude.{◌≡◌, ℕ, length, slice_index_or};
ghost use Rattle.machine_rules.specs.Machine.{Reader, Program};
ghost use Rattle.machine_rules.specs.Seen.{Reads, HasMethod};

use crate::action::{First, Row};
use crate::fault::Fault;
use item_types::Text;

/// A method that has code (JVMS 4.7.3).
#[derive(Clone, Copy)]
pub struct Method<'a> {
    /// The bytes of the code.
    pub code: &'a [u8],
    /// The greatest depth of the operand stack, in units.
    pub max_stack: u16,
    /// How many locals there are.
    pub max_locals: u16,
    /// Whether there are catch rows.
    pub catches: bool,
}

/// Loaded classes whose code can be read: what the machine takes from them. Classes are numbered in
/// the order of the list, methods and fields by their places in their class. No call takes memory.
pub trait ReadCode {
    ghost reader: { Self → Reader ℕ };

    ghost program: { Self → Program ℕ };

    /// The instruction that this rest of a method's code of the class begins with, and what is left
    /// behind it.
    ///
    /// # Errors
    /// `Opcode`, `Index`, `NoClass`, `NoField` and `NoMethod`, where the reader has that fault.
    fn read<'a>(&'a self, class: usize, code: &'a [u8]) -> Result<(Row<&'a Text>, &'a [u8]), Fault>
        ensures { Reads (reader self.now class code.now) result };

    /// The method of the class; `None` where there is none or it has no code.
    fn method<'a>(&'a self, class: usize, method: usize) -> Option<Method<'a>>
        ensures { HasMethod ((program self.now).method class method) result };

    /// The number of `app/Main`.
    fn main(&self) -> usize
        ensures { result ≡ (program self.now).main };

    /// The place of one of the two first methods; `None` where `app/Main` has none such.
    fn first(&self, first: First) -> Option<usize>
        ensures { result ≡ (program self.now).first first };

    /// How many classes there are.
    fn classes(&self) -> usize
        ensures { result ≡ length (program self.now).fields };

    /// How many fields the class has.
    fn fields(&self, class: usize) -> usize
        ensures { result ≡ slice_index_or (program self.now).fields class 0 };

    /// The class's name; empty where there is no such class.
    fn class_name<'a>(&'a self, class: usize) -> &'a str
        ensures { result.now ≡ (program self.now).class_name class };

    /// The method's name; empty where there is no such method.
    fn method_name<'a>(&'a self, class: usize, method: usize) -> &'a str
        ensures { result.now ≡ (program self.now).method_name class method };
}
