use crate::flags::Flags;
use crate::pool::Pool;
use item_types::{Bytes, Seq};

/// The most bytes that a class file may have.
pub const CLASS_LIMIT: u32 = 2_000_000;

/// An attribute (JVMS 4.7), by the pool index of its name.
#[derive(Drop)]
#[cycle(attribute)]
pub enum Attribute {
    /// An attribute whose content is kept as it stands.
    Raw { name: u16, bytes: Bytes },
    /// The `Code` of a method.
    Coded { name: u16, code: Code },
}

/// The code of a method (JVMS 4.7.3).
#[derive(Drop)]
#[cycle(attribute)]
pub struct Code {
    /// The greatest depth of the operand stack, in units of one word.
    pub max_stack: u16,
    /// How many locals there are.
    pub max_locals: u16,
    /// The instructions.
    pub code: Bytes,
    /// The catch rows, in order.
    pub catches: Seq<CatchRow>,
    /// The code's own attributes.
    pub attributes: Seq<Attribute>,
}

/// A row of a code's table of exceptions (JVMS 4.7.3): where it holds, where its handler begins, and
/// what is caught there.
#[derive(Clone, Copy, Debug)]
pub struct CatchRow {
    /// The place in the code from which on the row holds.
    pub start: u16,
    /// The place behind the last at which it holds.
    pub end: u16,
    /// The place at which the handler begins.
    pub handler: u16,
    /// The pool index of the class caught, or 0 for all.
    pub caught: u16,
}

/// A field or a method (JVMS 4.5, 4.6), by the pool indices of its name and descriptor.
#[derive(Drop)]
pub struct Member {
    /// The access flags.
    pub flags: Flags,
    /// The index of the name's text.
    pub name: u16,
    /// The index of the descriptor's text.
    pub descriptor: u16,
    /// The attributes, in order.
    pub attributes: Seq<Attribute>,
}

/// A class file (JVMS 4.1) of minor version 0.
#[derive(Drop)]
pub struct Class {
    /// The major version.
    pub major: u16,
    /// The constant pool.
    pub pool: Pool,
    /// The access flags.
    pub flags: Flags,
    /// The index of the class's own `Class` entry.
    pub this: u16,
    /// The index of the parent's `Class` entry, or 0 for none.
    pub parent: u16,
    /// The indices of the interfaces' `Class` entries.
    pub interfaces: Seq<u16>,
    /// The fields, in order.
    pub fields: Seq<Member>,
    /// The methods, in order.
    pub methods: Seq<Member>,
    /// The attributes of the class itself.
    pub attributes: Seq<Attribute>,
}
