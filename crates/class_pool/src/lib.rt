//! Class files as values (JVMS 4): the constant pool that finds its entries, the parts of a class,
//! the texts of a pool in modified UTF-8, and the faults that bytes which are no class file have.
//!
//! How bytes spell a class stands in the crate `class_grammar`.
#![tactic(auto)]

mod class;
mod enter;
mod entry;
mod fault;
mod flags;
mod law;
mod modified;
mod pool;
mod pool_err;
mod shown;
mod tag;

pub use class::{Attribute, CLASS_LIMIT, CatchRow, Class, Code, Member};
pub use entry::Entry;
pub use fault::ClassFault;
pub use flags::Flags;
pub use law::{
    entered_once, entering_fits, entering_keeps, entry_resolves, one_text, references_are_right,
    tags_read_back,
};
pub use modified::{decode_text, encode_text};
pub use pool::Pool;
pub use pool_err::PoolErr;
pub use shown::Shown;
pub use tag::Tag;
