//! Reading class files (JVMS 4): the class that bytes spell, or the first place where they go wrong,
//! by the grammar of the crate `class_grammar`.
#![tactic(auto)]

mod attributes;
mod constants;
mod cursor;
mod entries;
mod members;
mod reading;

pub use class_grammar::push_fault;
pub use class_pool::{Attribute, CLASS_LIMIT, Class, ClassFault, Code, Member};
pub use reading::read_class;
