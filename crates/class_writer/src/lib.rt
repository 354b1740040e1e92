//! Writing class files (JVMS 4): the one list of bytes that spells a class, by the grammar of the
//! crate `class_grammar`; that a class which was made has one is said by the crate `class_valid`.
#![tactic(auto)]

mod writing;

pub use writing::write_class;
