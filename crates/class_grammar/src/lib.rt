//! How bytes spell a class file (JVMS 4), as one grammar with three meanings: which bytes spell a
//! class, where bytes that spell none go wrong first, and how they are read. The three agree, and
//! that is the law here; the reader and the writer of class files are proved against it. The text of
//! a fault stands here too.
#![tactic(auto)]

mod fault_text;
mod law;

pub use fault_text::push_fault;
pub use law::one_reading;
