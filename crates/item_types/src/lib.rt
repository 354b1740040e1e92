//! The words that every other crate speaks in: texts and lists that contracts see as lists, the
//! declarations of an application's extensions, and the values that build items carry.
//!
//! Nothing here knows of files, chains or runs. Each type that owns memory is `Drop`, copies
//! itself by [`Same::try_copy`] and compares itself by [`Same::same`]; both are exact.
#![tactic(auto)]

mod boxed;
mod decl;
mod laws;
mod memory;
mod print;
mod quote;
mod same;
mod seq;
mod shared;
mod step;
mod text;
mod value;

pub use boxed::Boxed;
pub use decl::{BeanDecl, ItemDecl, ItemKind, MethodSig, Names, RecorderDecl};
pub use laws::{a_list_of_what_fits_fits, a_short_text_fits, a_whole_bean_fits};
pub use memory::Memory;
pub use print::{push_value, push_values};
pub use quote::push_quoted;
pub use same::Same;
pub use seq::{Bytes, Seq};
pub use shared::{Shared, SharedText};
pub use step::{Consume, Phase, Produce, StepDecl};
pub use text::Text;
pub use value::{NodeId, Proxy, Value, copy_values, part_of, same_values};
