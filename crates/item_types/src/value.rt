ghost use Rattle.std.specs.Prelude.{◌≡◌, ◌≤◌, ◌<◌, ◌^◌, ◌↔◌, IsTrue, IfOk};
ghost use Rattle.item_types.specs.Measure.{cells, text_len, depth};
ghost use Rattle.item_types.specs.Named.{key, long_of, part_of};
ghost use Rattle.item_types.specs.declared.value.Value.{out-Value};
ghost use Rattle.std.specs.Option.{option_copied};

use crate::decl::Names;
use crate::memory::Memory;
use crate::seq::Seq;
use crate::shared::{Shared, SharedText};
use crate::step::Phase;
use crate::text::Text;
use std::alloc::Global;

/// The number of a node: a list or a bean that a step made.
#[derive(Clone, Copy, Debug, PartialEq, Eq)]
pub struct NodeId {
    /// The step that made it.
    pub step: u32,
    /// How many nodes the step had made before.
    pub k: u32,
}

impl NodeId {
    /// Whether both are the same node.
    pub fn same(self, other: NodeId) -> bool
        ensures { IsTrue result ↔ (self ≡ other) }
    {
        self == other
    }
}

/// What a recorded call will return when it is played.
#[derive(Clone, Copy, Debug, PartialEq, Eq)]
pub struct Proxy {
    /// The step that recorded the call.
    pub step: u32,
    /// How many calls the step had recorded before.
    pub call: u32,
    /// When the call is played.
    pub phase: Phase,
}

impl Proxy {
    /// Whether both are of the same call.
    pub fn same(self, other: Proxy) -> bool
        ensures { IsTrue result ↔ (self ≡ other) }
    {
        self == other
    }
}

/// What a build item carries: a tree. Its copies share the bytes of texts and the parts of lists
/// and beans, which never change, so that a copy costs the same whatever the size of the tree.
#[derive(Drop)]
pub enum Value {
    Null,
    Bool(bool),
    Long(i64),
    Str(SharedText),
    /// A list and its elements.
    List(NodeId, Shared<Value>),
    /// A bean of this number, and its fields in declared order.
    Bean(NodeId, u32, Shared<Value>),
    /// What a recorded call will return.
    Returned(Proxy),
}

impl Value {
    /// 1, plus the cells of its parts. It takes no memory.
    pub fn cells(&self) -> u64
        requires { cells self.now < 2 ^ 64 }
        ensures { result ≡ cells self.now }
    {
        match self {
            Value::List(_, parts) | Value::Bean(_, _, parts) => {
                let mut total = 1;
                for part in parts.as_slice() {
                    total += part.cells();
                }
                total
            }
            _ => 1,
        }
    }

    /// How many bytes the texts in it take in modified UTF-8. It takes no memory.
    pub fn text_len(&self) -> u64
        requires { text_len self.now < 2 ^ 64 }
        ensures { result ≡ text_len self.now }
    {
        match self {
            Value::Str(text) => text.modified_len(),
            Value::List(_, parts) | Value::Bean(_, _, parts) => {
                let mut total = 0;
                for part in parts.as_slice() {
                    total += part.text_len();
                }
                total
            }
            _ => 0,
        }
    }

    /// 1, plus the greatest depth of its parts. It takes no memory.
    pub fn depth(&self) -> u32
        requires { depth self.now < 2 ^ 32 }
        ensures { result ≡ depth self.now }
    {
        match self {
            Value::List(_, parts) | Value::Bean(_, _, parts) => {
                let mut deepest: u32 = 0;
                for part in parts.as_slice() {
                    deepest = deepest.max(part.depth());
                }
                deepest + 1
            }
            _ => 1,
        }
    }

    /// The number in that field of a bean; `None` where the value is no bean with a whole number
    /// in that field. It takes no memory.
    pub fn key(&self, names: &Names, field: &Text) -> Option<i64>
        ensures { result ≡ key names.now field.now self.now }
    {
        match self {
            Value::Bean(_, bean, parts) => {
                match part_of(field.as_str(), names.fields_of(*bean), parts.as_slice()) {
                    Some(part) => part.long(),
                    None => None,
                }
            }
            _ => None,
        }
    }

    fn long(&self) -> Option<i64>
        ensures { result ≡ long_of (out-Value self.now) }
    {
        match self {
            Value::Long(n) => Some(*n),
            _ => None,
        }
    }

    /// Whether both are equal, node numbers included. It takes no memory.
    #[cycle(equals)]
    pub fn equals(&self, other: &Value) -> bool
        ensures { IsTrue result ↔ (self.now ≡ other.now) }
    {
        match (self, other) {
            (Value::Null, Value::Null) => true,
            (Value::Bool(a), Value::Bool(b)) => *a == *b,
            (Value::Long(a), Value::Long(b)) => *a == *b,
            (Value::Str(a), Value::Str(b)) => a.as_str() == b.as_str(),
            (Value::List(id, xs), Value::List(other_id, ys)) => {
                id.same(*other_id) && same_values(xs.as_slice(), ys.as_slice())
            }
            (Value::Bean(id, bean, xs), Value::Bean(other_id, other_bean, ys)) => {
                id.same(*other_id)
                    && *bean == *other_bean
                    && same_values(xs.as_slice(), ys.as_slice())
            }
            (Value::Returned(a), Value::Returned(b)) => a.same(*b),
            _ => false,
        }
    }

    /// A value that equals it. It shares the bytes of texts and the parts of lists and beans.
    ///
    /// # Errors
    /// `Memory` where these are shared as often as can be counted.
    pub fn try_copy(&self) -> Result<Value, Memory>
        ensures { IfOk result (λ v. v ≡ self.now) }
    {
        match self {
            Value::Null => Ok(Value::Null),
            Value::Bool(b) => Ok(Value::Bool(*b)),
            Value::Long(n) => Ok(Value::Long(*n)),
            Value::Str(text) => Ok(Value::Str(text.share()?)),
            Value::List(id, parts) => Ok(Value::List(*id, parts.share()?)),
            Value::Bean(id, bean, parts) => Ok(Value::Bean(*id, *bean, parts.share()?)),
            Value::Returned(proxy) => Ok(Value::Returned(*proxy)),
        }
    }
}

/// Whether both lists have equal values at equal places. It takes no memory.
#[cycle(equals)]
pub fn same_values(xs: &[Value], ys: &[Value]) -> bool
    ensures { IsTrue result ↔ (xs.now ≡ ys.now) }
{
    if xs.len() != ys.len() {
        return false;
    }
    for i in 0..xs.len() {
        if !xs[i].equals(&ys[i]) {
            return false;
        }
    }
    true
}

/// A list of equal values.
///
/// # Errors
/// `Memory` for want of memory.
pub fn copy_values(alloc: Global, values: &[Value]) -> Result<Seq<Value>, Memory>
    ensures { IfOk result (λ s. s ≡ values.now) }
{
    let mut copies = Seq::with_capacity(alloc, values.len())?;
    for value in values {
        copies.push(value.try_copy()?)?;
    }
    Ok(copies)
}

/// The value of the first field of that name; `None` where there is no such field, or no value
/// for it. It takes no memory.
pub fn part_of<'a>(field: &str, fields: &[Text], parts: &'a [Value]) -> Option<&'a Value>
    ensures { option_copied result ≡ part_of field.now fields.now parts.now }
{
    for i in 0..fields.len().min(parts.len()) {
        if fields[i].as_str() == field {
            return Some(&parts[i]);
        }
    }
    None
}
