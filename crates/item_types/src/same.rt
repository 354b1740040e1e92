ghost use Rattle.std.specs.Prelude.{◌≡◌, ◌↔◌, IsTrue, IfOk};

use crate::memory::Memory;
use crate::seq::Seq;
use crate::text::Text;
use std::alloc::Global;

/// Values that are compared as a whole and copied, both exactly.
pub trait Same: Drop {
    /// Whether both are equal. It takes no memory.
    fn same(&self, other: &Self) -> bool
        ensures { IsTrue result ↔ (self.now ≡ other.now) };

    /// A value that equals it.
    ///
    /// # Errors
    /// `Memory` for want of memory.
    fn try_copy(&self, alloc: Global) -> Result<Self, Memory>
        ensures { IfOk result (λ copy. copy ≡ self.now) };
}

impl<T: Same> Same for Seq<T> {
    fn same(&self, other: &Seq<T>) -> bool {
        same_items(self.as_slice(), other.as_slice())
    }

    fn try_copy(&self, alloc: Global) -> Result<Seq<T>, Memory> {
        copy_items(alloc, self.as_slice())
    }
}

impl Same for Text {
    fn same(&self, other: &Text) -> bool {
        self.as_str() == other.as_str()
    }

    fn try_copy(&self, alloc: Global) -> Result<Text, Memory> {
        Text::of(alloc, self.as_str())
    }
}

impl Same for u32 {
    fn same(&self, other: &u32) -> bool {
        *self == *other
    }

    fn try_copy(&self, alloc: Global) -> Result<u32, Memory> {
        let _ = alloc;
        Ok(*self)
    }
}

fn same_items<T: Same>(xs: &[T], ys: &[T]) -> bool
    ensures { IsTrue result ↔ (xs.now ≡ ys.now) }
{
    if xs.len() != ys.len() {
        return false;
    }
    for i in 0..xs.len() {
        if !xs[i].same(&ys[i]) {
            return false;
        }
    }
    true
}

fn copy_items<T: Same>(alloc: Global, items: &[T]) -> Result<Seq<T>, Memory>
    ensures { IfOk result (λ copies. copies ≡ items.now) }
{
    let mut copies = Seq::with_capacity(alloc, items.len())?;
    for item in items {
        copies.push(item.try_copy(alloc)?)?;
    }
    Ok(copies)
}
