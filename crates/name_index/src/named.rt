ghost use Rattle.std.specs.Prelude.{◌≡◌, List, ℕ, IfOk, map};

use crate::index::Index;
use item_types::{BeanDecl, ItemDecl, Memory, MethodSig, RecorderDecl, Text};
use std::alloc::Global;

/// What has a name.
pub trait Named: Drop {
    // the name
    ghost named: { Self → List ℕ };

    /// The name. It takes no memory.
    fn named(&self) -> &str
        ensures { result.now ≡ named self.now };
}

impl Named for ItemDecl {
    ghost named = { λ i. i.name };

    fn named(&self) -> &str {
        self.name.as_str()
    }
}

impl Named for BeanDecl {
    ghost named = { λ b. b.name };

    fn named(&self) -> &str {
        self.name.as_str()
    }
}

impl Named for RecorderDecl {
    ghost named = { λ r. r.name };

    fn named(&self) -> &str {
        self.name.as_str()
    }
}

impl Named for MethodSig {
    ghost named = { λ m. m.name };

    fn named(&self) -> &str {
        self.name.as_str()
    }
}

/// A text is its own name.
impl Named for Text {
    ghost named = { λ t. t };

    fn named(&self) -> &str {
        self.as_str()
    }
}

/// The names of these things, in their order.
///
/// # Errors
/// `Memory` for want of memory.
pub fn names_of<'a, M: Named>(alloc: Global, things: &'a [M]) -> Result<Index<'a>, Memory>
    ensures { IfOk result (λ names. names ≡ map M.named things.now) }
{
    let mut names = Index::new(alloc);
    for thing in things {
        names.push(thing.named())?;
    }
    Ok(names)
}
