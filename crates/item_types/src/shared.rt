ghost use Rattle.std.specs.Prelude.{◌≡◌, ◌++◌, string_bytes, IfOk};
ghost use Rattle.item_types.specs.Modified.{modified_len};

use crate::memory::Memory;
use crate::seq::Seq;
use crate::text::{Text, modified_len_of};
use std::alloc::Global;
use std::marker::Model;
use std::sync::Arc;

/// A list that several values share, and that stays as it is. Contracts see it as the list of its
/// elements, so that what shares it equals a copy.
#[derive(Drop)]
pub struct Shared<T> {
    items: Arc<Vec<T>>,
}

impl<T> Model for Shared<T> {
    ghost use Rattle.std.specs.Prelude.{List};
    ghost use Rattle.std.specs.Coded.{coded_list};

    ghost Value = { List T };

    ghost coded = { coded_list T.code };

    ghost view = { λ s. s.items.value.items };
}

impl<T> Shared<T> {
    /// The elements in order. It takes no memory.
    pub fn as_slice(&self) -> &[T]
        ensures { result.now ≡ self.now }
    {
        (*self.items).as_slice()
    }

    /// The same list, shared once more.
    ///
    /// # Errors
    /// `Memory` where it is shared as often as can be counted.
    pub fn share(&self) -> Result<Shared<T>, Memory>
        ensures { IfOk result (λ s. s ≡ self.now) }
    {
        match Arc::try_clone(&self.items) {
            Ok(items) => Ok(Shared { items }),
            Err(_) => Err(Memory),
        }
    }
}

impl<T: Drop> Shared<T> {
    /// The list of these elements, which can be shared.
    ///
    /// # Errors
    /// `Memory` for want of memory: the elements are given up.
    pub fn of(alloc: Global, items: Seq<T>) -> Result<Shared<T>, Memory>
        ensures { IfOk result (λ s. s ≡ items) }
    {
        match Arc::new(alloc, items.into_vec()) {
            Ok(items) => Ok(Shared { items }),
            Err(_) => Err(Memory),
        }
    }
}

/// A text that several values share, and that stays as it is. Contracts see it as the list of its
/// UTF-8 bytes, so that what shares it equals a copy.
#[derive(Drop)]
pub struct SharedText {
    text: Arc<String>,
}

impl Model for SharedText {
    ghost use Rattle.std.specs.Prelude.{List, ℕ, string_bytes};

    ghost Value = { List ℕ };

    ghost view = { λ t. string_bytes t.text.value };
}

impl SharedText {
    /// The text, which can be shared. Its bytes are moved.
    ///
    /// # Errors
    /// `Memory` for want of memory: the text is given up.
    pub fn of(alloc: Global, text: Text) -> Result<SharedText, Memory>
        ensures { IfOk result (λ t. t ≡ text) }
    {
        match Arc::new(alloc, text.into_string()) {
            Ok(text) => Ok(SharedText { text }),
            Err(_) => Err(Memory),
        }
    }

    /// The same text, shared once more.
    ///
    /// # Errors
    /// `Memory` where it is shared as often as can be counted.
    pub fn share(&self) -> Result<SharedText, Memory>
        ensures { IfOk result (λ t. t ≡ self.now) }
    {
        match Arc::try_clone(&self.text) {
            Ok(text) => Ok(SharedText { text }),
            Err(_) => Err(Memory),
        }
    }

    /// The text's characters. It takes no memory.
    pub fn as_str(&self) -> &str
        ensures { result.now ≡ self.now }
    {
        (*self.text).as_str()
    }

    /// How many bytes it takes in modified UTF-8 (JVMS 4.4.7). It takes no memory.
    pub fn modified_len(&self) -> u64
        ensures { result ≡ modified_len self.now }
    {
        modified_len_of(self.as_str())
    }

    /// The text, not shared any more: its bytes are moved where nothing else shares them, else
    /// copied.
    ///
    /// # Errors
    /// `Memory` for want of memory: the text is given up.
    pub fn into_text(self, alloc: Global) -> Result<Text, Memory>
        ensures { IfOk result (λ t. t ≡ self) }
    {
        let SharedText { text } = self;
        match Arc::try_unwrap(text) {
            Ok(text) => Ok(Text::from_string(text)),
            Err(text) => Text::of(alloc, (*text).as_str()),
        }
    }
}
