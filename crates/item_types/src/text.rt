ghost use Rattle.std.specs.Prelude.{◌≡◌, ◌<◌, ◌^◌, length, string_bytes, IfOk};
ghost use Rattle.item_types.specs.Modified.{char_len, modified_len};
ghost use Rattle.item_types.specs.Quoted.{quoted};

use crate::memory::Memory;
use crate::quote::push_quoted;
use std::alloc::Global;
use std::marker::Model;

/// A text. Contracts see it as the list of its UTF-8 bytes.
#[derive(Debug, Drop)]
pub struct Text {
    text: String,
}

impl Model for Text {
    ghost use Rattle.std.specs.Prelude.{List, ℕ, string_bytes};

    ghost Value = { List ℕ };

    ghost view = { λ t. string_bytes t.text };
}

impl Text {
    /// The text that `text` shows.
    ///
    /// # Errors
    /// `Memory` for want of memory.
    pub fn of(alloc: Global, text: &str) -> Result<Text, Memory>
        ensures { IfOk result (λ t. t ≡ text.now) }
    {
        match String::from_str(alloc, text) {
            Ok(text) => Ok(Text { text }),
            Err(_) => Err(Memory),
        }
    }

    /// The text that is in the `String`. It takes no memory.
    pub fn from_string(text: String) -> Text
        ensures { result ≡ string_bytes text }
    {
        Text { text }
    }

    /// The text as a `String`. It takes no memory.
    pub fn into_string(self) -> String
        ensures { string_bytes result ≡ self }
    {
        let Text { text } = self;
        text
    }

    /// The text's characters. It takes no memory.
    pub fn as_str(&self) -> &str
        ensures { result.now ≡ self.now }
    {
        self.text.as_str()
    }

    /// How many bytes it takes in modified UTF-8 (JVMS 4.4.7). It takes no memory.
    pub fn modified_len(&self) -> u64
        ensures { result ≡ modified_len self.now }
    {
        modified_len_of(self.as_str())
    }

    /// The text between quotes, with escapes where a character doesn't stand for itself.
    ///
    /// # Errors
    /// `Memory` for want of memory.
    pub fn quoted(&self, alloc: Global) -> Result<String, Memory>
        ensures { IfOk result (λ s. string_bytes s ≡ quoted self.now) }
    {
        let mut out = String::new(alloc);
        push_quoted(self.as_str(), &mut out)?;
        Ok(out)
    }
}

fn char_len(c: char) -> u64
    ensures { result ≡ char_len c }
{
    match c {
        '\0' => 2,
        '\u{1}'..='\u{7f}' => 1,
        '\u{80}'..='\u{7ff}' => 2,
        '\u{800}'..='\u{ffff}' => 3,
        _ => 6,
    }
}

/// How many bytes the text takes in modified UTF-8.
pub(crate) fn modified_len_of(text: &str) -> u64
    ensures { result ≡ modified_len text.now }
{
    let _size = size_of_text(text);
    let mut total = 0;
    for c in text.chars() {
        total += char_len(c);
    }
    total
}

/// No text fills half of memory.
fn size_of_text(text: &str) -> usize
    ensures value { result ≡ length text.now }
    ensures small { result < 2 ^ 63 }
{
    text.len()
}
