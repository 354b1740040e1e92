ghost use Rattle.std.specs.Prelude.{◌≡◌, ◌<◌, ◌^◌, length, IfOk};
ghost use Rattle.std.specs.Str.{chars};
ghost use Rattle.operators.specs.Operations as spec;
ghost use Rattle.operators.specs.Operands.{shown};

use crate::operand::Operand;
use item_types::{Memory, Text};
use std::alloc::Global;

/// How many bytes of modified UTF-8 a text may have that a literal or a join makes.
pub const MAX_TEXT: u64 = 65_535;

/// What a sum comes to.
#[derive(Drop)]
pub enum Added {
    /// The sum of two numbers.
    Long(i64),
    /// The join of two texts.
    Str(Text),
    /// The operands are neither two numbers nor two texts.
    WrongKind,
    /// The join is too long.
    TooLong,
}

/// Whether the text is longer than one that a literal or a join may make. It takes no memory.
pub fn is_too_long(text: &Text) -> bool
    ensures { result ≡ spec.is_too_long text.now }
{
    text.modified_len() > MAX_TEXT
}

/// The first text and then the second, unless that is too long.
///
/// # Errors
/// `Memory` for want of memory.
pub fn join(alloc: Global, a: &str, b: &str) -> Result<Added, Memory>
    ensures { IfOk result (λ sum. sum ≡ spec.joined a.now b.now) }
{
    let mut text = String::with_capacity(alloc, a.len().saturating_add(b.len()))?;
    text.push_str(a)?;
    text.push_str(b)?;
    let text = Text::from_string(text);
    if is_too_long(&text) {
        return Ok(Added::TooLong);
    }
    Ok(Added::Str(text))
}

/// The sum of two numbers, which wraps to 64 bits, or the join of two texts.
///
/// # Errors
/// `Memory` for want of memory.
pub fn plus(alloc: Global, a: &Operand<&str>, b: &Operand<&str>) -> Result<Added, Memory>
    ensures { IfOk result (λ sum. sum ≡ spec.plus (shown a.now) (shown b.now)) }
{
    match (a, b) {
        (Operand::Long(a), Operand::Long(b)) => Ok(Added::Long(a.wrapping_add(*b))),
        (Operand::Str(a), Operand::Str(b)) => join(alloc, a, b),
        _ => Ok(Added::WrongKind),
    }
}

/// Whether the first number is less than the second; `None` unless both are numbers. It takes no
/// memory.
pub fn less(a: &Operand<&str>, b: &Operand<&str>) -> Option<bool>
    ensures { result ≡ spec.less (shown a.now) (shown b.now) }
{
    match (a, b) {
        (Operand::Long(a), Operand::Long(b)) => Some(*a < *b),
        _ => None,
    }
}

/// Whether both are null, equal truth values, equal numbers or equal texts. It takes no memory.
pub fn same_plain(a: &Operand<&str>, b: &Operand<&str>) -> bool
    ensures { result ≡ spec.same_plain (shown a.now) (shown b.now) }
{
    match (a, b) {
        (Operand::Null, Operand::Null) => true,
        (Operand::Bool(a), Operand::Bool(b)) => *a == *b,
        (Operand::Long(a), Operand::Long(b)) => *a == *b,
        (Operand::Str(a), Operand::Str(b)) => *a == *b,
        _ => false,
    }
}

/// The truth value; `None` unless it is one. It takes no memory.
pub fn truth(a: &Operand<&str>) -> Option<bool>
    ensures { result ≡ spec.truth (shown a.now) }
{
    match a {
        Operand::Bool(b) => Some(*b),
        _ => None,
    }
}

/// How many characters a text has, or how many elements a list; `None` for any other operand. It
/// takes no memory.
pub fn len(a: &Operand<&str>) -> Option<i64>
    ensures { result ≡ spec.len (shown a.now) }
{
    match a {
        Operand::Str(text) => Some(count_chars(text) as i64),
        Operand::List(count) => Some(*count),
        _ => None,
    }
}

fn count_chars(text: &str) -> usize
    ensures value { result ≡ length (chars text.now) }
    ensures small { result < 2 ^ 63 }
{
    let _size = size_of_text(text);
    text.chars().count()
}

/// No text fills half of memory.
fn size_of_text(text: &str) -> usize
    ensures value { result ≡ length text.now }
    ensures small { result < 2 ^ 63 }
{
    text.len()
}
