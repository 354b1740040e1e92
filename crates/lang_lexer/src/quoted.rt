ghost use Rattle.std.specs.Prelude.{◌≡◌, ◌≤◌, ◌<◌, [], length, IfOk, IfSome, option_map};
ghost use Rattle.lang_lexer.specs.Quotes as spec;

use item_types::{Memory, Text};
use std::alloc::Global;

/// Where in a quoted text a character stands.
#[derive(Clone, Copy)]
pub(crate) enum Quoting {
    /// Outside an escape.
    Plain,
    /// Behind a backslash.
    Escape,
    /// Where the brace of `\u{H}` has to come.
    Brace,
    /// Within its digits: how many there were, and their value.
    Hex { digits: u32, value: u32 },
}

/// What a character does there.
#[derive(Clone, Copy)]
pub(crate) enum Act {
    Add(char),
    Go(Quoting),
    End,
    Bad,
}

fn hex_value(c: char) -> Option<u32>
    ensures value { result ≡ spec.hex_value c }
    ensures small { IfSome result (λ v. v < 16) }
{
    match c {
        '0'..='9' => Some(c as u32 - 48),
        'a'..='f' => Some(c as u32 - 87),
        'A'..='F' => Some(c as u32 - 55),
        _ => None,
    }
}

fn behind_backslash(c: char) -> Act
    ensures { result ≡ spec.behind_backslash c }
{
    match c {
        '"' | '\\' => Act::Add(c),
        'n' => Act::Add('\n'),
        't' => Act::Add('\t'),
        'u' => Act::Go(Quoting::Brace),
        _ => Act::Bad,
    }
}

fn in_digits(digits: u32, value: u32, c: char) -> Act
    ensures { result ≡ spec.in_digits digits value c }
{
    match hex_value(c) {
        Some(digit) => {
            if digits < 6 && value < 0x10_0000 {
                Act::Go(Quoting::Hex {
                    digits: digits + 1,
                    value: 16 * value + digit,
                })
            } else {
                Act::Bad
            }
        }
        None => behind_digits(digits, value, c),
    }
}

fn behind_digits(digits: u32, value: u32, c: char) -> Act
    ensures { result ≡ spec.behind_digits digits value c }
{
    if c != '}' {
        return Act::Bad;
    }
    if digits == 0 {
        return Act::Bad;
    }
    match char::from_u32(value) {
        Some(found) => Act::Add(found),
        None => Act::Bad,
    }
}

fn act_of(quoting: Quoting, c: char) -> Act
    ensures { result ≡ spec.act quoting c }
{
    match quoting {
        Quoting::Plain => match c {
            '"' => Act::End,
            '\\' => Act::Go(Quoting::Escape),
            '\0'..='\u{1f}' => Act::Bad,
            _ => Act::Add(c),
        },
        Quoting::Escape => behind_backslash(c),
        Quoting::Brace => match c {
            '{' => Act::Go(Quoting::Hex {
                digits: 0,
                value: 0,
            }),
            _ => Act::Bad,
        },
        Quoting::Hex { digits, value } => in_digits(digits, value, c),
    }
}

/// The text behind an opening quote, and what follows its closing one.
pub(crate) fn quoted(alloc: Global, chars: &[char]) -> Result<Option<(Text, &[char])>, Memory>
    ensures text { IfOk result (λ o. option_map (λ x. (x.0, x.1.now)) o ≡ spec.quoted Quoting.Plain [] chars.now) }
    ensures shorter { IfOk result (λ o. IfSome o (λ x. length x.1.now ≤ length chars.now)) }
{
    let mut found = String::new(alloc);
    let mut quoting = Quoting::Plain;
    let mut rest = chars;
    while let [c, after @ ..] = rest {
        match act_of(quoting, *c) {
            Act::Add(d) => {
                found.push(d)?;
                quoting = Quoting::Plain;
                rest = after;
            }
            Act::Go(next) => {
                quoting = next;
                rest = after;
            }
            Act::End => return Ok(Some((Text::from_string(found), after))),
            Act::Bad => return Ok(None),
        }
    }
    Ok(None)
}
