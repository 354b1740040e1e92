ghost use Rattle.std.specs.Prelude.{◌≡◌, ◌≤◌, ◌↔◌, length, take, IfOk, IsTrue};
ghost use Rattle.std.specs.Str.{encode_utf8_all};
ghost use Rattle.lang_lexer.specs.Words as spec;

use crate::chars::text_of;
use crate::token::{Mark, Token};
use item_types::Memory;
use std::alloc::Global;

/// The most characters of a name.
const LONGEST: usize = 64;

pub(crate) fn is_digit(c: char) -> bool
    ensures { result ≡ spec.is_digit c }
{
    '0' <= c && c <= '9'
}

pub(crate) fn is_letter(c: char) -> bool
    ensures { result ≡ spec.is_letter c }
{
    'a' <= c && c <= 'z' || 'A' <= c && c <= 'Z'
}

fn in_name(c: char) -> bool
    ensures { result ≡ spec.in_name c }
{
    is_letter(c) || is_digit(c) || c == '_'
}

/// The first characters, at most so many.
fn front(chars: &[char], most: usize) -> &[char]
    ensures value { result.now ≡ take most chars.now }
    ensures within { length result.now ≤ length chars.now }
{
    if chars.len() <= most {
        chars
    } else {
        &chars[..most]
    }
}

fn run_len(chars: &[char]) -> usize
    ensures value { result ≡ spec.run_len chars.now }
    ensures within { result ≤ length chars.now }
{
    let mut count = 0;
    for c in chars {
        if !in_name(*c) {
            return count;
        }
        count += 1;
    }
    count
}

/// How many characters of a name come next.
pub(crate) fn name_len(chars: &[char]) -> usize
    ensures value { result ≡ spec.name_len chars.now }
    ensures within { result ≤ length chars.now }
{
    run_len(front(chars, LONGEST))
}

/// The keyword of three letters or more with this first and this third one: there is one at most.
fn by_letters(first: char, third: char) -> Option<Mark>
    ensures { result ≡ spec.by_letters first third }
{
    match first {
        'l' => Some(if third == 't' { Mark::Let } else { Mark::Len }),
        'p' => Some(if third == 'o' {
            Mark::Produce
        } else {
            Mark::Print
        }),
        'f' => Some(match third {
            'r' => Mark::For,
            'i' => Mark::Fail,
            _ => Mark::False,
        }),
        'e' => Some(Mark::Else),
        'c' => Some(Mark::Call),
        'g' => Some(Mark::Get),
        'a' => Some(if third == 'l' { Mark::All } else { Mark::Add }),
        'n' => Some(if third == 'w' { Mark::New } else { Mark::Null }),
        't' => Some(Mark::True),
        's' => Some(if third == 'l' { Mark::Me } else { Mark::Static }),
        'r' => Some(Mark::Return),
        _ => None,
    }
}

/// The one keyword that these letters can be.
fn likely(word: &[char]) -> Option<Mark>
    ensures { result ≡ spec.likely word.now }
{
    match word {
        [_, second] => Some(if *second == 'n' { Mark::In } else { Mark::If }),
        [first, _, third, ..] => by_letters(*first, *third),
        _ => None,
    }
}

/// Whether these are the characters of an ASCII text.
fn are_letters(word: &[char], letters: &[u8]) -> bool
    ensures { IsTrue result ↔ (word.now ≡ letters.now) }
{
    if word.len() != letters.len() {
        return false;
    }
    for (i, c) in word.iter().enumerate() {
        if *c != letters[i] as char {
            return false;
        }
    }
    true
}

/// The keyword that is written so.
fn keyword(word: &[char]) -> Option<Mark>
    ensures { result ≡ spec.keyword (encode_utf8_all word.now) }
{
    match likely(word) {
        Some(mark) => {
            if are_letters(word, mark.written().as_bytes()) {
                Some(mark)
            } else {
                None
            }
        }
        None => None,
    }
}

/// A keyword, or a name.
pub(crate) fn word(alloc: Global, chars: &[char]) -> Result<Token, Memory>
    ensures { IfOk result (λ t. t ≡ spec.word chars.now) }
{
    match keyword(chars) {
        Some(mark) => Ok(Token::Sign(mark)),
        None => Ok(Token::Name(text_of(alloc, chars)?)),
    }
}
