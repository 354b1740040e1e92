ghost use Rattle.std.specs.Prelude.{◌≡◌, ◌<◌, ◌≤◌, ◌^◌, length, IfOk, IfSome, option_map};
ghost use Rattle.lang_lexer.specs.Tokens as spec;
ghost use Rattle.lang_lexer.specs.Words.{name_len};

use crate::number::{digit_value, digits};
use crate::quoted::quoted;
use crate::token::{Mark, Token};
use crate::word::{is_digit, is_letter, name_len, word};
use item_types::Memory;
use std::alloc::Global;

/// The sign of one character.
fn sign(c: char) -> Option<Mark>
    ensures { result ≡ spec.sign c }
{
    match c {
        ';' => Some(Mark::Semi),
        ',' => Some(Mark::Comma),
        '.' => Some(Mark::Dot),
        ':' => Some(Mark::Colon),
        '(' => Some(Mark::Open),
        ')' => Some(Mark::Close),
        '[' => Some(Mark::OpenList),
        ']' => Some(Mark::CloseList),
        '{' => Some(Mark::OpenBlock),
        '}' => Some(Mark::CloseBlock),
        '=' => Some(Mark::Assign),
        '<' => Some(Mark::Less),
        '+' => Some(Mark::Plus),
        '!' => Some(Mark::Bang),
        _ => None,
    }
}

fn one_sign(c: char, rest: &[char]) -> Option<(Token, &[char])>
    ensures front { option_map (λ x. (x.0, x.1.now)) result ≡ spec.sign_token (spec.sign c) rest.now }
    ensures shorter { IfSome result (λ x. length x.1.now ≤ length rest.now) }
{
    match sign(c) {
        Some(mark) => Some((Token::Sign(mark), rest)),
        None => None,
    }
}

/// The sign that begins so, and what follows it.
fn sign_from(c: char, rest: &[char]) -> Option<(Token, &[char])>
    ensures front { option_map (λ x. (x.0, x.1.now)) result ≡ spec.signed_by c rest.now }
    ensures shorter { IfSome result (λ x. length x.1.now ≤ length rest.now) }
{
    match rest {
        [] => one_sign(c, rest),
        [d, after @ ..] => {
            if c == '=' && *d == '=' {
                Some((Token::Sign(Mark::Equal), after))
            } else if c == '&' && *d == '&' {
                Some((Token::Sign(Mark::And), after))
            } else {
                one_sign(c, rest)
            }
        }
    }
}

/// The number below 0 behind a minus, and what follows it.
fn negative(chars: &[char]) -> Option<(Token, &[char])>
    ensures front { option_map (λ x. (x.0, x.1.now)) result ≡ spec.negative chars.now }
    ensures shorter { IfSome result (λ x. length x.1.now < length chars.now) }
{
    match chars {
        [c, rest @ ..] if '1' <= *c && *c <= '9' => {
            let (value, rest) = digits(digit_value(*c), 9_223_372_036_854_775_809, rest);
            Some((Token::Number(minus(value)), rest))
        }
        _ => None,
    }
}

/// The number that is so much below 0.
fn minus(value: u64) -> i64
    requires { value ≤ 2 ^ 63 }
    ensures { result ≡ spec.minus value }
{
    if value == 0 {
        return 0;
    }
    -1 - (value - 1) as i64
}

/// The number at the front, and what follows it.
fn positive(first: char, rest: &[char]) -> (Token, &[char])
    requires { first < 58 }
    ensures front { (result.0, result.1.now) ≡ spec.positive first rest.now }
    ensures shorter { length result.1.now ≤ length rest.now }
{
    if first == '0' {
        return (Token::Number(0), rest);
    }
    let (value, rest) = digits(digit_value(first), 9_223_372_036_854_775_808, rest);
    (Token::Number(value as i64), rest)
}

/// The keyword or name at the front, and what follows it.
fn word_from(alloc: Global, chars: &[char]) -> Result<(Token, &[char]), Memory>
    requires { 0 < name_len chars.now }
    ensures front { IfOk result (λ x. (x.0, x.1.now) ≡ spec.word_from chars.now) }
    ensures shorter { IfOk result (λ x. length x.1.now < length chars.now) }
{
    let (front, rest) = chars.split_at(name_len(chars));
    let found = word(alloc, front)?;
    Ok((found, rest))
}

/// The token at the front, and what follows it.
pub(crate) fn token(alloc: Global, chars: &[char]) -> Result<Option<(Token, &[char])>, Memory>
    ensures front { IfOk result (λ o. option_map (λ x. (x.0, x.1.now)) o ≡ spec.token chars.now) }
    ensures shorter { IfOk result (λ o. IfSome o (λ x. length x.1.now < length chars.now)) }
{
    match chars {
        [] => Ok(None),
        ['"', rest @ ..] => match quoted(alloc, rest)? {
            None => Ok(None),
            Some((text, rest)) => Ok(Some((Token::Str(text), rest))),
        },
        ['-', rest @ ..] => Ok(negative(rest)),
        [c, rest @ ..] if is_digit(*c) => Ok(Some(positive(*c, rest))),
        [c, ..] if is_letter(*c) => {
            let (found, rest) = word_from(alloc, chars)?;
            Ok(Some((found, rest)))
        }
        [c, rest @ ..] => Ok(sign_from(*c, rest)),
    }
}
