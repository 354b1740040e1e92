ghost use Rattle.std.specs.Prelude.{◌≡◌, ◌≤◌, length, IfOk};
ghost use Rattle.std.specs.Str.{chars};
ghost use Rattle.lang_lexer.specs.Tokens as spec;

use crate::chars::chars_of;
use crate::front::token;
use crate::token::Token;
use item_types::{Memory, Seq};
use std::alloc::Global;

fn is_blank(c: char) -> bool
    ensures { result ≡ spec.is_blank c }
{
    c == ' ' || c == '\t' || c == '\n' || c == '\r'
}

fn skip(chars: &[char]) -> &[char]
    ensures rest { result.now ≡ spec.skip chars.now }
    ensures shorter { length result.now ≤ length chars.now }
{
    let mut rest = chars;
    while let [c, after @ ..] = rest {
        if !is_blank(*c) {
            return rest;
        }
        rest = after;
    }
    rest
}

#[tactic(auto, unfolding(crate::specs::Tokens::tokens, crate::specs::Tokens::tokens_from))]
fn tokens_of(alloc: Global, chars: &[char]) -> Result<(Seq<Token>, bool), Memory>
    ensures all { IfOk result (λ x. spec.tokens chars.now ≡ (x.0, x.1)) }
    ensures few { IfOk result (λ x. length x.0 ≤ length chars.now) }
{
    let mut found = Seq::with_capacity(alloc, chars.len() / 2)?;
    let mut rest = chars;
    for _turn in 0..chars.len() + 1 {
        let front = skip(rest);
        if front.is_empty() {
            return Ok((found, true));
        }
        match token(alloc, front)? {
            None => return Ok((found, false)),
            Some((next, after)) => {
                found.push(next)?;
                rest = after;
            }
        }
    }
    Ok((found, false))
}

/// The tokens of a text up to its end, or to the first place where no token is; and whether
/// that is the end.
///
/// # Errors
/// `Memory` for want of memory.
pub fn tokens(alloc: Global, text: &str) -> Result<(Seq<Token>, bool), Memory>
    ensures all { IfOk result (λ x. spec.tokens (chars text.now) ≡ (x.0, x.1)) }
    ensures few { IfOk result (λ x. length x.0 ≤ length text.now) }
{
    let chars = chars_of(alloc, text)?;
    tokens_of(alloc, chars.as_slice())
}
