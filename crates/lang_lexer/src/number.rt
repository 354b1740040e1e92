ghost use Rattle.std.specs.Prelude.{◌≡◌, ◌+◌, ◌≤◌, ◌<◌, ◌^◌, length};
ghost use Rattle.lang_lexer.specs.Numbers as spec;

use crate::word::is_digit;

/// The number that goes on so, as long as it stays below the limit, and what follows it.
pub(crate) fn digits(first: u64, limit: u64, chars: &[char]) -> (u64, &[char])
    requires below { first < limit }
    requires most { limit ≤ 2 ^ 63 + 1 }
    ensures value { (result.0, result.1.now) ≡ spec.digits first limit chars.now }
    ensures small { result.0 < limit }
    ensures shorter { length result.1.now ≤ length chars.now }
{
    let mut value = first;
    let mut rest = chars;
    while let [c, after @ ..] = rest {
        if !is_digit(*c) {
            return (value, rest);
        }
        let more = 10 * value as u128 + digit_value(*c) as u128;
        if more >= limit as u128 {
            return (value, rest);
        }
        value = more as u64;
        rest = after;
    }
    (value, rest)
}

pub(crate) fn digit_value(c: char) -> u64
    ensures value { result ≡ spec.digit_value c }
    ensures small { result < 10 }
{
    match c {
        '0'..='9' => (c as u32 - 48) as u64,
        _ => 0,
    }
}
