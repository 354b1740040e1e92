ghost use Rattle.std.specs.Prelude.{◌≡◌, ℕ, Bool, List};
ghost use Rattle.lang_lexer.specs.declared.token.Token.{Token};
ghost use Rattle.lang_lexer.specs.Kinds.{IsToken, AreTokens};
ghost use Rattle.lang_lexer.specs.Tokens.{tokens};

/// A text's tokens are, one behind the other, the longest beginnings that are tokens, and no other
/// list of tokens is that; and characters are one token at most.
pub fn longest_tokens()
    ensures longest { (cs : List ℕ) → AreTokens cs (tokens cs).0 (tokens cs).1 }
    ensures only { (cs : List ℕ) (ts : List Token) (whole : Bool) → AreTokens cs ts whole → tokens cs ≡ (ts, whole) }
    ensures one { (t u : Token) (w : List ℕ) → IsToken t w → IsToken u w → t ≡ u }
{}
