ghost use Rattle.std.specs.Prelude.{◌≡◌};
ghost use Rattle.lang_grammar.specs.declared.fault.ParseError.TheVariants as errors;

use item_types::Memory;

/// The token that may not stand where it stands, among tokens that are all there. `at` is its
/// number, from 0; the end of the tokens has the number behind the last.
#[derive(Clone, Copy, Debug, PartialEq, Eq)]
pub enum Fault {
    /// The token begins nothing that may come there.
    Syntax { at: u32 },
    /// The token would open a form inside 64 open ones.
    TooDeep { at: u32 },
}

/// Why a form isn't read from a place among tokens.
#[derive(Debug, Drop)]
pub enum ParseError {
    /// Want of memory.
    Memory,
    /// A token may not stand where it stands.
    Fault(Fault),
}

impl From<Memory> for ParseError {
    ghost from_gives = { λ _ e. e ≡ errors.Memory };

    fn from(_e: Memory) -> ParseError {
        ParseError::Memory
    }
}

/// Why a text isn't the body or the method that it is read as. `at` is the number of a token,
/// from 0.
#[derive(Clone, Copy, Debug, PartialEq, Eq)]
pub enum LangFault {
    /// No token is there.
    Token { at: u32 },
    /// The token would open a form inside 64 open ones.
    TooDeep { at: u32 },
    /// The token may not stand there, or the text ends too soon.
    Syntax { at: u32 },
    /// Nothing that may be meant there has the name.
    Unknown { at: u32 },
    /// What has the name may not be used there.
    Undeclared { at: u32 },
    /// Want of memory.
    Memory,
}
