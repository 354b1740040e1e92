ghost use Rattle.std.specs.Prelude.{◌≡◌, ◌<◌, ◌^◌, length};
ghost use Rattle.lang_grammar.specs.Text as spec;
ghost use Rattle.lang_grammar.specs.Text.{Told};

use crate::block::whole;
use crate::reading::Lang;
use item_types::{Memory, Seq};
use lang_grammar::{Fault, LangFault, ParseError};
use lang_lexer::{Token, tokens};
use syntax_tree::Stmt;

/// The fault at a token, where the text has so many tokens; complete says that it ends behind
/// them.
fn named(lang: &Lang<'_>, fault: Fault, count: u32, complete: bool) -> LangFault
    ensures { result ≡ spec.named lang.now.step lang.now.names.now fault count complete }
{
    let _ = lang;
    match fault {
        Fault::TooDeep { at } => LangFault::TooDeep { at },
        Fault::Syntax { at } => {
            if at == count && !complete {
                LangFault::Token { at }
            } else {
                LangFault::Syntax { at }
            }
        }
    }
}

fn ended(
    lang: &Lang<'_>,
    stmts: Seq<Stmt>,
    count: u32,
    complete: bool,
) -> Result<Seq<Stmt>, LangFault>
    ensures { result ≡ spec.ended lang.now.step lang.now.names.now stmts count complete }
{
    let _ = lang;
    if complete {
        Ok(stmts)
    } else {
        Err(LangFault::Token { at: count })
    }
}

fn read_tokens(lang: &Lang<'_>, tokens: &[Token], complete: bool) -> Result<Seq<Stmt>, LangFault>
    requires { length tokens.now < 2 ^ 32 }
    ensures { Told (spec.of_body lang.now.step lang.now.names.now (length tokens.now) complete (spec.whole_of lang.now.step lang.now.names.now tokens.now)) result }
{
    let count = tokens.len() as u32;
    match whole(lang, tokens) {
        Ok(stmts) => ended(lang, stmts, count, complete),
        Err(ParseError::Memory) => Err(LangFault::Memory),
        Err(ParseError::Fault(fault)) => Err(named(lang, fault, count, complete)),
    }
}

/// The statements that a text is, or where it is stuck.
pub(crate) fn read_text(lang: &Lang<'_>, text: &str) -> Result<Seq<Stmt>, LangFault>
    requires { length text.now < 2 ^ 32 }
    ensures { Told (spec.of_text lang.now.step lang.now.names.now text.now) result }
{
    match tokens(lang.alloc, text) {
        Err(Memory) => Err(LangFault::Memory),
        Ok((found, complete)) => read_tokens(lang, found.as_slice(), complete),
    }
}
