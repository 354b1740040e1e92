ghost use Rattle.std.specs.Prelude.{◌≡◌};
ghost use Rattle.lang_grammar.specs.Place.{Gives, begins};
ghost use Rattle.lang_grammar.specs.Rules as spec;
ghost use Rattle.lang_grammar.specs.Table.{begins_stmt, compares};

use crate::cursor::Cursor;
use item_types::{Same, Text};
use lang_grammar::ParseError;
use lang_lexer::{Mark, Token};
use name_directory::Directory;
use std::alloc::Global;

/// What a text is read as: a step's body, or a recorder's method; what is declared; and where
/// the tree's memory comes from.
pub(crate) struct Lang<'a> {
    pub alloc: Global,
    pub names: &'a Directory<'a>,
    pub step: bool,
}

#[tactic(auto, unfolding(lang_grammar::specs::Rules::name))]
pub(crate) fn name(alloc: Global, tokens: &mut Cursor<'_>, left: usize) -> Result<Text, ParseError>
    ensures { Gives (spec.name left tokens.old) result tokens.new }
{
    match tokens.peek() {
        Some(Token::Name(word)) => {
            let word = word.try_copy(alloc)?;
            tokens.step();
            Ok(word)
        }
        _ => Err(ParseError::Fault(tokens.refuse(left))),
    }
}

#[tactic(auto, unfolding(lang_grammar::specs::Rules::number))]
pub(crate) fn number(tokens: &mut Cursor<'_>, left: usize) -> Result<i64, ParseError>
    ensures { Gives (spec.number left tokens.old) result tokens.new }
{
    match tokens.peek() {
        Some(Token::Number(value)) => {
            tokens.step();
            Ok(*value)
        }
        _ => Err(ParseError::Fault(tokens.refuse(left))),
    }
}

#[tactic(auto, unfolding(lang_grammar::specs::Rules::text))]
pub(crate) fn text(alloc: Global, tokens: &mut Cursor<'_>, left: usize) -> Result<Text, ParseError>
    ensures { Gives (spec.text left tokens.old) result tokens.new }
{
    match tokens.peek() {
        Some(Token::Str(value)) => {
            let value = value.try_copy(alloc)?;
            tokens.step();
            Ok(value)
        }
        _ => Err(ParseError::Fault(tokens.refuse(left))),
    }
}

/// Whether a comparison's sign comes next.
pub(crate) fn sees_comparison(tokens: &Cursor<'_>) -> bool
    ensures { result ≡ begins compares tokens.now.rest }
{
    match tokens.peek() {
        Some(Token::Sign(mark)) => mark.same(Mark::Equal) || mark.same(Mark::Less),
        _ => false,
    }
}

/// Whether a statement comes next.
pub(crate) fn sees_stmt(lang: &Lang<'_>, tokens: &Cursor<'_>) -> bool
    ensures { result ≡ begins (begins_stmt lang.now.step lang.now.names.now) tokens.now.rest }
{
    match tokens.peek() {
        Some(Token::Sign(Mark::Let | Mark::For | Mark::If | Mark::Fail)) => true,
        Some(Token::Sign(Mark::Call | Mark::Produce)) => lang.step,
        Some(Token::Sign(Mark::Print | Mark::Return | Mark::Add | Mark::Static | Mark::Me)) => {
            !lang.step
        }
        Some(Token::Name(_)) => !lang.step,
        _ => false,
    }
}
