ghost use Rattle.std.specs.Prelude.{◌≡◌, [], ◌<◌, ◌^◌, length};
ghost use Rattle.lang_grammar.specs.Place.{Gives, Finds};
ghost use Rattle.lang_grammar.specs.Table.{begins_stmt};
ghost use Rattle.lang_grammar.specs.Rules as spec;

use crate::cursor::Cursor;
use crate::expr::expr;
use crate::plain::plain;
use crate::reading::{Lang, name, sees_stmt};
use item_types::Seq;
use lang_grammar::ParseError;
use lang_lexer::{Mark, Token};
use syntax_tree::Stmt;

#[tactic(auto, unfolding(lang_grammar::specs::Rules::for_form))]
#[cycle(blocks)]
fn for_form(lang: &Lang<'_>, tokens: &mut Cursor<'_>, left: usize) -> Result<Stmt, ParseError>
    ensures { Gives (spec.for_form lang.now.step lang.now.names.now left (spec.block lang.now.step lang.now.names.now left) tokens.old) result tokens.new }
{
    let at = tokens.sign(left, Mark::For)?;
    let name = name(lang.alloc, tokens, left)?;
    tokens.sign(left, Mark::In)?;
    let list = expr(lang, tokens, left)?;
    let block = block(lang, tokens, left)?;
    Ok(Stmt::For {
        at,
        name,
        list,
        block,
    })
}

#[tactic(auto, unfolding(lang_grammar::specs::Rules::if_form))]
#[cycle(blocks)]
fn if_form(lang: &Lang<'_>, tokens: &mut Cursor<'_>, left: usize) -> Result<Stmt, ParseError>
    ensures { Gives (spec.if_form lang.now.step lang.now.names.now left (spec.block lang.now.step lang.now.names.now left) tokens.old) result tokens.new }
{
    let at = tokens.sign(left, Mark::If)?;
    let cond = expr(lang, tokens, left)?;
    let then = block(lang, tokens, left)?;
    let other = other(lang, tokens, left)?;
    Ok(Stmt::If {
        at,
        cond,
        block: then,
        other,
    })
}

#[tactic(auto, unfolding(lang_grammar::specs::Rules::other))]
#[cycle(blocks)]
fn other(
    lang: &Lang<'_>,
    tokens: &mut Cursor<'_>,
    left: usize,
) -> Result<Option<Seq<Stmt>>, ParseError>
    ensures { Gives (spec.other lang.now.step lang.now.names.now left (spec.block lang.now.step lang.now.names.now left) tokens.old) result tokens.new }
{
    if tokens.sees(Mark::Else) {
        tokens.sign(left, Mark::Else)?;
        let block = block(lang, tokens, left)?;
        return Ok(Some(block));
    }
    Ok(None)
}

#[tactic(auto, unfolding(lang_grammar::specs::Rules::stmt, lang_grammar::specs::Rules::plain))]
#[cycle(blocks)]
fn stmt(lang: &Lang<'_>, tokens: &mut Cursor<'_>, left: usize) -> Result<Stmt, ParseError>
    ensures { Gives (spec.stmt lang.now.step lang.now.names.now left (spec.block lang.now.step lang.now.names.now left) tokens.old) result tokens.new }
{
    match tokens.peek() {
        Some(Token::Sign(Mark::For)) => for_form(lang, tokens, left),
        Some(Token::Sign(Mark::If)) => if_form(lang, tokens, left),
        _ => plain(lang, tokens, left),
    }
}

#[tactic(auto, unfolding(lang_grammar::specs::Rules::stmts, lang_grammar::specs::Rules::many_from))]
#[cycle(blocks)]
fn stmts(lang: &Lang<'_>, tokens: &mut Cursor<'_>, left: usize) -> Result<Seq<Stmt>, ParseError>
    ensures { Gives (spec.stmts lang.now.step lang.now.names.now left (spec.block lang.now.step lang.now.names.now left) tokens.old) result tokens.new }
{
    let mut found = Seq::new(lang.alloc);
    let turns = tokens.turns();
    for _turn in 0..turns {
        if !sees_stmt(lang, tokens) {
            return Ok(found);
        }
        found.push(stmt(lang, tokens, left)?)?;
    }
    Err(ParseError::Fault(tokens.refuse(left)))
}

#[tactic(auto, unfolding(lang_grammar::specs::Rules::block))]
#[cycle(blocks)]
fn block(lang: &Lang<'_>, tokens: &mut Cursor<'_>, left: usize) -> Result<Seq<Stmt>, ParseError>
    ensures { Gives (spec.block lang.now.step lang.now.names.now left tokens.old) result tokens.new }
{
    if left == 0 {
        return Err(ParseError::Fault(tokens.refuse(left)));
    }
    tokens.sign(left, Mark::OpenBlock)?;
    let found = stmts(lang, tokens, left - 1)?;
    tokens.sign(left - 1, Mark::CloseBlock)?;
    Ok(found)
}

/// How many forms may be open.
const LIMIT: usize = 64;

/// The statements that all these tokens are.
#[tactic(auto, unfolding(lang_grammar::specs::Rules::whole, lang_grammar::specs::Rules::body, lang_grammar::specs::Rules::stmts))]
pub(crate) fn whole(lang: &Lang<'_>, tokens: &[Token]) -> Result<Seq<Stmt>, ParseError>
    requires { length tokens.now < 2 ^ 32 }
    ensures { Finds (spec.whole lang.now.step lang.now.names.now spec.limit tokens.now) result }
{
    let mut cursor = Cursor::new(tokens);
    let found = stmts(lang, &mut cursor, LIMIT)?;
    match cursor.peek() {
        None => Ok(found),
        Some(_) => Err(ParseError::Fault(cursor.refuse(LIMIT))),
    }
}
