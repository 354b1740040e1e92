ghost use Rattle.std.specs.Prelude.{◌≡◌};
ghost use Rattle.lang_grammar.specs.Place.{Gives};
ghost use Rattle.lang_grammar.specs.Rules as spec;

use crate::cursor::Cursor;
use crate::reading::{Lang, name, number, text};
use lang_grammar::ParseError;
use lang_lexer::{Mark, Token};
use syntax_tree::Expr;

#[tactic(auto, unfolding(lang_grammar::specs::Rules::null))]
fn null(lang: &Lang<'_>, tokens: &mut Cursor<'_>, left: usize) -> Result<Expr, ParseError>
    ensures { Gives (spec.null lang.now.step lang.now.names.now left tokens.old) result tokens.new }
{
    let at = tokens.sign(left, Mark::Null)?;
    Ok(Expr::Null { at })
}

#[tactic(auto, unfolding(lang_grammar::specs::Rules::truth))]
fn truth(
    lang: &Lang<'_>,
    tokens: &mut Cursor<'_>,
    left: usize,
    mark: Mark,
    value: bool,
) -> Result<Expr, ParseError>
    ensures { Gives (spec.truth lang.now.step lang.now.names.now left mark value tokens.old) result tokens.new }
{
    let at = tokens.sign(left, mark)?;
    Ok(Expr::Bool { at, value })
}

#[tactic(auto, unfolding(lang_grammar::specs::Rules::long))]
fn long(lang: &Lang<'_>, tokens: &mut Cursor<'_>, left: usize) -> Result<Expr, ParseError>
    ensures { Gives (spec.long lang.now.step lang.now.names.now left tokens.old) result tokens.new }
{
    let at = tokens.at();
    let value = number(tokens, left)?;
    Ok(Expr::Long { at, value })
}

#[tactic(auto, unfolding(lang_grammar::specs::Rules::quoted))]
fn quoted(lang: &Lang<'_>, tokens: &mut Cursor<'_>, left: usize) -> Result<Expr, ParseError>
    ensures { Gives (spec.quoted lang.now.step lang.now.names.now left tokens.old) result tokens.new }
{
    let at = tokens.at();
    let value = text(lang.alloc, tokens, left)?;
    Ok(Expr::Str { at, value })
}

#[tactic(auto, unfolding(lang_grammar::specs::Rules::variable))]
fn variable(lang: &Lang<'_>, tokens: &mut Cursor<'_>, left: usize) -> Result<Expr, ParseError>
    ensures { Gives (spec.variable lang.now.step lang.now.names.now left tokens.old) result tokens.new }
{
    let at = tokens.at();
    let name = name(lang.alloc, tokens, left)?;
    Ok(Expr::Name { at, name })
}

#[tactic(auto, unfolding(lang_grammar::specs::Rules::me))]
fn me(lang: &Lang<'_>, tokens: &mut Cursor<'_>, left: usize) -> Result<Expr, ParseError>
    ensures { Gives (spec.me lang.now.step lang.now.names.now left tokens.old) result tokens.new }
{
    let at = tokens.sign(left, Mark::Me)?;
    Ok(Expr::Me { at })
}

#[tactic(auto, unfolding(lang_grammar::specs::Rules::got))]
fn got(lang: &Lang<'_>, tokens: &mut Cursor<'_>, left: usize) -> Result<Expr, ParseError>
    ensures { Gives (spec.got lang.now.step lang.now.names.now left tokens.old) result tokens.new }
{
    let at = tokens.sign(left, Mark::Get)?;
    let word = name(lang.alloc, tokens, left)?;
    let item = lang.names.item_number(&word);
    Ok(Expr::Get { at, item })
}

#[tactic(auto, unfolding(lang_grammar::specs::Rules::all_of))]
fn all_of(lang: &Lang<'_>, tokens: &mut Cursor<'_>, left: usize) -> Result<Expr, ParseError>
    ensures { Gives (spec.all_of lang.now.step lang.now.names.now left tokens.old) result tokens.new }
{
    let at = tokens.sign(left, Mark::All)?;
    let word = name(lang.alloc, tokens, left)?;
    let item = lang.names.item_number(&word);
    Ok(Expr::All { at, item })
}

#[tactic(auto, unfolding(lang_grammar::specs::Rules::static_of))]
fn static_of(lang: &Lang<'_>, tokens: &mut Cursor<'_>, left: usize) -> Result<Expr, ParseError>
    ensures { Gives (spec.static_of lang.now.step lang.now.names.now left tokens.old) result tokens.new }
{
    let at = tokens.sign(left, Mark::Static)?;
    tokens.sign(left, Mark::Dot)?;
    let field = name(lang.alloc, tokens, left)?;
    Ok(Expr::StaticOf { at, field })
}

/// A primary that holds no expression.
#[tactic(auto, unfolding(lang_grammar::specs::Rules::simple))]
pub(crate) fn simple(
    lang: &Lang<'_>,
    tokens: &mut Cursor<'_>,
    left: usize,
) -> Result<Expr, ParseError>
    ensures { Gives (spec.simple lang.now.step lang.now.names.now left tokens.old) result tokens.new }
{
    match tokens.peek() {
        Some(Token::Sign(Mark::Null)) => null(lang, tokens, left),
        Some(Token::Sign(Mark::True)) => truth(lang, tokens, left, Mark::True, true),
        Some(Token::Sign(Mark::False)) => truth(lang, tokens, left, Mark::False, false),
        Some(Token::Number(_)) => long(lang, tokens, left),
        Some(Token::Str(_)) => quoted(lang, tokens, left),
        Some(Token::Name(_)) => variable(lang, tokens, left),
        Some(Token::Sign(Mark::Get)) if lang.step => got(lang, tokens, left),
        Some(Token::Sign(Mark::All)) if lang.step => all_of(lang, tokens, left),
        Some(Token::Sign(Mark::Me)) if !lang.step => me(lang, tokens, left),
        Some(Token::Sign(Mark::Static)) if !lang.step => static_of(lang, tokens, left),
        _ => Err(ParseError::Fault(tokens.refuse(left))),
    }
}
