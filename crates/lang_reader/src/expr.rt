ghost use Rattle.std.specs.Prelude.{◌≡◌, ◌∷◌, [], IfOk};
ghost use Rattle.lang_lexer.specs.declared.token.Mark.TheVariants as mark;
ghost use Rattle.syntax_tree.specs.declared.tree.Expr.TheVariants as expr;
ghost use Rattle.lang_grammar.specs.Place.{Gives, is};
ghost use Rattle.lang_reader.specs.Compared.{compared_with};
ghost use Rattle.lang_grammar.specs.Rules as spec;

use crate::cursor::Cursor;
use crate::reading::{Lang, name, sees_comparison};
use crate::simple::simple;
use item_types::{Boxed, Memory, Seq, Text};
use lang_grammar::ParseError;
use lang_lexer::{Mark, Token};
use std::alloc::Global;
use syntax_tree::{Expr, Link};

/// An expression: comparisons with `&&` between two.
#[tactic(auto, unfolding(lang_grammar::specs::Rules::expr, lang_grammar::specs::Rules::expr_of, lang_grammar::specs::Rules::chain))]
#[cycle(expr)]
pub(crate) fn expr(
    lang: &Lang<'_>,
    tokens: &mut Cursor<'_>,
    left: usize,
) -> Result<Expr, ParseError>
    ensures { Gives (spec.expr lang.now.step lang.now.names.now left tokens.old) result tokens.new }
{
    let first = comparison(lang, tokens, left)?;
    if tokens.sees(Mark::And) {
        return both_behind(lang, tokens, left, first);
    }
    Ok(first)
}

/// A conjunction behind its first part.
#[tactic(auto, unfolding(lang_grammar::specs::Rules::chain_behind, lang_grammar::specs::Rules::chain_from))]
#[cycle(expr)]
fn both_behind(
    lang: &Lang<'_>,
    tokens: &mut Cursor<'_>,
    left: usize,
    first: Expr,
) -> Result<Expr, ParseError>
    ensures { Gives (spec.chain_behind left mark.And expr.Both (spec.comparison lang.now.step lang.now.names.now left (spec.sum lang.now.step lang.now.names.now left (spec.unary lang.now.step lang.now.names.now left))) first tokens.old) result tokens.new }
{
    let mut parts = Seq::new(lang.alloc);
    let mut signs = Seq::new(lang.alloc);
    let sign = tokens.sign(left, Mark::And)?;
    let second = comparison(lang, tokens, left)?;
    parts.push(first)?;
    parts.push(second)?;
    signs.push(sign)?;
    let turns = tokens.turns();
    for _turn in 0..turns {
        if !tokens.sees(Mark::And) {
            return Ok(Expr::Both { parts, signs });
        }
        let sign = tokens.sign(left, Mark::And)?;
        parts.push(comparison(lang, tokens, left)?)?;
        signs.push(sign)?;
    }
    Err(ParseError::Fault(tokens.refuse(left)))
}

#[tactic(auto, unfolding(lang_grammar::specs::Rules::comparison))]
#[cycle(expr)]
fn comparison(lang: &Lang<'_>, tokens: &mut Cursor<'_>, left: usize) -> Result<Expr, ParseError>
    ensures { Gives (spec.comparison lang.now.step lang.now.names.now left (spec.sum lang.now.step lang.now.names.now left (spec.unary lang.now.step lang.now.names.now left)) tokens.old) result tokens.new }
{
    let first = sum(lang, tokens, left)?;
    if sees_comparison(tokens) {
        return compared(lang, tokens, left, first);
    }
    Ok(first)
}

fn equal_of(alloc: Global, first: Expr, sign: u32, second: Expr) -> Result<Expr, Memory>
    ensures { IfOk result (λ x. x ≡ expr.Equal first sign second) }
{
    let one = Boxed::new(alloc, first)?;
    let other = Boxed::new(alloc, second)?;
    Ok(Expr::Equal {
        left: one,
        sign,
        right: other,
    })
}

fn less_of(alloc: Global, first: Expr, sign: u32, second: Expr) -> Result<Expr, Memory>
    ensures { IfOk result (λ x. x ≡ expr.Less first sign second) }
{
    let one = Boxed::new(alloc, first)?;
    let other = Boxed::new(alloc, second)?;
    Ok(Expr::Less {
        left: one,
        sign,
        right: other,
    })
}

/// `== b` behind its first part.
#[cycle(expr)]
fn equal_behind(
    lang: &Lang<'_>,
    tokens: &mut Cursor<'_>,
    left: usize,
    first: Expr,
) -> Result<Expr, ParseError>
    ensures { Gives (compared_with left mark.Equal expr.Equal (spec.sum lang.now.step lang.now.names.now left (spec.unary lang.now.step lang.now.names.now left)) first tokens.old) result tokens.new }
{
    let sign = tokens.sign(left, Mark::Equal)?;
    let second = sum(lang, tokens, left)?;
    Ok(equal_of(lang.alloc, first, sign, second)?)
}

/// `< b` behind its first part.
#[cycle(expr)]
fn less_behind(
    lang: &Lang<'_>,
    tokens: &mut Cursor<'_>,
    left: usize,
    first: Expr,
) -> Result<Expr, ParseError>
    ensures { Gives (compared_with left mark.Less expr.Less (spec.sum lang.now.step lang.now.names.now left (spec.unary lang.now.step lang.now.names.now left)) first tokens.old) result tokens.new }
{
    let sign = tokens.sign(left, Mark::Less)?;
    let second = sum(lang, tokens, left)?;
    Ok(less_of(lang.alloc, first, sign, second)?)
}

/// A comparison behind its first part.
#[tactic(auto, unfolding(lang_grammar::specs::Rules::compared))]
#[cycle(expr)]
fn compared(
    lang: &Lang<'_>,
    tokens: &mut Cursor<'_>,
    left: usize,
    first: Expr,
) -> Result<Expr, ParseError>
    ensures { Gives (spec.compared lang.now.step lang.now.names.now left (spec.sum lang.now.step lang.now.names.now left (spec.unary lang.now.step lang.now.names.now left)) first tokens.old) result tokens.new }
{
    match tokens.peek() {
        Some(Token::Sign(Mark::Equal)) => equal_behind(lang, tokens, left, first),
        Some(Token::Sign(Mark::Less)) => less_behind(lang, tokens, left, first),
        _ => Err(ParseError::Fault(tokens.refuse(left))),
    }
}

/// Unaries with `+` between two.
#[tactic(auto, unfolding(lang_grammar::specs::Rules::sum, lang_grammar::specs::Rules::chain))]
#[cycle(expr)]
fn sum(lang: &Lang<'_>, tokens: &mut Cursor<'_>, left: usize) -> Result<Expr, ParseError>
    ensures { Gives (spec.sum lang.now.step lang.now.names.now left (spec.unary lang.now.step lang.now.names.now left) tokens.old) result tokens.new }
{
    let first = unary(lang, tokens, left)?;
    if tokens.sees(Mark::Plus) {
        return sum_behind(lang, tokens, left, first);
    }
    Ok(first)
}

/// A sum behind its first part.
#[tactic(auto, unfolding(lang_grammar::specs::Rules::chain_behind, lang_grammar::specs::Rules::chain_from))]
#[cycle(expr)]
fn sum_behind(
    lang: &Lang<'_>,
    tokens: &mut Cursor<'_>,
    left: usize,
    first: Expr,
) -> Result<Expr, ParseError>
    ensures { Gives (spec.chain_behind left mark.Plus expr.Sum (spec.unary lang.now.step lang.now.names.now left) first tokens.old) result tokens.new }
{
    let mut parts = Seq::new(lang.alloc);
    let mut signs = Seq::new(lang.alloc);
    let sign = tokens.sign(left, Mark::Plus)?;
    let second = unary(lang, tokens, left)?;
    parts.push(first)?;
    parts.push(second)?;
    signs.push(sign)?;
    let turns = tokens.turns();
    for _turn in 0..turns {
        if !tokens.sees(Mark::Plus) {
            return Ok(Expr::Sum { parts, signs });
        }
        let sign = tokens.sign(left, Mark::Plus)?;
        parts.push(unary(lang, tokens, left)?)?;
        signs.push(sign)?;
    }
    Err(ParseError::Fault(tokens.refuse(left)))
}

#[tactic(auto, unfolding(lang_grammar::specs::Rules::unary, lang_grammar::specs::Rules::expr))]
#[cycle(expr)]
fn unary(lang: &Lang<'_>, tokens: &mut Cursor<'_>, left: usize) -> Result<Expr, ParseError>
    ensures { Gives (spec.unary lang.now.step lang.now.names.now left tokens.old) result tokens.new }
{
    if left == 0 {
        return postfix(lang, tokens, left);
    }
    match tokens.peek() {
        None => Err(ParseError::Fault(tokens.refuse(left))),
        Some(Token::Sign(Mark::Bang)) => {
            let at = tokens.sign(left, Mark::Bang)?;
            let inner = unary(lang, tokens, left - 1)?;
            Ok(Expr::Not {
                at,
                inner: Boxed::new(lang.alloc, inner)?,
            })
        }
        Some(Token::Sign(Mark::Len)) => {
            let at = tokens.sign(left, Mark::Len)?;
            let inner = unary(lang, tokens, left - 1)?;
            Ok(Expr::Len {
                at,
                inner: Boxed::new(lang.alloc, inner)?,
            })
        }
        _ => postfix(lang, tokens, left),
    }
}

#[tactic(auto, unfolding(lang_grammar::specs::Rules::postfix))]
#[cycle(expr)]
fn postfix(lang: &Lang<'_>, tokens: &mut Cursor<'_>, left: usize) -> Result<Expr, ParseError>
    ensures { Gives (spec.postfix lang.now.step lang.now.names.now left (spec.inner lang.now.step lang.now.names.now left) tokens.old) result tokens.new }
{
    let first = primary(lang, tokens, left)?;
    if tokens.sees(Mark::Dot) {
        let links = links(lang, tokens, left)?;
        return Ok(Expr::Fields {
            inner: Boxed::new(lang.alloc, first)?,
            links,
        });
    }
    Ok(first)
}

#[tactic(auto, unfolding(lang_grammar::specs::Rules::link))]
fn link(lang: &Lang<'_>, tokens: &mut Cursor<'_>, left: usize) -> Result<Link, ParseError>
    ensures { Gives (spec.link lang.now.step lang.now.names.now left tokens.old) result tokens.new }
{
    let dot = tokens.sign(left, Mark::Dot)?;
    let field = name(lang.alloc, tokens, left)?;
    Ok(Link { dot, field })
}

/// One field or more behind an expression.
#[tactic(auto, unfolding(lang_grammar::specs::Rules::links, lang_grammar::specs::Rules::many_from))]
fn links(lang: &Lang<'_>, tokens: &mut Cursor<'_>, left: usize) -> Result<Seq<Link>, ParseError>
    ensures { Gives (spec.links lang.now.step lang.now.names.now left tokens.old) result tokens.new }
{
    let mut found = Seq::new(lang.alloc);
    found.push(link(lang, tokens, left)?)?;
    let turns = tokens.turns();
    for _turn in 0..turns {
        if !tokens.sees(Mark::Dot) {
            return Ok(found);
        }
        found.push(link(lang, tokens, left)?)?;
    }
    Err(ParseError::Fault(tokens.refuse(left)))
}

#[tactic(auto, unfolding(lang_grammar::specs::Rules::primary, lang_grammar::specs::Rules::simple))]
#[cycle(expr)]
fn primary(lang: &Lang<'_>, tokens: &mut Cursor<'_>, left: usize) -> Result<Expr, ParseError>
    ensures { Gives (spec.primary lang.now.step lang.now.names.now left (spec.inner lang.now.step lang.now.names.now left) tokens.old) result tokens.new }
{
    match tokens.peek() {
        Some(Token::Sign(Mark::Open)) => paren(lang, tokens, left),
        Some(Token::Sign(Mark::OpenList)) => listed(lang, tokens, left),
        Some(Token::Sign(Mark::New)) => made(lang, tokens, left),
        _ => simple(lang, tokens, left),
    }
}

#[tactic(auto, unfolding(lang_grammar::specs::Rules::paren))]
#[cycle(expr)]
fn paren(lang: &Lang<'_>, tokens: &mut Cursor<'_>, left: usize) -> Result<Expr, ParseError>
    ensures { Gives (spec.paren lang.now.step lang.now.names.now left (spec.inner lang.now.step lang.now.names.now left) tokens.old) result tokens.new }
{
    if left == 0 {
        return Err(ParseError::Fault(tokens.refuse(left)));
    }
    let at = tokens.sign(left, Mark::Open)?;
    let inner = expr(lang, tokens, left - 1)?;
    tokens.sign(left - 1, Mark::Close)?;
    Ok(Expr::Paren {
        at,
        inner: Boxed::new(lang.alloc, inner)?,
    })
}

#[tactic(auto, unfolding(lang_grammar::specs::Rules::listed))]
#[cycle(expr)]
fn listed(lang: &Lang<'_>, tokens: &mut Cursor<'_>, left: usize) -> Result<Expr, ParseError>
    ensures { Gives (spec.listed lang.now.step lang.now.names.now left (spec.inner lang.now.step lang.now.names.now left) tokens.old) result tokens.new }
{
    if left == 0 {
        return Err(ParseError::Fault(tokens.refuse(left)));
    }
    let at = tokens.sign(left, Mark::OpenList)?;
    let parts = exprs(lang, tokens, left - 1, Mark::CloseList)?;
    Ok(Expr::ListOf { at, parts })
}

/// Expressions with a comma between two, and the closing sign.
#[tactic(auto, unfolding(lang_grammar::specs::Rules::listing))]
#[cycle(expr)]
pub(crate) fn exprs(
    lang: &Lang<'_>,
    tokens: &mut Cursor<'_>,
    left: usize,
    close: Mark,
) -> Result<Seq<Expr>, ParseError>
    ensures { Gives (spec.listing left close (spec.expr lang.now.step lang.now.names.now left) tokens.old) result tokens.new }
{
    if tokens.sees(close) {
        tokens.sign(left, close)?;
        return Ok(Seq::new(lang.alloc));
    }
    let first = expr(lang, tokens, left)?;
    let found = more_exprs(lang, tokens, left, first)?;
    tokens.sign(left, close)?;
    Ok(found)
}

#[tactic(auto, unfolding(lang_grammar::specs::Rules::many_from))]
#[cycle(expr)]
fn more_exprs(
    lang: &Lang<'_>,
    tokens: &mut Cursor<'_>,
    left: usize,
    first: Expr,
) -> Result<Seq<Expr>, ParseError>
    ensures { Gives (spec.more (is mark.Comma) left (spec.next_part left (spec.expr lang.now.step lang.now.names.now left)) (first ∷ []) tokens.old) result tokens.new }
{
    let mut found = Seq::new(lang.alloc);
    found.push(first)?;
    let turns = tokens.turns();
    for _turn in 0..turns {
        if !tokens.sees(Mark::Comma) {
            return Ok(found);
        }
        tokens.sign(left, Mark::Comma)?;
        found.push(expr(lang, tokens, left)?)?;
    }
    Err(ParseError::Fault(tokens.refuse(left)))
}

#[tactic(auto, unfolding(lang_grammar::specs::Rules::made))]
#[cycle(expr)]
fn made(lang: &Lang<'_>, tokens: &mut Cursor<'_>, left: usize) -> Result<Expr, ParseError>
    ensures { Gives (spec.made lang.now.step lang.now.names.now left (spec.inner lang.now.step lang.now.names.now left) tokens.old) result tokens.new }
{
    let at = tokens.sign(left, Mark::New)?;
    let word = name(lang.alloc, tokens, left)?;
    let fields = fields(lang, tokens, left)?;
    let bean = lang.names.bean_number(&word);
    Ok(Expr::New { at, bean, fields })
}

#[tactic(auto, unfolding(lang_grammar::specs::Rules::fields))]
#[cycle(expr)]
fn fields(
    lang: &Lang<'_>,
    tokens: &mut Cursor<'_>,
    left: usize,
) -> Result<Seq<(Text, Expr)>, ParseError>
    ensures { Gives (spec.fields lang.now.step lang.now.names.now left (spec.inner lang.now.step lang.now.names.now left) tokens.old) result tokens.new }
{
    if left == 0 {
        return Err(ParseError::Fault(tokens.refuse(left)));
    }
    tokens.sign(left, Mark::OpenBlock)?;
    field_list(lang, tokens, left - 1)
}

/// Fields with a comma between two, and the closing brace.
#[tactic(auto, unfolding(lang_grammar::specs::Rules::listing))]
#[cycle(expr)]
fn field_list(
    lang: &Lang<'_>,
    tokens: &mut Cursor<'_>,
    left: usize,
) -> Result<Seq<(Text, Expr)>, ParseError>
    ensures { Gives (spec.listing left mark.CloseBlock (spec.field lang.now.step lang.now.names.now left (spec.expr lang.now.step lang.now.names.now left)) tokens.old) result tokens.new }
{
    if tokens.sees(Mark::CloseBlock) {
        tokens.sign(left, Mark::CloseBlock)?;
        return Ok(Seq::new(lang.alloc));
    }
    let first = field(lang, tokens, left)?;
    let found = more_fields(lang, tokens, left, first)?;
    tokens.sign(left, Mark::CloseBlock)?;
    Ok(found)
}

#[tactic(auto, unfolding(lang_grammar::specs::Rules::many_from))]
#[cycle(expr)]
fn more_fields(
    lang: &Lang<'_>,
    tokens: &mut Cursor<'_>,
    left: usize,
    first: (Text, Expr),
) -> Result<Seq<(Text, Expr)>, ParseError>
    ensures { Gives (spec.more (is mark.Comma) left (spec.next_part left (spec.field lang.now.step lang.now.names.now left (spec.expr lang.now.step lang.now.names.now left))) (first ∷ []) tokens.old) result tokens.new }
{
    let mut found = Seq::new(lang.alloc);
    found.push(first)?;
    let turns = tokens.turns();
    for _turn in 0..turns {
        if !tokens.sees(Mark::Comma) {
            return Ok(found);
        }
        tokens.sign(left, Mark::Comma)?;
        found.push(field(lang, tokens, left)?)?;
    }
    Err(ParseError::Fault(tokens.refuse(left)))
}

#[tactic(auto, unfolding(lang_grammar::specs::Rules::field))]
#[cycle(expr)]
fn field(lang: &Lang<'_>, tokens: &mut Cursor<'_>, left: usize) -> Result<(Text, Expr), ParseError>
    ensures { Gives (spec.field lang.now.step lang.now.names.now left (spec.expr lang.now.step lang.now.names.now left) tokens.old) result tokens.new }
{
    let name = name(lang.alloc, tokens, left)?;
    tokens.sign(left, Mark::Colon)?;
    let value = expr(lang, tokens, left)?;
    Ok((name, value))
}
