ghost use Rattle.lang_grammar.specs.Place.{Gives};
ghost use Rattle.lang_grammar.specs.Rules as spec;

use crate::cursor::Cursor;
use crate::expr::{expr, exprs};
use crate::reading::{Lang, name};
use item_types::{Seq, Text};
use lang_grammar::ParseError;
use lang_lexer::{Mark, Token};
use syntax_tree::{Expr, Invoke, Stmt};

/// A call's arguments, in brackets.
#[tactic(auto, unfolding(lang_grammar::specs::Rules::arguments))]
fn arguments(lang: &Lang<'_>, tokens: &mut Cursor<'_>, left: usize) -> Result<Seq<Expr>, ParseError>
    ensures { Gives (spec.arguments lang.now.step lang.now.names.now left tokens.old) result tokens.new }
{
    if left == 0 {
        return Err(ParseError::Fault(tokens.refuse(left)));
    }
    tokens.sign(left, Mark::Open)?;
    exprs(lang, tokens, left - 1, Mark::Close)
}

#[tactic(auto, unfolding(lang_grammar::specs::Rules::invoke))]
fn invoke(lang: &Lang<'_>, tokens: &mut Cursor<'_>, left: usize) -> Result<Invoke, ParseError>
    ensures { Gives (spec.invoke lang.now.step lang.now.names.now left tokens.old) result tokens.new }
{
    let at = tokens.sign(left, Mark::Call)?;
    let owner = name(lang.alloc, tokens, left)?;
    tokens.sign(left, Mark::Dot)?;
    let word = name(lang.alloc, tokens, left)?;
    let args = arguments(lang, tokens, left)?;
    let recorder = lang.names.recorder_number(&owner);
    let method = lang.names.method_number(&owner, &word);
    Ok(Invoke {
        at,
        recorder,
        method,
        args,
    })
}

#[tactic(auto, unfolding(lang_grammar::specs::Rules::let_call))]
fn let_call(
    lang: &Lang<'_>,
    tokens: &mut Cursor<'_>,
    left: usize,
    at: u32,
    name: Text,
) -> Result<Stmt, ParseError>
    ensures { Gives (spec.let_call lang.now.step lang.now.names.now left at name tokens.old) result tokens.new }
{
    let call = invoke(lang, tokens, left)?;
    tokens.sign(left, Mark::Semi)?;
    Ok(Stmt::LetCall { at, name, call })
}

#[tactic(auto, unfolding(lang_grammar::specs::Rules::let_value))]
fn let_value(
    lang: &Lang<'_>,
    tokens: &mut Cursor<'_>,
    left: usize,
    at: u32,
    name: Text,
) -> Result<Stmt, ParseError>
    ensures { Gives (spec.let_value lang.now.step lang.now.names.now left at name tokens.old) result tokens.new }
{
    let value = expr(lang, tokens, left)?;
    tokens.sign(left, Mark::Semi)?;
    Ok(Stmt::Let { at, name, value })
}

/// What is behind `let n =`.
#[tactic(auto, unfolding(lang_grammar::specs::Rules::let_behind))]
fn let_behind(
    lang: &Lang<'_>,
    tokens: &mut Cursor<'_>,
    left: usize,
    at: u32,
    name: Text,
) -> Result<Stmt, ParseError>
    ensures { Gives (spec.let_behind lang.now.step lang.now.names.now left at name tokens.old) result tokens.new }
{
    if lang.step && tokens.sees(Mark::Call) {
        return let_call(lang, tokens, left, at, name);
    }
    let_value(lang, tokens, left, at, name)
}

#[tactic(auto, unfolding(lang_grammar::specs::Rules::let_form))]
fn let_form(lang: &Lang<'_>, tokens: &mut Cursor<'_>, left: usize) -> Result<Stmt, ParseError>
    ensures { Gives (spec.let_form lang.now.step lang.now.names.now left tokens.old) result tokens.new }
{
    let at = tokens.sign(left, Mark::Let)?;
    let name = name(lang.alloc, tokens, left)?;
    tokens.sign(left, Mark::Assign)?;
    let_behind(lang, tokens, left, at, name)
}

#[tactic(auto, unfolding(lang_grammar::specs::Rules::call_form))]
fn call_form(lang: &Lang<'_>, tokens: &mut Cursor<'_>, left: usize) -> Result<Stmt, ParseError>
    ensures { Gives (spec.call_form lang.now.step lang.now.names.now left tokens.old) result tokens.new }
{
    let call = invoke(lang, tokens, left)?;
    tokens.sign(left, Mark::Semi)?;
    Ok(Stmt::CallOf { call })
}

#[tactic(auto, unfolding(lang_grammar::specs::Rules::argument))]
fn argument(lang: &Lang<'_>, tokens: &mut Cursor<'_>, left: usize) -> Result<Expr, ParseError>
    ensures { Gives (spec.argument lang.now.step lang.now.names.now left tokens.old) result tokens.new }
{
    if left == 0 {
        return Err(ParseError::Fault(tokens.refuse(left)));
    }
    tokens.sign(left, Mark::Open)?;
    let value = expr(lang, tokens, left - 1)?;
    tokens.sign(left - 1, Mark::Close)?;
    Ok(value)
}

#[tactic(auto, unfolding(lang_grammar::specs::Rules::produce_form))]
fn produce_form(lang: &Lang<'_>, tokens: &mut Cursor<'_>, left: usize) -> Result<Stmt, ParseError>
    ensures { Gives (spec.produce_form lang.now.step lang.now.names.now left tokens.old) result tokens.new }
{
    let at = tokens.sign(left, Mark::Produce)?;
    let word = name(lang.alloc, tokens, left)?;
    let value = argument(lang, tokens, left)?;
    tokens.sign(left, Mark::Semi)?;
    let item = lang.names.item_number(&word);
    Ok(Stmt::Produce { at, item, value })
}

#[tactic(auto, unfolding(lang_grammar::specs::Rules::fail_form))]
fn fail_form(lang: &Lang<'_>, tokens: &mut Cursor<'_>, left: usize) -> Result<Stmt, ParseError>
    ensures { Gives (spec.fail_form lang.now.step lang.now.names.now left tokens.old) result tokens.new }
{
    let at = tokens.sign(left, Mark::Fail)?;
    let value = expr(lang, tokens, left)?;
    tokens.sign(left, Mark::Semi)?;
    Ok(Stmt::FailWith { at, value })
}

#[tactic(auto, unfolding(lang_grammar::specs::Rules::print_form))]
fn print_form(lang: &Lang<'_>, tokens: &mut Cursor<'_>, left: usize) -> Result<Stmt, ParseError>
    ensures { Gives (spec.print_form lang.now.step lang.now.names.now left tokens.old) result tokens.new }
{
    let at = tokens.sign(left, Mark::Print)?;
    let value = expr(lang, tokens, left)?;
    tokens.sign(left, Mark::Semi)?;
    Ok(Stmt::Print { at, value })
}

#[tactic(auto, unfolding(lang_grammar::specs::Rules::return_form))]
fn return_form(lang: &Lang<'_>, tokens: &mut Cursor<'_>, left: usize) -> Result<Stmt, ParseError>
    ensures { Gives (spec.return_form lang.now.step lang.now.names.now left tokens.old) result tokens.new }
{
    let at = tokens.sign(left, Mark::Return)?;
    let value = expr(lang, tokens, left)?;
    tokens.sign(left, Mark::Semi)?;
    Ok(Stmt::Return { at, value })
}

#[tactic(auto, unfolding(lang_grammar::specs::Rules::pair))]
fn pair(lang: &Lang<'_>, tokens: &mut Cursor<'_>, left: usize) -> Result<(Expr, Expr), ParseError>
    ensures { Gives (spec.pair lang.now.step lang.now.names.now left tokens.old) result tokens.new }
{
    if left == 0 {
        return Err(ParseError::Fault(tokens.refuse(left)));
    }
    tokens.sign(left, Mark::Open)?;
    let list = expr(lang, tokens, left - 1)?;
    tokens.sign(left - 1, Mark::Comma)?;
    let value = expr(lang, tokens, left - 1)?;
    tokens.sign(left - 1, Mark::Close)?;
    Ok((list, value))
}

#[tactic(auto, unfolding(lang_grammar::specs::Rules::add_form))]
fn add_form(lang: &Lang<'_>, tokens: &mut Cursor<'_>, left: usize) -> Result<Stmt, ParseError>
    ensures { Gives (spec.add_form lang.now.step lang.now.names.now left tokens.old) result tokens.new }
{
    let at = tokens.sign(left, Mark::Add)?;
    let (list, value) = pair(lang, tokens, left)?;
    tokens.sign(left, Mark::Semi)?;
    Ok(Stmt::Add { at, list, value })
}

/// `= e;`
#[tactic(auto, unfolding(lang_grammar::specs::Rules::assigned))]
fn assigned(lang: &Lang<'_>, tokens: &mut Cursor<'_>, left: usize) -> Result<Expr, ParseError>
    ensures { Gives (spec.assigned lang.now.step lang.now.names.now left tokens.old) result tokens.new }
{
    tokens.sign(left, Mark::Assign)?;
    let value = expr(lang, tokens, left)?;
    tokens.sign(left, Mark::Semi)?;
    Ok(value)
}

#[tactic(auto, unfolding(lang_grammar::specs::Rules::set_static))]
fn set_static(lang: &Lang<'_>, tokens: &mut Cursor<'_>, left: usize) -> Result<Stmt, ParseError>
    ensures { Gives (spec.set_static lang.now.step lang.now.names.now left tokens.old) result tokens.new }
{
    let at = tokens.sign(left, Mark::Static)?;
    tokens.sign(left, Mark::Dot)?;
    let field = name(lang.alloc, tokens, left)?;
    let value = assigned(lang, tokens, left)?;
    Ok(Stmt::SetStatic { at, field, value })
}

#[tactic(auto, unfolding(lang_grammar::specs::Rules::set_self))]
fn set_self(lang: &Lang<'_>, tokens: &mut Cursor<'_>, left: usize) -> Result<Stmt, ParseError>
    ensures { Gives (spec.set_self lang.now.step lang.now.names.now left tokens.old) result tokens.new }
{
    let at = tokens.sign(left, Mark::Me)?;
    let dot = tokens.sign(left, Mark::Dot)?;
    let field = name(lang.alloc, tokens, left)?;
    let value = assigned(lang, tokens, left)?;
    Ok(Stmt::SetSelf {
        at,
        dot,
        field,
        value,
    })
}

#[tactic(auto, unfolding(lang_grammar::specs::Rules::set_field))]
fn set_field(lang: &Lang<'_>, tokens: &mut Cursor<'_>, left: usize) -> Result<Stmt, ParseError>
    ensures { Gives (spec.set_field lang.now.step lang.now.names.now left tokens.old) result tokens.new }
{
    let at = tokens.at();
    let owner = name(lang.alloc, tokens, left)?;
    let dot = tokens.sign(left, Mark::Dot)?;
    let field = name(lang.alloc, tokens, left)?;
    let value = assigned(lang, tokens, left)?;
    Ok(Stmt::SetField {
        at,
        dot,
        name: owner,
        field,
        value,
    })
}

/// A statement without a block.
#[tactic(auto, unfolding(lang_grammar::specs::Rules::plain))]
pub(crate) fn plain(
    lang: &Lang<'_>,
    tokens: &mut Cursor<'_>,
    left: usize,
) -> Result<Stmt, ParseError>
    ensures { Gives (spec.plain lang.now.step lang.now.names.now left tokens.old) result tokens.new }
{
    match tokens.peek() {
        Some(Token::Sign(Mark::Let)) => let_form(lang, tokens, left),
        Some(Token::Sign(Mark::Fail)) => fail_form(lang, tokens, left),
        Some(Token::Sign(Mark::Call)) if lang.step => call_form(lang, tokens, left),
        Some(Token::Sign(Mark::Produce)) if lang.step => produce_form(lang, tokens, left),
        Some(Token::Sign(Mark::Print)) if !lang.step => print_form(lang, tokens, left),
        Some(Token::Sign(Mark::Return)) if !lang.step => return_form(lang, tokens, left),
        Some(Token::Sign(Mark::Add)) if !lang.step => add_form(lang, tokens, left),
        Some(Token::Sign(Mark::Static)) if !lang.step => set_static(lang, tokens, left),
        Some(Token::Sign(Mark::Me)) if !lang.step => set_self(lang, tokens, left),
        Some(Token::Name(_)) if !lang.step => set_field(lang, tokens, left),
        _ => Err(ParseError::Fault(tokens.refuse(left))),
    }
}
