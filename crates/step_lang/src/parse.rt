ghost use Rattle.std.specs.Prelude.{◌≡◌, ◌≢◌, ◌<◌, ◌^◌, true, false, length, IfOk, OnErr};
ghost use Rattle.syntax_tree.specs.declared.tree.Body.{Body};
ghost use Rattle.syntax_tree.specs.declared.tree.Method.{Method};
ghost use Rattle.lang_grammar.specs.declared.fault.LangFault.{LangFault};
ghost use Rattle.lang_grammar.specs.Text.{Told};
ghost use Rattle.lang_names.specs.Names.{body_right, method_right};
ghost use Rattle.step_lang.specs.Judge.{answer, body_made, method_made};
ghost use Rattle.step_lang.specs.Language.{IsBodyOf, BodyFault, IsMethodOf, MethodFault};

use crate::judge::{body_of, method_of};
use item_types::{Memory, Names, StepDecl};
use lang_grammar::LangFault;
use lang_names::{check_body, check_method};
use lang_reader::parse_text;
use name_directory::{Directory, Register};
use std::alloc::Global;
use syntax_tree::{Body, Method};

fn read_body<'a>(
    alloc: Global,
    text: &str,
    names: &'a Directory<'a>,
    decl: &StepDecl,
) -> Result<Body, LangFault>
    requires { length text.now < 2 ^ 32 }
    ensures { Told (answer body_made true names.now (body_right names.now decl.now) text.now) result }
{
    match parse_text(alloc, text, names, true) {
        Ok(stmts) => {
            let checked = check_body(alloc, names.names(), decl, stmts.as_slice());
            body_of(stmts, checked)
        }
        Err(fault) => Err(fault),
    }
}

fn read_method<'a>(
    alloc: Global,
    text: &str,
    names: &'a Directory<'a>,
    recorder: u32,
    method: u32,
) -> Result<Method, LangFault>
    requires { length text.now < 2 ^ 32 }
    ensures { Told (answer method_made false names.now (method_right names.now recorder method) text.now) result }
{
    match parse_text(alloc, text, names, false) {
        Ok(stmts) => {
            let checked = check_method(alloc, names.names(), recorder, method, stmts.as_slice());
            method_of(stmts, checked)
        }
        Err(fault) => Err(fault),
    }
}

/// The body of a step that a text is, as [`parse_body`] reads it, where what is declared is looked
/// up in a directory that several texts share.
///
/// # Errors
/// As [`parse_body`]'s.
pub fn parse_body_in<'a>(
    alloc: Global,
    text: &str,
    names: &'a Directory<'a>,
    decl: &StepDecl,
) -> Result<Body, LangFault>
    requires { length text.now < 2 ^ 32 }
    // What is read is the whole text, and its names are right.
    ensures sentence { IfOk result (λ b. IsBodyOf names.now decl.now b text.now) }
    // Such a text is read, unless memory runs out.
    ensures only { (b : Body) → IsBodyOf names.now decl.now b text.now → Told (Ok b) result }
    // What is refused is the first fault of the text.
    ensures fault { (f : LangFault) → result ≡ Err f → f ≢ LangFault.Memory → BodyFault names.now decl.now text.now f }
    // The first fault of a text is refused, unless memory runs out.
    ensures first { (f : LangFault) → BodyFault names.now decl.now text.now f → Told (Err f) result }
    // The answer as a function of the text, unless memory runs out.
    ensures told { Told (answer body_made true names.now (body_right names.now decl.now) text.now) result }
{
    read_body(alloc, text, names, decl)
}

/// The body of a step that a text is.
///
/// # Errors
/// Where the text is stuck: `Token` at a place where no token is, `TooDeep` at a token that would
/// open a form inside 64 open ones, and `Syntax` at any other token that may not stand there. In
/// a text that isn't stuck: `Unknown` or `Undeclared` at the first name, in the order of the
/// tokens, that nothing has or that may not be used there. `Memory` for want of memory.
pub fn parse_body(
    alloc: Global,
    text: &str,
    names: &Names,
    decl: &StepDecl,
) -> Result<Body, LangFault>
    requires { length text.now < 2 ^ 32 }
    // What is read is the whole text, and its names are right.
    ensures sentence { IfOk result (λ b. IsBodyOf names.now decl.now b text.now) }
    // Such a text is read, unless memory runs out.
    ensures only { (b : Body) → IsBodyOf names.now decl.now b text.now → Told (Ok b) result }
    // What is refused is the first fault of the text.
    ensures fault { (f : LangFault) → result ≡ Err f → f ≢ LangFault.Memory → BodyFault names.now decl.now text.now f }
    // The first fault of a text is refused, unless memory runs out.
    ensures first { (f : LangFault) → BodyFault names.now decl.now text.now f → Told (Err f) result }
    // The answer as a function of the text, unless memory runs out.
    ensures told { Told (answer body_made true names.now (body_right names.now decl.now) text.now) result }
{
    let register = match Register::new(alloc, names) {
        Ok(register) => register,
        Err(Memory) => return Err(LangFault::Memory),
    };
    let directory = Directory::new(&*names, &register);
    parse_body_in(alloc, text, &directory, decl)
}

/// The method of a recorder that a text is, as [`parse_method`] reads it, where what is declared is
/// looked up in a directory that several texts share.
///
/// # Errors
/// As [`parse_body`]'s, for methods.
pub fn parse_method_in<'a>(
    alloc: Global,
    text: &str,
    names: &'a Directory<'a>,
    recorder: u32,
    method: u32,
) -> Result<Method, LangFault>
    requires { length text.now < 2 ^ 32 }
    // What is read is the whole text, and its names are right.
    ensures sentence { IfOk result (λ m. IsMethodOf names.now recorder method m text.now) }
    // Such a text is read, unless memory runs out.
    ensures only { (m : Method) → IsMethodOf names.now recorder method m text.now → Told (Ok m) result }
    // What is refused is the first fault of the text.
    ensures fault { (f : LangFault) → result ≡ Err f → f ≢ LangFault.Memory → MethodFault names.now recorder method text.now f }
    // The first fault of a text is refused, unless memory runs out.
    ensures first { (f : LangFault) → MethodFault names.now recorder method text.now f → Told (Err f) result }
    // The answer as a function of the text, unless memory runs out.
    ensures told { Told (answer method_made false names.now (method_right names.now recorder method) text.now) result }
{
    read_method(alloc, text, names, recorder, method)
}

/// The method of a recorder that a text is.
///
/// # Errors
/// As [`parse_body`]'s, for methods.
pub fn parse_method(
    alloc: Global,
    text: &str,
    names: &Names,
    recorder: u32,
    method: u32,
) -> Result<Method, LangFault>
    requires { length text.now < 2 ^ 32 }
    // What is read is the whole text, and its names are right.
    ensures sentence { IfOk result (λ m. IsMethodOf names.now recorder method m text.now) }
    // Such a text is read, unless memory runs out.
    ensures only { (m : Method) → IsMethodOf names.now recorder method m text.now → Told (Ok m) result }
    // What is refused is the first fault of the text.
    ensures fault { (f : LangFault) → result ≡ Err f → f ≢ LangFault.Memory → MethodFault names.now recorder method text.now f }
    // The first fault of a text is refused, unless memory runs out.
    ensures first { (f : LangFault) → MethodFault names.now recorder method text.now f → Told (Err f) result }
    // The answer as a function of the text, unless memory runs out.
    ensures told { Told (answer method_made false names.now (method_right names.now recorder method) text.now) result }
{
    let register = match Register::new(alloc, names) {
        Ok(register) => register,
        Err(Memory) => return Err(LangFault::Memory),
    };
    let directory = Directory::new(&*names, &register);
    parse_method_in(alloc, text, &directory, recorder, method)
}
