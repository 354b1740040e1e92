ghost use Rattle.std.specs.Prelude.{◌≡◌, IfOk, slice_get};
ghost use Rattle.syntax_tree.specs.Known.{method_of};
ghost use Rattle.lang_names.specs.Names as spec;
ghost use Rattle.lang_names.specs.Stmts.{Rights};

use crate::setting::Setting;
use crate::stmts::check_block;
use crate::wrong::NameFault;
use item_types::{Memory, MethodSig, Names, StepDecl};
use name_index::{Index, names_of};
use std::alloc::Global;
use syntax_tree::Stmt;

/// Whether the names of a step's body are all right: none is in scope where it begins.
///
/// # Errors
/// `Wrong` with the first, in the order of the tokens, that is unknown or may not be used there;
/// `Memory` for want of memory.
pub fn check_body(
    alloc: Global,
    names: &Names,
    decl: &StepDecl,
    stmts: &[Stmt],
) -> Result<(), NameFault>
    ensures { Rights (spec.body_right names.now decl.now stmts.now) result }
{
    let setting = Setting::of_step(names, decl);
    let mut scope = Index::new(alloc);
    check_block(&setting, &mut scope, stmts)
}

/// The parameters of a method, which are in scope where it begins.
#[tactic(auto, using(crate::proofs::Scopes::own_names))]
fn params_of<'a>(alloc: Global, sig: &'a MethodSig) -> Result<Index<'a>, Memory>
    ensures { IfOk result (λ names. names ≡ sig.now.params) }
{
    names_of(alloc, sig.params.as_slice())
}

/// The names in scope where a method begins: none where there is no such method.
fn scope_of<'a>(
    alloc: Global,
    names: &'a Names,
    recorder: u32,
    method: u32,
) -> Result<Index<'a>, Memory>
    ensures { IfOk result (λ scope. scope ≡ spec.names_of_params (method_of (slice_get names.now.recorders recorder) method)) }
{
    match names.recorders.as_slice().get(recorder as usize) {
        Some(decl) => match decl.methods.as_slice().get(method as usize) {
            Some(sig) => params_of(alloc, sig),
            None => Ok(Index::new(alloc)),
        },
        None => Ok(Index::new(alloc)),
    }
}

/// Whether the names of a recorder's method are all right: its parameters are in scope where it
/// begins.
///
/// # Errors
/// `Wrong` with the first, in the order of the tokens, that is unknown or may not be used there;
/// `Memory` for want of memory.
pub fn check_method(
    alloc: Global,
    names: &Names,
    recorder: u32,
    method: u32,
    stmts: &[Stmt],
) -> Result<(), NameFault>
    ensures { Rights (spec.method_right names.now recorder method stmts.now) result }
{
    let setting = Setting::of_recorder(names, recorder);
    let mut scope = scope_of(alloc, names, recorder, method)?;
    check_block(&setting, &mut scope, stmts)
}
