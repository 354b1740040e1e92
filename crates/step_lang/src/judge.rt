ghost use Rattle.std.specs.Prelude.{◌≡◌};
ghost use Rattle.step_lang.specs.Judge as spec;
ghost use Rattle.step_lang.specs.Judge.{Judges, body_made, method_made};

use item_types::Seq;
use lang_grammar::LangFault;
use lang_names::{NameFault, Wrong};
use syntax_tree::{Body, Method, Stmt};

/// The fault that is told for wrong names.
fn told(fault: NameFault) -> LangFault
    ensures { result ≡ spec.told fault }
{
    match fault {
        NameFault::Memory => LangFault::Memory,
        NameFault::Wrong(Wrong::Unknown { at }) => LangFault::Unknown { at },
        NameFault::Wrong(Wrong::Undeclared { at }) => LangFault::Undeclared { at },
    }
}

/// The body of these statements, where the test of their names was right.
pub(crate) fn body_of(stmts: Seq<Stmt>, checked: Result<(), NameFault>) -> Result<Body, LangFault>
    ensures { Judges body_made stmts checked result }
{
    match checked {
        Ok(()) => Ok(Body { stmts }),
        Err(fault) => Err(told(fault)),
    }
}

/// The method of these statements, where the test of their names was right.
pub(crate) fn method_of(
    stmts: Seq<Stmt>,
    checked: Result<(), NameFault>,
) -> Result<Method, LangFault>
    ensures { Judges method_made stmts checked result }
{
    match checked {
        Ok(()) => Ok(Method { stmts }),
        Err(fault) => Err(told(fault)),
    }
}
