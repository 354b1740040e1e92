ghost use Rattle.std.specs.Prelude.{◌≡◌, ◌≢◌, ◌<◌, ◌^◌, List, length, IfOk};
ghost use Rattle.syntax_tree.specs.declared.tree.Stmt.{Stmt};
ghost use Rattle.lang_grammar.specs.declared.fault.LangFault.{LangFault};
ghost use Rattle.lang_grammar.specs.Text.{IsText, TextStuck, Told};

use crate::reading::Lang;
use crate::text::read_text;
use item_types::Seq;
use lang_grammar::LangFault;
use name_directory::Directory;
use std::alloc::Global;
use syntax_tree::Stmt;

/// The statements that a text is, as a step's body or as a recorder's method; a name that isn't
/// declared stands in them as the number 4,294,967,295.
///
/// # Errors
/// `Token`, `TooDeep` or `Syntax` at the token where the text is stuck, exactly where it is no
/// sentence; `Memory` for want of memory.
pub fn parse_text<'a>(
    alloc: Global,
    text: &str,
    names: &'a Directory<'a>,
    step: bool,
) -> Result<Seq<Stmt>, LangFault>
    requires { length text.now < 2 ^ 32 }
    // What is read is the whole text.
    ensures sentence { IfOk result (λ c. IsText step names.now c text.now) }
    // A sentence is read, unless memory runs out.
    ensures only { (c : List Stmt) → IsText step names.now c text.now → Told (Ok c) result }
    // What is refused is stuck there.
    ensures stuck { (f : LangFault) → result ≡ Err f → f ≢ LangFault.Memory → TextStuck step names.now text.now f }
    // What is stuck is refused there, unless memory runs out.
    ensures first { (f : LangFault) → TextStuck step names.now text.now f → Told (Err f) result }
{
    let lang = Lang { alloc, names, step };
    let answer = read_text(&lang, text);
    let Lang {
        alloc: _,
        names: _,
        step: _,
    } = lang;
    answer
}
