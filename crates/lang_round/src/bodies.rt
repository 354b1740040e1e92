ghost use Rattle.std.specs.Prelude.{◌≡◌, ℕ, List};
ghost use Rattle.std.specs.Str.{IsUtf8};
ghost use Rattle.item_types.specs.declared.decl.Names.{Names};
ghost use Rattle.item_types.specs.declared.step.StepDecl.{StepDecl};
ghost use Rattle.syntax_tree.specs.declared.tree.Body.{Body};
ghost use Rattle.syntax_tree.specs.declared.tree.Method.{Method};
ghost use Rattle.lang_print.specs.Canonical.{text_of};
ghost use Rattle.step_lang.specs.Language.{IsBodyOf, IsMethodOf};

use crate::law::text_again;
use step_lang::{one_body, one_method};

/// The canonical text of a step's body is this body again, and different bodies have different
/// canonical texts.
pub fn body_again()
    ensures reads_back { (names : Names) (decl : StepDecl) (b : Body) (text : List ℕ) → IsUtf8 text → IsBodyOf names decl b text → IsBodyOf names decl b (text_of names b.stmts) }
    ensures told_apart { (names : Names) (decl : StepDecl) (b c : Body) (s t : List ℕ) → IsUtf8 s → IsUtf8 t → IsBodyOf names decl b s → IsBodyOf names decl c t → text_of names b.stmts ≡ text_of names c.stmts → b ≡ c }
{
    text_again();
    one_body();
}

/// The canonical text of a recorder's method is this method again, and different methods have
/// different canonical texts.
pub fn method_again()
    ensures reads_back { (names : Names) (recorder method : ℕ) (m : Method) (text : List ℕ) → IsUtf8 text → IsMethodOf names recorder method m text → IsMethodOf names recorder method m (text_of names m.stmts) }
    ensures told_apart { (names : Names) (recorder method : ℕ) (m n : Method) (s t : List ℕ) → IsUtf8 s → IsUtf8 t → IsMethodOf names recorder method m s → IsMethodOf names recorder method n t → text_of names m.stmts ≡ text_of names n.stmts → m ≡ n }
{
    text_again();
    one_method();
}
