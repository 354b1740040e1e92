ghost use Rattle.std.specs.Prelude.{◌≡◌, ◌↔◌, ℕ, List, IfOk, IsTrue, take};
ghost use Rattle.item_types.specs.Numbered.{IsNumbered};
ghost use Rattle.std.specs.List.{AllZip};
ghost use Rattle.syntax_tree.specs.Right.{IsRightBody, AreRightMethods};
ghost use Rattle.lang_lexer.specs.Kinds.{IsToken};
ghost use Rattle.lang_lexer.specs.declared.token.Token.TheVariants.{Name};
ghost use Rattle.ext_draft.specs.Names.{is_name};
ghost use Rattle.project_fit.specs.Fits.{fits};
ghost use Rattle.ext_parser.specs.RightTexts.{IsReadBody, AreReadMethods};
ghost use Rattle.ext_parser.specs.ProjectOfTheBytes.{project};

use ext_draft::{draft_of_cut_bytes, drafts_keep_limits};
use project_fit::fitting_is_numbered;
use step_lang::{answers_are_sentences, read_is_right};

/// A law: a reader may stop after 1,048,577 bytes, since the project of a file, or its fault, is
/// that of these. It does nothing.
pub fn project_of_cut_bytes()
    ensures { (bytes : List ℕ) → project (take 1048577 bytes) ≡ project bytes }
{
    draft_of_cut_bytes();
}

/// A law: each item that a step or `finals` of a project names is declared, and 32 bits count them.
/// It does nothing.
pub fn project_is_numbered()
    ensures { (bytes : List ℕ) → IfOk (project bytes) (λ p. IsNumbered p.steps p.names.items p.finals) }
{
    project_fits();
    fitting_is_numbered();
}

/// A law: a project's names are right and unique, its numbers are in range, and it keeps every
/// limit. It does nothing.
pub fn project_fits()
    ensures { (bytes : List ℕ) → IfOk (project bytes) (λ p. IsTrue (fits p.names p.steps p.finals)) }
{
    drafts_keep_limits();
}

/// A law: each body and each method of a project is the tree of a sentence whose names are right,
/// and so it is right: the forms of its kind alone, numbers of declarations, beans with each field
/// once, calls with their arguments. There is a body for each step, a list of methods for each
/// recorder and a method for each that it declares. It does nothing.
pub fn texts_are_right()
    ensures bodies { (bytes : List ℕ) → IfOk (project bytes) (λ p. AllZip (IsReadBody p.names) p.steps p.bodies) }
    ensures right_bodies { (bytes : List ℕ) → IfOk (project bytes) (λ p. AllZip (IsRightBody p.names) p.steps p.bodies) }
    ensures methods { (bytes : List ℕ) → IfOk (project bytes) (λ p. AreReadMethods p.names p.methods) }
    ensures right_methods { (bytes : List ℕ) → IfOk (project bytes) (λ p. AreRightMethods p.names p.methods) }
{
    answers_are_sentences();
    read_is_right();
}

/// A law: a text is a name of a project file exactly where it is a name of the language of bodies.
/// It does nothing.
pub fn names_are_tokens()
    ensures { (text : List ℕ) → IsTrue (is_name text) ↔ IsToken (Name text) text }
{}
