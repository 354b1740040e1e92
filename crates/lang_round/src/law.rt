ghost use Rattle.std.specs.Prelude.{◌≡◌, ℕ, true, false, List, All};
ghost use Rattle.std.specs.Str.{chars, IsUtf8};
ghost use Rattle.item_types.specs.declared.decl.Names.{Names};
ghost use Rattle.item_types.specs.declared.step.StepDecl.{StepDecl};
ghost use Rattle.syntax_tree.specs.declared.tree.Stmt.{Stmt};
ghost use Rattle.lang_lexer.specs.declared.token.Token.{Token};
ghost use Rattle.lang_lexer.specs.Tokens.{tokens};
ghost use Rattle.lang_grammar.specs.Sentence.{IsBody};
ghost use Rattle.lang_grammar.specs.Text.{IsText};
ghost use Rattle.lang_names.specs.Checked.{right};
ghost use Rattle.lang_names.specs.Names.{body_right, method_right};
ghost use Rattle.lang_print.specs.Canonical.{canonical, text_of};
ghost use Rattle.lang_print.specs.Tokens.{body_tokens};
ghost use Rattle.lang_round.specs.Spelled.{IsSpelled};

use lang_lexer::longest_tokens;

/// The canonical text of tokens, each of which some text spells, has exactly these tokens; and
/// the tokens of a text are such.
pub fn written_tokens()
    ensures again { (ts : List Token) → All IsSpelled ts → tokens (chars (canonical ts)) ≡ (ts, true) }
    ensures utf8 { (ts : List Token) → All IsSpelled ts → IsUtf8 (canonical ts) }
    ensures spelled { (text : List ℕ) → IsUtf8 text → All IsSpelled (tokens (chars text)).0 }
{
    longest_tokens();
}

/// The tokens of a tree that was read, all of whose names are right, are those it was read from.
pub fn tree_tokens()
    ensures bodies { (names : Names) (decl : StepDecl) (n : ℕ) (c : List Stmt) (xs : List Token) → IsBody true names n c xs → body_right names decl c ≡ right → body_tokens names c ≡ xs }
    ensures methods { (names : Names) (recorder method n : ℕ) (c : List Stmt) (xs : List Token) → IsBody false names n c xs → method_right names recorder method c ≡ right → body_tokens names c ≡ xs }
{}

/// The canonical text of a body or a method that was read, all of whose names are right, reads
/// back to the same tree.
pub fn text_again()
    ensures bodies { (names : Names) (decl : StepDecl) (c : List Stmt) (text : List ℕ) → IsUtf8 text → IsText true names c text → body_right names decl c ≡ right → IsText true names c (text_of names c) }
    ensures methods { (names : Names) (recorder method : ℕ) (c : List Stmt) (text : List ℕ) → IsUtf8 text → IsText false names c text → method_right names recorder method c ≡ right → IsText false names c (text_of names c) }
{
    written_tokens();
    tree_tokens();
}
