ghost use Rattle.std.specs.Prelude.{◌≡◌, ◌∷◌, ◌++◌, ◌⊎◌, ℕ, Bool, List, length};
ghost use Rattle.lang_lexer.specs.declared.token.Token.{Token};
ghost use Rattle.item_types.specs.declared.decl.Names.{Names};
ghost use Rattle.syntax_tree.specs.declared.tree.Expr.{Expr};
ghost use Rattle.syntax_tree.specs.declared.tree.Stmt.{Stmt};
ghost use Rattle.lang_grammar.specs.declared.fault.LangFault.{LangFault};
ghost use Rattle.lang_grammar.specs.declared.fault.Fault.{Fault};
ghost use Rattle.lang_grammar.specs.Place.{Place, first_of};
ghost use Rattle.lang_grammar.specs.Table.{body, expr};
ghost use Rattle.lang_grammar.specs.Sentence.{IsBody, StuckBody, Between, token_of};
ghost use Rattle.lang_grammar.specs.Text.{IsText, TextStuck};

/// Each text is a sentence with one tree, or stuck at one token for one cause, and never both.
pub fn one_reading()
    ensures one_or_other { (step : Bool) (names : Names) (text : List ℕ) → ((c : List Stmt) × IsText step names c text) ⊎ ((f : LangFault) × TextStuck step names text f) }
    ensures never_both { (step : Bool) (names : Names) (text : List ℕ) (c : List Stmt) (f : LangFault) → IsText step names c text → TextStuck step names text f → ⊥ }
    ensures one_tree { (step : Bool) (names : Names) (text : List ℕ) (c d : List Stmt) → IsText step names c text → IsText step names d text → c ≡ d }
    ensures one_fault { (step : Bool) (names : Names) (text : List ℕ) (f g : LangFault) → TextStuck step names text f → TextStuck step names text g → f ≡ g }
{}

/// What is read from one place up to another is a sentence of the tokens between both.
pub fn read_parts()
    ensures bodies { (step : Bool) (names : Names) (n : ℕ) (p q : Place) (c : List Stmt) → (body step names n).Reads p c q → Between (body step names n) p c q }
    ensures expressions { (step : Bool) (names : Names) (n : ℕ) (p q : Place) (x : Expr) → (expr step names n).Reads p x q → Between (expr step names n) p x q }
{}

/// Tokens are stuck at one of them for what stands before it and for that token itself: other
/// tokens behind it leave the fault as it is, and no sentence begins with these tokens.
pub fn first_token()
    // What was read, and the rest, which begins with the token where they are stuck.
    ensures within { (step : Bool) (names : Names) (n : ℕ) (xs : List Token) (f : Fault) → StuckBody step names n xs f → (us : List Token) × (vs : List Token) × (xs ≡ us ++ vs) × (token_of f ≡ length us) }
    // What comes behind that token doesn't count.
    ensures alone { (step : Bool) (names : Names) (n : ℕ) (us vs ws : List Token) (f : Fault) → StuckBody step names n (us ++ vs) f → token_of f ≡ length us → first_of ws ≡ first_of vs → StuckBody step names n (us ++ ws) f }
    // No sentence has these tokens up to the one where they are stuck.
    ensures none { (step : Bool) (names : Names) (n : ℕ) (us vs ws : List Token) (t : Token) (f : Fault) (c : List Stmt) → StuckBody step names n (us ++ t ∷ vs) f → token_of f ≡ length us → IsBody step names n c (us ++ t ∷ ws) → ⊥ }
{}
