ghost use Rattle.std.specs.Prelude.{◌≡◌, ◌⊎◌, ◌↔◌, ℕ, true, false, List, Ok, Err};
ghost use Rattle.item_types.specs.declared.decl.Names.{Names};
ghost use Rattle.item_types.specs.declared.step.StepDecl.{StepDecl};
ghost use Rattle.syntax_tree.specs.declared.tree.Body.{Body};
ghost use Rattle.syntax_tree.specs.declared.tree.Method.{Method};
ghost use Rattle.lang_grammar.specs.declared.fault.LangFault.{LangFault};
ghost use Rattle.syntax_tree.specs.Right.{IsRightBody, IsRightMethod};
ghost use Rattle.lang_names.specs.Names.{body_right, method_right};
ghost use Rattle.step_lang.specs.Judge.{answer, body_made, method_made};
ghost use Rattle.step_lang.specs.Language.{IsBodyOf, BodyFault, IsMethodOf, MethodFault};

/// Each text is one body of a step, or has one first fault, and never both.
pub fn one_body()
    ensures one_or_other { (names : Names) (decl : StepDecl) (text : List ℕ) → ((b : Body) × IsBodyOf names decl b text) ⊎ ((f : LangFault) × BodyFault names decl text f) }
    ensures never_both { (names : Names) (decl : StepDecl) (text : List ℕ) (b : Body) (f : LangFault) → IsBodyOf names decl b text → BodyFault names decl text f → ⊥ }
    ensures one_tree { (names : Names) (decl : StepDecl) (text : List ℕ) (b c : Body) → IsBodyOf names decl b text → IsBodyOf names decl c text → b ≡ c }
    ensures one_fault { (names : Names) (decl : StepDecl) (text : List ℕ) (f g : LangFault) → BodyFault names decl text f → BodyFault names decl text g → f ≡ g }
{}

/// Each text is one method of a recorder, or has one first fault, and never both.
pub fn one_method()
    ensures one_or_other { (names : Names) (recorder m : ℕ) (text : List ℕ) → ((x : Method) × IsMethodOf names recorder m x text) ⊎ ((f : LangFault) × MethodFault names recorder m text f) }
    ensures never_both { (names : Names) (recorder m : ℕ) (text : List ℕ) (x : Method) (f : LangFault) → IsMethodOf names recorder m x text → MethodFault names recorder m text f → ⊥ }
    ensures one_tree { (names : Names) (recorder m : ℕ) (text : List ℕ) (x y : Method) → IsMethodOf names recorder m x text → IsMethodOf names recorder m y text → x ≡ y }
    ensures one_fault { (names : Names) (recorder m : ℕ) (text : List ℕ) (f g : LangFault) → MethodFault names recorder m text f → MethodFault names recorder m text g → f ≡ g }
{}

/// The answer as a function of the text is a body or a method exactly where the text is that one,
/// and a fault exactly where it is the first of the text.
pub fn answers_are_sentences()
    ensures bodies { (names : Names) (decl : StepDecl) (text : List ℕ) (b : Body) → (answer body_made true names (body_right names decl) text ≡ Ok b) ↔ IsBodyOf names decl b text }
    ensures body_faults { (names : Names) (decl : StepDecl) (text : List ℕ) (f : LangFault) → (answer body_made true names (body_right names decl) text ≡ Err f) ↔ BodyFault names decl text f }
    ensures methods { (names : Names) (recorder m : ℕ) (text : List ℕ) (x : Method) → (answer method_made false names (method_right names recorder m) text ≡ Ok x) ↔ IsMethodOf names recorder m x text }
    ensures method_faults { (names : Names) (recorder m : ℕ) (text : List ℕ) (f : LangFault) → (answer method_made false names (method_right names recorder m) text ≡ Err f) ↔ MethodFault names recorder m text f }
{}

/// What is read is right: the forms of its kind alone, each number that of a declaration, each bean
/// with each of its fields once, each call with as many arguments as its method has parameters.
pub fn read_is_right()
    ensures bodies { (names : Names) (decl : StepDecl) (b : Body) (text : List ℕ) → IsBodyOf names decl b text → IsRightBody names decl b }
    ensures methods { (names : Names) (recorder m : ℕ) (x : Method) (text : List ℕ) → IsMethodOf names recorder m x text → IsRightMethod names recorder x }
{}
