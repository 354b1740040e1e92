ghost use Rattle.std.specs.Prelude.{List, ℕ, IsTrue};
ghost use Rattle.item_types.specs.Numbered.{IsNumbered};
ghost use Rattle.item_types.specs.declared.decl.Names.{Names};
ghost use Rattle.item_types.specs.declared.step.StepDecl.{StepDecl};
ghost use Rattle.project_fit.specs.Fits.{fits};

/// A law: what fits is numbered, so each item that a step or a final item names is declared, and 32
/// bits count them. It does nothing.
pub fn fitting_is_numbered()
    ensures { (names : Names) (steps : List StepDecl) (finals : List ℕ) → IsTrue (fits names steps finals) → IsNumbered steps names.items finals }
{}
