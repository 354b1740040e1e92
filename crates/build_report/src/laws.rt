ghost use Rattle.std.specs.Prelude.{◌≡◌, ℕ, List};
ghost use Rattle.item_types.specs.declared.step.StepDecl.{StepDecl};
ghost use Rattle.build_report.specs.PlanText.{IsPlanText};

use chain_builder::ascending_lists_are_equal;

/// A law: a plan has one text: the needed steps and their edges leave no choice. It does
/// nothing.
pub fn a_plan_has_one_text()
    ensures { (app : List ℕ) (steps : List StepDecl) (finals text other : List ℕ) → IsPlanText app steps finals text → IsPlanText app steps finals other → text ≡ other }
{
    ascending_lists_are_equal();
}
