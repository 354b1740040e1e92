ghost use Rattle.machine_rules.specs.Laws.{BudgetIsSpent, EnoughIsEnough};
ghost use Rattle.machine_rules.specs.Spelled.{SpelledStartupIsSame};

/// Startup of code is startup of the instructions that it spells, but for the places of faults.
pub const fn spelled_startup_is_same()
    ensures { SpelledStartupIsSame }
{}

/// A startup that ends leaves no more of its budget than it had: both first methods run on one
/// budget.
pub const fn budget_is_spent()
    ensures { BudgetIsSpent }
{}

/// A startup that doesn't run out of its budget goes the same way with any greater one.
pub const fn enough_is_enough()
    ensures { EnoughIsEnough }
{}
