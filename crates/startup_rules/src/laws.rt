ghost use Rattle.startup_rules.specs.Laws.{GraphsAreOne, MethodsKeepKinds, OperationsOnlyAdd, TurnsAreSpent};

/// A method, failed or not, leaves each object of the kind that it had and takes none away; it
/// leaves the context as it is; and lines and what is spent only grow.
pub const fn methods_keep_kinds()
    ensures { MethodsKeepKinds }
{}

/// An operation, failed or not, leaves each object of the kind that it had and takes none away; it
/// leaves the context as it is; and lines and what is spent only grow.
pub const fn operations_only_add()
    ensures { OperationsOnlyAdd }
{}

/// A turn that is given was below the bound of turns, and spends one.
pub const fn turns_are_spent()
    ensures { TurnsAreSpent }
{}

/// A world's objects are numbered in one way.
pub const fn a_world_has_one_graph()
    ensures { GraphsAreOne }
{}
