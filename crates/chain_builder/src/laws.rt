ghost use Rattle.std.specs.Prelude.{◌≡◌, ℕ, ◌+◌, ◌-◌, ◌<◌, ◌↔◌, List, Contains, length, slice_index};
ghost use Rattle.std.specs.List.Sorted.{IsStrictlyIncreasing};
ghost use Rattle.item_types.specs.declared.decl.ItemDecl.{ItemDecl};
ghost use Rattle.item_types.specs.declared.step.StepDecl.{StepDecl};
ghost use Rattle.item_types.specs.Numbered.{IsNumbered};
ghost use Rattle.chain_builder.specs.declared.fault.ChainFault.{ChainFault};
ghost use Rattle.chain_builder.specs.Edge.{HasEdge};
ghost use Rattle.chain_builder.specs.ChainFaults.{IsCycle};
ghost use Rattle.chain_builder.specs.Accepted.{IsAccepted};
ghost use Rattle.chain_builder.specs.Fault.{IsFault};
ghost use Rattle.chain_builder.specs.FaultText.{IsNamed};

/// A law: a chain with a fault is not accepted. It does nothing.
pub fn no_fault_is_accepted()
    ensures { (steps : List StepDecl) (items : List ItemDecl) (finals : List ℕ) (fault : ChainFault) → (fault ≡ ChainFault.Memory → ⊥) → IsFault steps items finals fault → IsAccepted steps items finals → ⊥ }
{}

/// A law: each step of a cycle has an edge to the next, and the last to the first. It does nothing.
pub fn cycle_goes_round()
    ensures some { (steps : List StepDecl) (finals cycle : List ℕ) → IsCycle steps finals cycle → 0 < length cycle }
    ensures next { (steps : List StepDecl) (finals cycle : List ℕ) → IsCycle steps finals cycle → (k : ℕ) → k + 1 < length cycle → HasEdge steps finals (slice_index cycle k) (slice_index cycle (k + 1)) }
    ensures back { (steps : List StepDecl) (finals cycle : List ℕ) → IsCycle steps finals cycle → HasEdge steps finals (slice_index cycle (length cycle - 1)) (slice_index cycle 0) }
{}

/// A law: lists in strict order with the same numbers are equal, so the plan's clauses say which
/// list it lends. It does nothing.
pub fn ascending_lists_are_equal()
    ensures { (xs ys : List ℕ) → IsStrictlyIncreasing xs → IsStrictlyIncreasing ys → ((n : ℕ) → Contains xs n ↔ Contains ys n) → xs ≡ ys }
{}

/// A law: a fault of a chain, but for want of memory, names steps and items of the chain, so it has
/// a text. It does nothing.
pub fn fault_is_named()
    ensures { (steps : List StepDecl) (items : List ItemDecl) (finals : List ℕ) (fault : ChainFault) → IsNumbered steps items finals → (fault ≡ ChainFault.Memory → ⊥) → IsFault steps items finals fault → IsNamed steps items fault }
{}

/// A law: a chain has at most one fault, want of memory aside, so the clause on a refusal says which
/// fault is answered. It does nothing.
pub fn fault_is_the_only_one()
    ensures { (steps : List StepDecl) (items : List ItemDecl) (finals : List ℕ) (fault other : ChainFault) → (fault ≡ ChainFault.Memory → ⊥) → (other ≡ ChainFault.Memory → ⊥) → IsFault steps items finals fault → IsFault steps items finals other → fault ≡ other }
{}
