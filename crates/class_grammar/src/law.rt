ghost use Rattle.std.specs.Prelude.{◌≡◌, ◌⊎◌, ℕ, List};
ghost use Rattle.class_pool.specs.declared.class.Class.{Class};
ghost use Rattle.class_pool.specs.declared.fault.ClassFault.{ClassFault};
ghost use Rattle.class_grammar.specs.Grammar as spec;
ghost use Rattle.class_grammar.specs.Layout.{IsBytes};

/// Bytes spell exactly one class, or are stuck at exactly one place with one fault, and never both.
pub const fn one_reading()
    ensures one_or_other { (b : List ℕ) → IsBytes b → ((c : Class) × spec.Spells b c) ⊎ ((f : ClassFault) × spec.IsStuck b f) }
    ensures never_both { (b : List ℕ) (c : Class) (f : ClassFault) → IsBytes b → spec.Spells b c → spec.IsStuck b f → ⊥ }
    ensures one_class { (b : List ℕ) (c d : Class) → spec.Spells b c → spec.Spells b d → c ≡ d }
    ensures one_place { (b : List ℕ) (f g : ClassFault) → IsBytes b → spec.IsStuck b f → spec.IsStuck b g → f ≡ g }
{}
