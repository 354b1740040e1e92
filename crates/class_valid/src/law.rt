ghost use Rattle.std.specs.Prelude.{◌≡◌, ◌↔◌, ◌<◌, List, ℕ, length};
ghost use Rattle.class_pool.specs.declared.class.Class.{Class};
ghost use Rattle.class_pool.specs.declared.entry.Entry.{Entry};
ghost use Rattle.class_pool.specs.Growth.{ReferRight, GapsRight};
ghost use Rattle.class_grammar.specs.Bytes.{class_bytes};
ghost use Rattle.class_grammar.specs.Grammar.{Spells};
ghost use Rattle.class_grammar.specs.Valid.{IsValid, IsPool, EachFits};

/// Exactly one list of bytes spells a valid class.
pub const fn one_list()
    ensures { (c : Class) (xs ys : List ℕ) → Spells xs c → Spells ys c → xs ≡ ys }
{}

/// A class is valid exactly where some bytes spell it, and its own bytes do.
pub const fn valid_exactly()
    ensures exactly { (c : Class) → IsValid c ↔ ((bytes : List ℕ) × Spells bytes c) }
    ensures bytes { (c : Class) → IsValid c → Spells (class_bytes c) c }
{}

/// A pool that was entered is that of a valid class where its texts and numbers are in their
/// ranges.
pub const fn entered_pool_is_valid()
    ensures { (es : List Entry) → length es < 65535 → GapsRight es → EachFits es → ReferRight es es → IsPool es }
{}
