ghost use Rattle.std.specs.Prelude.{◌≡◌, ◌≤◌, List, [], ℕ, length, Some};
ghost use Rattle.item_types.specs.declared.decl.Names.{Names};
ghost use Rattle.recorder_proxy.specs.Sizes.{cells_of};
ghost use Rattle.recorder_proxy.specs.declared.call.Recording.{Recording};
ghost use Rattle.class_pool.specs.declared.entry.Entry.{Entry};
ghost use Rattle.class_pool.specs.Growth.{ReferRight, Grows};
ghost use Rattle.value_literals.specs.Bounds.{NamesAreFew};
ghost use Rattle.value_literals.specs.Emitted.{Parts, code_of, part, part_code};
ghost use Rattle.value_literals.specs.Members.{AreMembers, ops_size};
ghost use Rattle.value_literals.specs.Sizes.{AreShort};
ghost use Rattle.recording_units.specs.Units.{calls_units};
ghost use Rattle.value_literals.specs.Universe.{universe};

/// The class of a recording fills the pool, which never is full.
pub const fn filled_law()
    ensures { (names : Names) (class : List ℕ) (r : Recording) (es : List Entry) → NamesAreFew names → cells_of r.calls ≤ 8192 → ReferRight es es → length es ≤ 1000 → (p : Parts) × (fs : List Entry) × (code_of names r class es ≡ Some (p, fs)) × Grows 3 (universe names class (calls_units r.step 0 r.calls [])) es fs × AreMembers names class (calls_units r.step 0 r.calls []) p fs }
{}

/// A part's code has at most 13,801 bytes.
pub const fn part_law()
    ensures { (names : Names) (class : List ℕ) (r : Recording) (j : ℕ) → AreShort r.calls → ops_size (part_code names class (part (calls_units r.step 0 r.calls []).1 j)) ≤ 13801 }
{}
