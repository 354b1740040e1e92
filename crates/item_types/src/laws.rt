ghost use Rattle.std.specs.Prelude.{◌≤◌, ◌↔◌, IsTrue, ℕ, List, length, slice_get};
ghost use Rattle.std.specs.List.{All};
ghost use Rattle.item_types.specs.Fitting.{ValueFits};
ghost use Rattle.item_types.specs.Modified.{modified_len};
ghost use Rattle.item_types.specs.Named.{has_fields};
ghost use Rattle.item_types.specs.declared.decl.Names.{Names};
ghost use Rattle.item_types.specs.declared.value.NodeId.{NodeId};
ghost use Rattle.item_types.specs.declared.value.Value.{Value as Held};
ghost use Rattle.item_types.specs.declared.value.Value.TheVariants as value;

/// A text fits where it has at most 65,535 bytes in modified UTF-8.
pub const fn a_short_text_fits()
    ensures { (names : Names) (text : List ℕ) → ValueFits names (value.Str text) ↔ (modified_len text ≤ 65535) }
{}

/// A list fits where each of its elements does.
pub const fn a_list_of_what_fits_fits()
    ensures { (names : Names) (id : NodeId) (parts : List Held) → ValueFits names (value.List id parts) ↔ All (ValueFits names) parts }
{}

/// A bean fits where it is declared, has a value for each of its fields, and each of these fits.
pub const fn a_whole_bean_fits()
    ensures { (names : Names) (id : NodeId) (bean : ℕ) (parts : List Held) → ValueFits names (value.Bean id bean parts) ↔ (IsTrue (has_fields (slice_get names.beans bean) (length parts)) × All (ValueFits names) parts) }
{}
