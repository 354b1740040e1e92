ghost use Rattle.std.specs.Prelude.{◌≡◌, ◌≤◌, ◌↔◌, ◌+◌, ◌++◌, List, ℕ, Some, true, length};
ghost use Rattle.item_types.specs.Modified.{modified_len};
ghost use Rattle.class_pool.specs.declared.entry.Entry.{Entry};
ghost use Rattle.class_pool.specs.declared.shown.Shown.{Shown};
ghost use Rattle.class_pool.specs.declared.tag.Tag.{Tag};
ghost use Rattle.class_pool.specs.Enter.{enter};
ghost use Rattle.class_pool.specs.Entries.{bad};
ghost use Rattle.class_pool.specs.Growth.{
  ReferRight,
  GapsRight,
  AreShort,
  IsShort,
  Covered,
  Puts,
  entries_for,
};
ghost use Rattle.class_pool.specs.Modified.{Spells, modified};
ghost use Rattle.class_pool.specs.Showing.{Holds, resolved, shows};
ghost use Rattle.class_pool.specs.Tags.{tag_of, byte_of};
ghost use Rattle.class_pool.specs.Units.{text_in};

/// Bytes are the modified UTF-8 of at most one text, and a text has exactly one such list of bytes
/// (JVMS 4.4.7), as many as `modified_len` says; and the texts that are decoded are those.
pub const fn one_text()
    ensures text { (bytes t u : List ℕ) → Spells bytes t → Spells bytes u → t ≡ u }
    ensures bytes { (xs ys t : List ℕ) → Spells xs t → Spells ys t → xs ≡ ys }
    ensures length { (t : List ℕ) → length (modified t) ≡ modified_len t }
    ensures decoded { (bytes t : List ℕ) → (text_in bytes ≡ Some t) ↔ Spells bytes t }
{}

/// What some index of a pool holds isn't entered again: entering it changes nothing, and gives an
/// index that holds it, no greater than that one.
pub const fn entered_once()
    ensures { (what : Shown) (es : List Entry) (i : ℕ) → Holds es i what → (j : ℕ) × (enter what es ≡ Some (j, es)) × Holds es j what × (j ≤ i) }
{}

/// An entry shows exactly what it resolves to.
pub const fn entry_resolves()
    ensures { (es : List Entry) (e : Entry) (what : Shown) → (resolved es e ≡ Some what) ↔ (shows es what e ≡ true) }
{}

/// No entry refers wrongly exactly where each refers to entries of the right kinds.
pub const fn references_are_right()
    ensures { (es : List Entry) → ReferRight es es ↔ (bad es ≡ 0) }
{}

/// What entering into a pool of right references keeps: the earlier entries, right references, the
/// gaps behind longs and doubles, and short texts; and it adds at most one entry for a text or an
/// int, two for a long, a class or a string, three for a name with its descriptor and six for a
/// field or a method.
pub const fn entering_keeps()
    ensures holds { (what : Shown) (es fs : List Entry) (i : ℕ) → ReferRight es es → enter what es ≡ Some (i, fs) → Holds fs i what }
    ensures stays { (what : Shown) (es fs : List Entry) (i : ℕ) → ReferRight es es → enter what es ≡ Some (i, fs) → (more : List Entry) × (fs ≡ es ++ more) }
    ensures few { (what : Shown) (es fs : List Entry) (i : ℕ) → ReferRight es es → enter what es ≡ Some (i, fs) → length fs ≤ length es + entries_for what }
    ensures references { (what : Shown) (es fs : List Entry) (i : ℕ) → ReferRight es es → enter what es ≡ Some (i, fs) → ReferRight fs fs }
    ensures gaps { (what : Shown) (es fs : List Entry) (i : ℕ) → ReferRight es es → GapsRight es → enter what es ≡ Some (i, fs) → GapsRight fs }
    ensures texts { (what : Shown) (es fs : List Entry) (i : ℕ) → ReferRight es es → AreShort es → IsShort what → enter what es ≡ Some (i, fs) → AreShort fs }
{}

/// Where all that is to be entered is listed, parts included, the pool refuses only what doesn't
/// fit; and what is there and what is left to enter never grow together, whatever sizes they have.
pub const fn entering_fits()
    ensures { (us : List Shown) (what : Shown) (es : List Entry) → Covered us what → ReferRight es es → Puts 3 us what es (enter what es) }
{}

/// A tag is the tag of its byte, and of no other.
pub const fn tags_read_back()
    ensures read { (t : Tag) → tag_of (byte_of t) ≡ Some t }
    ensures only { (b : ℕ) (t : Tag) → tag_of b ≡ Some t → byte_of t ≡ b }
{}
