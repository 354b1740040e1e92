ghost use Rattle.std.specs.Prelude.{◌≡◌, map};
ghost use Rattle.syntax_tree.specs.Known as spec;
ghost use Rattle.std.specs.Prelude.{slice_get};

use item_types::{Consume, ItemKind, Names, Produce, Text};
use name_index::Index;
use syntax_tree::Expr;

pub(crate) fn contains(words: &[Text], word: &Text) -> bool
    ensures { result ≡ spec.contains words.now word.now }
{
    for other in words {
        if other.as_str() == word.as_str() {
            return true;
        }
    }
    false
}

/// Whether a variable of this name is in scope.
#[tactic(auto, using(crate::proofs::Scopes::has_contains))]
pub(crate) fn in_scope(scope: &Index<'_>, word: &Text) -> bool
    ensures { result ≡ spec.contains scope.now word.now }
{
    scope.place(word.as_str()).is_some()
}

/// Whether a field of this name is among these.
pub(crate) fn names_field(fields: &[(Text, Expr)], word: &Text) -> bool
    ensures { result ≡ spec.contains (map (λ f. f.0) fields.now) word.now }
{
    for field in fields {
        if field.0.as_str() == word.as_str() {
            return true;
        }
    }
    false
}

/// Whether each of the words is the name of a field.
pub(crate) fn all_in(words: &[Text], fields: &[(Text, Expr)]) -> bool
    ensures { result ≡ spec.all_in words.now (map (λ f. f.0) fields.now) }
{
    for word in words {
        if !names_field(fields, word) {
            return false;
        }
    }
    true
}

pub(crate) fn consumed(consumes: &[Consume], item: u32) -> bool
    ensures { result ≡ spec.consumed consumes.now item }
{
    for entry in consumes {
        if entry.item == item {
            return true;
        }
    }
    false
}

pub(crate) fn produced(produces: &[Produce], item: u32) -> bool
    ensures { result ≡ spec.produced produces.now item }
{
    for entry in produces {
        if entry.item == item {
            return true;
        }
    }
    false
}

pub(crate) fn is_simple(names: &Names, item: u32) -> bool
    ensures { result ≡ spec.kind_is spec.is_simple (slice_get names.now.items item) }
{
    match names.items.as_slice().get(item as usize) {
        Some(decl) => matches!(decl.kind, ItemKind::Simple),
        None => false,
    }
}

pub(crate) fn is_several(names: &Names, item: u32) -> bool
    ensures { result ≡ spec.kind_is spec.is_several (slice_get names.now.items item) }
{
    match names.items.as_slice().get(item as usize) {
        Some(decl) => matches!(decl.kind, ItemKind::Multi | ItemKind::Ordered(_)),
        None => false,
    }
}

pub(crate) fn carries_value(names: &Names, item: u32) -> bool
    ensures { result ≡ spec.kind_is spec.carries_value (slice_get names.now.items item) }
{
    match names.items.as_slice().get(item as usize) {
        Some(decl) => !matches!(decl.kind, ItemKind::Empty),
        None => false,
    }
}
