ghost use Rattle.std.specs.Prelude.{◌≡◌, IfOk, IsSome};
ghost use Rattle.std.specs.List.{All};
ghost use Rattle.item_types.specs.Bounds.{IsBounded};
ghost use Rattle.item_types.specs.Named.{key};
ghost use Rattle.value_order.specs.Found.{found, kind_of, number_of, HasKey, IsFound};
ghost use Rattle.value_order.specs.Sorted.{sorted_by, StandsByRank};

use item_types::{ItemKind, Memory, Names, Seq, Text, Value, copy_values};
use std::alloc::Global;

/// A copy of what a consumer finds of the item of that number, of which these values were put in
/// this order: all of them, those of an ordered item in order, and none of an empty item. Past the
/// last item it is none.
///
/// # Errors
/// `Memory` for want of memory.
pub fn found(
    alloc: Global,
    names: &Names,
    item: u32,
    values: &[Value],
) -> Result<Seq<Value>, Memory>
    ensures value { IfOk result (λ s. s ≡ found names.now (kind_of names.now item) values.now) }
    ensures places { IfOk result (λ s. IsFound names.now (kind_of names.now item) values.now s) }
    ensures bounded { All IsBounded values.now → IfOk result (λ s. All IsBounded s) }
    ensures keyed { All (HasKey names.now (kind_of names.now item)) values.now → IfOk result (λ s. All (HasKey names.now (kind_of names.now item)) s) }
{
    match names.items.as_slice().get(item as usize) {
        Some(decl) => found_as(alloc, names, &decl.kind, values),
        None => Ok(Seq::new(alloc)),
    }
}

fn found_as(
    alloc: Global,
    names: &Names,
    kind: &ItemKind,
    values: &[Value],
) -> Result<Seq<Value>, Memory>
    ensures value { IfOk result (λ s. s ≡ found names.now kind.now values.now) }
    ensures places { IfOk result (λ s. IsFound names.now kind.now values.now s) }
    ensures bounded { All IsBounded values.now → IfOk result (λ s. All IsBounded s) }
    ensures keyed { All (HasKey names.now kind.now) values.now → IfOk result (λ s. All (HasKey names.now kind.now) s) }
{
    match kind {
        ItemKind::Simple | ItemKind::Multi => copy_values(alloc, values),
        ItemKind::Ordered(field) => in_order(alloc, values, names, field),
        ItemKind::Empty => Ok(Seq::new(alloc)),
    }
}

/// Copies of the values by the whole numbers in that field, those of one number in the order that
/// they have. A value without such a number counts as 0.
///
/// # Errors
/// `Memory` for want of memory.
pub fn in_order(
    alloc: Global,
    values: &[Value],
    names: &Names,
    field: &Text,
) -> Result<Seq<Value>, Memory>
    ensures sorted { IfOk result (λ s. s ≡ sorted_by (number_of names.now field.now) values.now) }
    ensures ranks { IfOk result (λ s. StandsByRank (number_of names.now field.now) values.now s) }
    ensures bounded { All IsBounded values.now → IfOk result (λ s. All IsBounded s) }
    ensures keyed { All (λ v. IsSome (key names.now field.now v)) values.now → IfOk result (λ s. All (λ v. IsSome (key names.now field.now v)) s) }
{
    let mut copies = copy_values(alloc, values)?.into_vec();
    copies.sort_by_key(|value| number_of(value, names, field))?;
    Ok(Seq::from_vec(copies))
}

fn number_of(value: &Value, names: &Names, field: &Text) -> i64
    ensures { result ≡ number_of names.now field.now value.now }
{
    value.key(names, field).unwrap_or(0)
}

/// Sorting by a number puts each value after those of a lesser number and those of an equal
/// number that come before it.
pub fn rank_law(values: &[Value], names: &Names, field: &Text)
    ensures { StandsByRank (number_of names.now field.now) values.now (sorted_by (number_of names.now field.now) values.now) }
{
    let _ = values;
    let _ = names;
    let _ = field;
}
