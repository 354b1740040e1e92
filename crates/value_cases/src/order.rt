use item_types::{BeanDecl, ItemDecl, ItemKind, Memory, Names, NodeId, Seq, Shared, Text, Value};
use std::alloc::Global;
use value_order::{found, in_order};

/// An ordered item, a multi one and an empty one, and a bean of two fields.
fn sample_names(alloc: Global) -> Result<Names, Memory> {
    let mut items = Seq::new(alloc);
    items.push(ItemDecl {
        name: Text::of(alloc, "O")?,
        kind: ItemKind::Ordered(Text::of(alloc, "k")?),
    })?;
    items.push(ItemDecl {
        name: Text::of(alloc, "M")?,
        kind: ItemKind::Multi,
    })?;
    items.push(ItemDecl {
        name: Text::of(alloc, "Done")?,
        kind: ItemKind::Empty,
    })?;
    let mut fields = Seq::new(alloc);
    fields.push(Text::of(alloc, "k")?)?;
    fields.push(Text::of(alloc, "n")?)?;
    let mut beans = Seq::new(alloc);
    beans.push(BeanDecl {
        name: Text::of(alloc, "B")?,
        fields,
    })?;
    Ok(Names {
        items,
        beans,
        recorders: Seq::new(alloc),
    })
}

fn bean(alloc: Global, k: i64, n: i64) -> Result<Value, Memory> {
    let mut parts = Seq::new(alloc);
    parts.push(Value::Long(k))?;
    parts.push(Value::Long(n))?;
    Ok(Value::Bean(NodeId { step: 0, k: 0 }, 0, Shared::of(alloc, parts)?))
}

/// Four beans, with the least and the greatest key among them and one key twice.
fn sample_values(alloc: Global) -> Result<Seq<Value>, Memory> {
    let mut values = Seq::new(alloc);
    values.push(bean(alloc, 9223372036854775807, 1)?)?;
    values.push(bean(alloc, -9223372036854775808, 2)?)?;
    values.push(bean(alloc, 0, 3)?)?;
    values.push(bean(alloc, 0, 4)?)?;
    Ok(values)
}

/// The numbers in the second fields.
fn seconds(alloc: Global, names: &Names, values: &[Value]) -> Result<Seq<i64>, Memory> {
    let field = Text::of(alloc, "n")?;
    let mut numbers = Seq::new(alloc);
    for value in values {
        numbers.push(value.key(names, &field).unwrap_or(0))?;
    }
    Ok(numbers)
}

#[test]
fn equal_keys_stay_in_the_order_of_production(rt: HostRuntime) -> Result<(), Memory> {
    let names = sample_names(rt.alloc())?;
    let values = sample_values(rt.alloc())?;
    let sorted = found(rt.alloc(), &names, 0, values.as_slice())?;
    let numbers = seconds(rt.alloc(), &names, sorted.as_slice())?;
    assert_eq!(rt; numbers.as_slice(), [2, 3, 4, 1].as_slice());
    Ok(())
}

#[test]
fn other_items_keep_the_order_of_production(rt: HostRuntime) -> Result<(), Memory> {
    let names = sample_names(rt.alloc())?;
    let values = sample_values(rt.alloc())?;
    let multi = found(rt.alloc(), &names, 1, values.as_slice())?;
    let numbers = seconds(rt.alloc(), &names, multi.as_slice())?;
    assert_eq!(rt; numbers.as_slice(), [1, 2, 3, 4].as_slice());
    let empty = found(rt.alloc(), &names, 2, values.as_slice())?;
    assert_eq!(rt; empty.as_slice().len(), 0);
    let field = Text::of(rt.alloc(), "n")?;
    let by_second = in_order(rt.alloc(), values.as_slice(), &names, &field)?;
    let numbers = seconds(rt.alloc(), &names, by_second.as_slice())?;
    assert_eq!(rt; numbers.as_slice(), [1, 2, 3, 4].as_slice());
    Ok(())
}
