ghost use Rattle.std.specs.Prelude.{◌<◌, length, IfOk};
ghost use Rattle.item_types.specs.declared.value.Value.{Value};
ghost use Rattle.value_order.specs.Found.{kind_of, HasKey};

use item_store::Store;
use item_types::{ItemDecl, ItemKind, Memory, Names, Seq, Text, Value};
use std::alloc::Global;

/// One multi item.
fn sample_names(alloc: Global) -> Result<Names, Memory>
    ensures items { IfOk result (λ names. 0 < length names.items) }
    ensures first { IfOk result (λ names. (v : Value) → HasKey names (kind_of names 0) v) }
{
    let mut items = Seq::new(alloc);
    items.push(ItemDecl {
        name: Text::of(alloc, "M")?,
        kind: ItemKind::Multi,
    })?;
    Ok(Names {
        items,
        beans: Seq::new(alloc),
        recorders: Seq::new(alloc),
    })
}

#[test]
fn hands_out_what_was_put(rt: HostRuntime) -> Result<(), Memory> {
    let names = sample_names(rt.alloc())?;
    let mut store = Store::new(rt.alloc(), &names)?;
    assert_eq!(rt; store.found(rt.alloc(), 0)?.as_slice().len(), 0);
    store.reserve(0, 1)?;
    store.put(0, Value::Long(7));
    let found = store.found(rt.alloc(), 0)?;
    let values = found.as_slice();
    assert_eq!(rt; values.len(), 1);
    assert!(rt; values[0].equals(&Value::Long(7)));
    Ok(())
}
