use item_types::{
    BeanDecl, ItemDecl, ItemKind, Memory, MethodSig, Names, Phase, Produce, RecorderDecl, Seq,
    StepDecl, Text,
};
use std::alloc::Global;

fn one<T: Drop>(alloc: Global, item: T) -> Result<Seq<T>, Memory> {
    let mut items = Seq::new(alloc);
    items.push(item)?;
    Ok(items)
}

fn item(alloc: Global) -> Result<ItemDecl, Memory> {
    let name = Text::of(alloc, "M")?;
    Ok(ItemDecl {
        name,
        kind: ItemKind::Multi,
    })
}

fn bean(alloc: Global) -> Result<BeanDecl, Memory> {
    let name = Text::of(alloc, "B")?;
    let fields = one(alloc, Text::of(alloc, "f")?)?;
    Ok(BeanDecl { name, fields })
}

fn recorder(alloc: Global) -> Result<RecorderDecl, Memory> {
    let name = Text::of(alloc, "R")?;
    let method = Text::of(alloc, "m")?;
    let methods = one(
        alloc,
        MethodSig {
            name: method,
            params: Seq::new(alloc),
        },
    )?;
    Ok(RecorderDecl {
        name,
        fields: Seq::new(alloc),
        statics: Seq::new(alloc),
        methods,
    })
}

/// What a body may name: the multi item `M`, the bean `B` with the field `f`, and the recorder `R`
/// with the method `m()`.
pub fn names(alloc: Global) -> Result<Names, Memory> {
    let items = one(alloc, item(alloc)?)?;
    let beans = one(alloc, bean(alloc)?)?;
    let recorders = one(alloc, recorder(alloc)?)?;
    Ok(Names {
        items,
        beans,
        recorders,
    })
}

/// A static step that produces `M`.
pub fn declaration(alloc: Global) -> Result<StepDecl, Memory> {
    let produce = Produce {
        item: 0,
        weak: false,
        overridable: false,
    };
    let ext = Text::of(alloc, "bench")?;
    let name = Text::of(alloc, "body")?;
    let produces = one(alloc, produce)?;
    Ok(StepDecl {
        ext,
        name,
        consumes: Seq::new(alloc),
        produces,
        phase: Some(Phase::Static),
        active: true,
    })
}
