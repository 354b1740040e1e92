// Proxies in values, and the sizes of recorded calls.

ghost use Rattle.std.specs.Prelude.{◌≡◌, IfOk};
ghost use Rattle.item_types.specs.Modified.{modified_len};
ghost use Rattle.recorder_proxy.specs.Sizes.{cells_of, text_of};

use item_types::{Memory, NodeId, Phase, Proxy, Same, Seq, Shared, SharedText, Text, Value};
use recorder_proxy::{Call, Recording, cells_of, first_runtime, proxies_of, text_of};
use std::alloc::Global;
use std::test::Fail;

fn proxy(step: u32, phase: Phase) -> Proxy {
    Proxy {
        step,
        call: 0,
        phase,
    }
}

/// `[@0.0.static, B{@1.0.runtime}, @2.0.runtime]`
fn sample(alloc: Global) -> Result<Value, Memory> {
    let mut inner = Seq::new(alloc);
    inner.push(Value::Returned(proxy(1, Phase::Runtime)))?;
    let mut parts = Seq::new(alloc);
    parts.push(Value::Returned(proxy(0, Phase::Static)))?;
    parts.push(Value::Bean(NodeId { step: 3, k: 0 }, 0, Shared::of(alloc, inner)?))?;
    parts.push(Value::Returned(proxy(2, Phase::Runtime)))?;
    Ok(Value::List(NodeId { step: 3, k: 1 }, Shared::of(alloc, parts)?))
}

/// The steps of the sample's proxies.
fn steps(alloc: Global) -> Result<Seq<u32>, Memory> {
    let value = sample(alloc)?;
    let found = proxies_of(alloc, &value)?;
    let mut steps = Seq::new(alloc);
    for proxy in found.as_slice() {
        steps.push(proxy.step)?;
    }
    Ok(steps)
}

#[test]
fn proxies_come_depth_first(rt: HostRuntime) -> Result<(), Fail> {
    let found = steps(rt.alloc())?;
    assert_eq!(rt; found.as_slice(), [0, 1, 2].as_slice());
    Ok(())
}

/// Whether the first runtime proxy of `null` and the sample is that of step 1.
fn first_is_of_step_1(alloc: Global) -> Result<bool, Memory> {
    let mut values = Seq::new(alloc);
    values.push(Value::Null)?;
    values.push(sample(alloc)?)?;
    match first_runtime(values.as_slice()) {
        Some(first) => Ok(first.same(proxy(1, Phase::Runtime))),
        None => Ok(false),
    }
}

#[test]
fn the_first_runtime_proxy_is_the_first_depth_first(rt: HostRuntime) -> Result<(), Fail> {
    assert!(rt; first_is_of_step_1(rt.alloc())?);
    Ok(())
}

/// The recording of one call with the text and `null` as its arguments.
fn recording(alloc: Global, text: Text) -> Result<Recording, Memory>
    ensures cells { IfOk result (λ r. cells_of r.calls ≡ 3) }
    ensures text { IfOk result (λ r. text_of r.calls ≡ modified_len text) }
{
    let mut args = Seq::new(alloc);
    args.push(Value::Str(SharedText::of(alloc, text)?))?;
    args.push(Value::Null)?;
    let mut calls = Seq::new(alloc);
    calls.push(Call {
        recorder: 0,
        method: 1,
        args,
        keeps: true,
    })?;
    Ok(Recording {
        step: 4,
        phase: Phase::Static,
        calls,
    })
}

/// Whether a copy of a recording with the text `aé` is the same, and has 3 cells and 3 bytes of
/// text.
fn copy_is_counted(alloc: Global) -> Result<bool, Memory> {
    let text = Text::of(alloc, "a\u{e9}")?;
    if text.modified_len() != 3 {
        return Ok(false);
    }
    let recording = recording(alloc, text)?;
    let copy = recording.try_copy(alloc)?;
    Ok(copy.same(&recording) && cells_of(&copy.calls) == 3 && text_of(&copy.calls) == 3)
}

#[test]
fn a_call_counts_one_and_its_arguments(rt: HostRuntime) -> Result<(), Fail> {
    assert!(rt; copy_is_counted(rt.alloc())?);
    Ok(())
}
