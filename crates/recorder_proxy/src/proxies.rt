ghost use Rattle.std.specs.Prelude.{◌≡◌, ◌++◌, IfOk, OnOk, map};
ghost use Rattle.std.specs.List.{find};
ghost use Rattle.recorder_proxy.specs.Proxies.{proxies, is_runtime, first_runtime};

use item_types::{Memory, Phase, Proxy, Seq, Value};
use std::alloc::Global;

/// The proxies in the value, depth first.
///
/// # Errors
/// `Memory` for want of memory.
pub fn proxies_of(alloc: Global, value: &Value) -> Result<Seq<Proxy>, Memory>
    ensures { IfOk result (λ s. s ≡ proxies value.now) }
{
    let mut found = Seq::new(alloc);
    push_proxies(value, &mut found)?;
    Ok(found)
}

fn push_proxies(value: &Value, found: &mut Seq<Proxy>) -> Result<(), Memory>
    ensures { OnOk result (found.new ≡ found.old ++ proxies value.now) }
{
    match value {
        Value::List(_, parts) | Value::Bean(_, _, parts) => {
            for part in parts.as_slice() {
                push_proxies(part, found)?;
            }
            Ok(())
        }
        Value::Returned(proxy) => found.push(*proxy),
        _ => Ok(()),
    }
}

/// The first proxy of a runtime call in the values, depth first. It takes no memory.
#[cycle(first_runtime)]
pub fn first_runtime(values: &[Value]) -> Option<Proxy>
    ensures { result ≡ first_runtime values.now }
{
    for value in values {
        if let Some(proxy) = first_runtime_in(value) {
            return Some(proxy);
        }
    }
    None
}

#[cycle(first_runtime)]
fn first_runtime_in(value: &Value) -> Option<Proxy>
    ensures { result ≡ find (λ p. is_runtime p.phase) (proxies value.now) }
{
    match value {
        Value::List(_, parts) | Value::Bean(_, _, parts) => first_runtime(parts.as_slice()),
        Value::Returned(proxy) => match proxy.phase {
            Phase::Static => None,
            Phase::Runtime => Some(*proxy),
        },
        _ => None,
    }
}
