ghost use Rattle.std.specs.Prelude.{◌≡◌, ◌++◌, string_bytes, IfOk, OnOk};
ghost use Rattle.item_types.specs.Printed.{proxy_text};
ghost use Rattle.build_history.specs.ReasonText.{item_text, reason_text};

use item_types::{Memory, Names, Phase, Proxy, push_quoted};
use std::alloc::Global;
use step_eval::Reason;

/// Why a step failed, in words.
///
/// # Errors
/// `Memory` for want of memory.
pub fn reason_text(alloc: Global, reason: &Reason, names: &Names) -> Result<String, Memory>
    ensures { IfOk result (λ s. string_bytes s ≡ reason_text names.now reason.now) }
{
    let mut out = String::new(alloc);
    push_reason(reason, names, &mut out)?;
    Ok(out)
}

/// Appends why a step failed, in words.
///
/// # Errors
/// `Memory` for want of memory.
pub fn push_reason(reason: &Reason, names: &Names, out: &mut String) -> Result<(), Memory>
    ensures { OnOk result (string_bytes out.new ≡ string_bytes out.old ++ reason_text names.now reason.now) }
{
    match reason {
        Reason::Said(text) => push_quoted(text.as_str(), out)?,
        Reason::Kind { at } => write!(out, "kind at {at}")?,
        Reason::ProxyUsed { at } => write!(out, "proxy used at {at}")?,
        Reason::Twice(item) => {
            out.push_str("item ")?;
            push_item(*item, names, out)?;
            out.push_str(" twice")?;
        }
        Reason::NoKey(item) => {
            out.push_str("item ")?;
            push_item(*item, names, out)?;
            out.push_str(" without key")?;
        }
        Reason::RuntimeInStatic(proxy) => {
            out.push_str("runtime proxy ")?;
            push_proxy(*proxy, out)?;
            out.push_str(" in a static step")?;
        }
        Reason::TooDeep { at } => write!(out, "value too deep at {at}")?,
        Reason::TooManyTaken(item) => {
            out.push_str("too much taken of ")?;
            push_item(*item, names, out)?;
        }
        Reason::TooManyTurns => out.push_str("too many turns")?,
        Reason::TooManyCells => out.push_str("too many cells")?,
        Reason::TooMuchText => out.push_str("too much text")?,
        Reason::TextTooLong => out.push_str("text too long")?,
        Reason::TooManyPut => out.push_str("too much put")?,
        Reason::TooManyRecorded => out.push_str("too many recorded")?,
    }
    Ok(())
}

/// Appends the item's name.
pub(crate) fn push_item(item: u32, names: &Names, out: &mut String) -> Result<(), Memory>
    ensures { OnOk result (string_bytes out.new ≡ string_bytes out.old ++ item_text names.now item) }
{
    match names.items.as_slice().get(item as usize) {
        Some(decl) => out.push_str(decl.name.as_str())?,
        None => {}
    }
    Ok(())
}

/// Appends the proxy's text.
pub(crate) fn push_proxy(proxy: Proxy, out: &mut String) -> Result<(), Memory>
    ensures { OnOk result (string_bytes out.new ≡ string_bytes out.old ++ proxy_text proxy) }
{
    let step = proxy.step;
    let call = proxy.call;
    match proxy.phase {
        Phase::Static => write!(out, "@{step}.{call}.static")?,
        Phase::Runtime => write!(out, "@{step}.{call}.runtime")?,
    }
    Ok(())
}
