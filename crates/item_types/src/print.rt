ghost use Rattle.std.specs.Prelude.{◌≡◌, ◌++◌, [], map, codes, string_bytes, OnOk};
ghost use Rattle.item_types.specs.Printed.{joined, named, separator, phase_text, node_text, proxy_text, value_text};

use crate::decl::Names;
use crate::memory::Memory;
use crate::quote::push_quoted;
use crate::step::Phase;
use crate::text::Text;
use crate::value::{NodeId, Proxy, Value};
use itoa::{Buffer, Integer};

/// Appends the number's decimal digits, behind a sign where it is negative.
fn push_number<I: Integer>(n: I, out: &mut String) -> Result<(), Memory>
    ensures { OnOk result (string_bytes out.new ≡ string_bytes out.old ++ I.text n) }
{
    let mut buffer = Buffer::new();
    out.push_str(buffer.format(n))?;
    Ok(())
}

fn push_node(id: NodeId, out: &mut String) -> Result<(), Memory>
    ensures { OnOk result (string_bytes out.new ≡ string_bytes out.old ++ node_text id) }
{
    out.push('#')?;
    push_number(id.step, out)?;
    out.push('.')?;
    push_number(id.k, out)
}

fn phase_word(phase: Phase) -> &'static str
    ensures { result.now ≡ phase_text phase }
{
    match phase {
        Phase::Static => "static",
        Phase::Runtime => "runtime",
    }
}

fn push_proxy(proxy: Proxy, out: &mut String) -> Result<(), Memory>
    ensures { OnOk result (string_bytes out.new ≡ string_bytes out.old ++ proxy_text proxy) }
{
    let step = proxy.step;
    let call = proxy.call;
    let phase = phase_word(proxy.phase);
    write!(out, "@{step}.{call}.{phase}")?;
    Ok(())
}

/// Appends the value's text, as a history shows it.
///
/// # Errors
/// `Memory` for want of memory.
#[cycle(print)]
pub fn push_value(value: &Value, names: &Names, out: &mut String) -> Result<(), Memory>
    ensures { OnOk result (string_bytes out.new ≡ string_bytes out.old ++ value_text names.now value.now) }
{
    match value {
        Value::Null => out.push_str("null")?,
        Value::Bool(b) => write!(out, "{b}")?,
        Value::Long(n) => push_number(*n, out)?,
        Value::Str(text) => push_quoted(text.as_str(), out)?,
        Value::List(id, parts) => {
            out.push('[')?;
            push_node(*id, out)?;
            out.push(':')?;
            push_values(parts.as_slice(), names, " ", out)?;
            out.push(']')?;
        }
        Value::Bean(id, bean, parts) => {
            out.push_str(names.bean_name(*bean))?;
            push_node(*id, out)?;
            out.push('{')?;
            push_fields(names.fields_of(*bean), parts.as_slice(), names, out)?;
            out.push('}')?;
        }
        Value::Returned(proxy) => push_proxy(*proxy, out)?,
    }
    Ok(())
}

/// Appends the values' texts, with `before` before the first and commas between them.
///
/// # Errors
/// `Memory` for want of memory.
#[cycle(print)]
pub fn push_values(
    values: &[Value],
    names: &Names,
    before: &str,
    out: &mut String,
) -> Result<(), Memory>
    ensures { OnOk result (string_bytes out.new ≡ string_bytes out.old ++ joined before.now (codes ", ") (map (value_text names.now) values.now)) }
{
    let mut mark = before;
    for value in values {
        out.push_str(mark)?;
        push_value(value, names, out)?;
        mark = ", ";
    }
    Ok(())
}

#[cycle(print)]
fn push_fields(
    fields: &[Text],
    values: &[Value],
    names: &Names,
    out: &mut String,
) -> Result<(), Memory>
    ensures { OnOk result (string_bytes out.new ≡ string_bytes out.old ++ joined [] (codes ", ") (named fields.now (map (value_text names.now) values.now))) }
{
    for i in 0..fields.len().min(values.len()) {
        push_separator(i, out)?;
        push_label(fields[i].as_str(), out)?;
        push_value(&values[i], names, out)?;
    }
    Ok(())
}

/// Appends what stands before the field at that place.
fn push_separator(place: usize, out: &mut String) -> Result<(), Memory>
    ensures { OnOk result (string_bytes out.new ≡ string_bytes out.old ++ separator place) }
{
    if place > 0 {
        out.push(',')?;
        out.push(' ')?;
    }
    Ok(())
}

/// Appends the field's name and what stands behind it.
fn push_label(name: &str, out: &mut String) -> Result<(), Memory>
    ensures { OnOk result (string_bytes out.new ≡ string_bytes out.old ++ (name.now ++ codes ": ")) }
{
    out.push_str(name)?;
    out.push(':')?;
    out.push(' ')?;
    Ok(())
}
