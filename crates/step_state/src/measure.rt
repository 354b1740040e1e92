ghost use Rattle.std.specs.Prelude.{◌≡◌};
ghost use Rattle.step_state.specs.Size as spec;

use item_types::Value;

/// How large a value is, each number as far as its type goes.
#[derive(Clone, Copy, Drop)]
pub struct Size {
    /// Its cells.
    pub cells: u64,
    /// The bytes of its texts in modified UTF-8.
    pub text: u64,
    /// Its depth; of a list of values the greatest depth.
    pub depth: u32,
}

/// The size of a value. It takes no memory.
#[cycle(size)]
pub fn size_of(value: &Value) -> Size
    ensures { result ≡ spec.size_of value.now }
{
    match value {
        Value::Str(text) => Size {
            cells: 1,
            text: text.modified_len(),
            depth: 1,
        },
        Value::List(_, parts) | Value::Bean(_, _, parts) => {
            let size = size_of_all(parts.as_slice());
            Size {
                cells: size.cells.saturating_add(1),
                text: size.text,
                depth: size.depth.saturating_add(1),
            }
        }
        Value::Null | Value::Bool(_) | Value::Long(_) | Value::Returned(_) => Size {
            cells: 1,
            text: 0,
            depth: 1,
        },
    }
}

/// The size of several values. It takes no memory.
#[cycle(size)]
pub fn size_of_all(values: &[Value]) -> Size
    ensures { result ≡ spec.size_of_all values.now }
{
    let mut size = Size {
        cells: 0,
        text: 0,
        depth: 0,
    };
    for value in values {
        let part = size_of(value);
        size = Size {
            cells: size.cells.saturating_add(part.cells),
            text: size.text.saturating_add(part.text),
            depth: size.depth.max(part.depth),
        };
    }
    size
}
