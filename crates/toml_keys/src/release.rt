use std::alloc::Global;
use toml::value::Array;
use toml::{Table, Value};

/// Whether the value may hold others.
fn is_nested(value: &Value) -> bool {
    matches!(value, Value::Array(_) | Value::Table(_))
}

/// Lets go of a table's texts and numbers, and puts its lists and tables at the end of what is
/// left. Where there is no memory for one, all that it holds is let go of at once.
fn open_table(table: Table, left: &mut Vec<Value>) {
    for (_, value) in table {
        if is_nested(&value) {
            let _ = left.push(value);
        }
    }
}

fn open_array(array: Array, left: &mut Vec<Value>) {
    for value in array {
        if is_nested(&value) {
            let _ = left.push(value);
        }
    }
}

fn open_value(value: Value, left: &mut Vec<Value>) {
    match value {
        Value::Table(table) => open_table(table, left),
        Value::Array(array) => open_array(array, left),
        _other => {}
    }
}

/// Lets go of a file's table, level by level: however deep its values are, it takes the same
/// stack.
pub fn let_go(alloc: Global, table: Table) {
    let mut left = Vec::new(alloc);
    open_table(table, &mut left);
    for _ in 0..u64::MAX {
        match left.pop() {
            Some(value) => open_value(value, &mut left),
            None => return,
        }
    }
}
