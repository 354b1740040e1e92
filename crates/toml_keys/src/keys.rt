ghost use Rattle.std.specs.Prelude.{◌≡◌, ◌<◌, ◌^◌, option_map};
ghost use Rattle.std.specs.List.{list_any};
ghost use Rattle.std.specs.Str.{bytes_eq};
ghost use Rattle.toml.specs.Data.{get_member};
ghost use Rattle.toml.specs.View.{table_view, array_view, view};
ghost use Rattle.toml_keys.specs.Documents.{text_at, integer_at, array_at, count, key_count, is_among, other_key, texts_of};

use toml::value::Array;
use toml::{Table, Value};

/// What stands at a key.
pub fn value_at<'a>(table: &'a Table, key: &str) -> Option<&'a Value>
    ensures { option_map (λ v. view v.now) result ≡ get_member key.now (table_view table.now) }
{
    table.get(key)
}

/// The whole number at a key; none where another kind of value is there.
pub fn integer_at(table: &Table, key: &str) -> Option<i64>
    ensures { result ≡ integer_at key.now (table_view table.now) }
{
    match value_at(table, key) {
        Some(value) => value.as_integer(),
        None => None,
    }
}

/// The text at a key; none where another kind of value is there.
pub fn text_at<'a>(table: &'a Table, key: &str) -> Option<&'a str>
    ensures { option_map (λ t. t.now) result ≡ text_at key.now (table_view table.now) }
{
    match value_at(table, key) {
        Some(value) => value.as_str(),
        None => None,
    }
}

/// How many entries a list has.
pub fn entry_count(array: &Array) -> usize
    ensures value { result ≡ count (array_view array.now) }
    ensures small { result < 2 ^ 63 }
{
    let _ = array.capacity();
    array.len()
}

/// How many keys a table has.
pub fn key_count(table: &Table) -> usize
    ensures value { result ≡ key_count (table_view table.now) }
    ensures small { result < 2 ^ 63 }
{
    table.len()
}

/// The list at a key; none where another kind of value is there.
pub fn array_at<'a>(table: &'a Table, key: &str) -> Option<&'a Array>
    ensures { option_map (λ a. array_view a.now) result ≡ array_at key.now (table_view table.now) }
{
    match value_at(table, key) {
        Some(value) => value.as_array(),
        None => None,
    }
}

fn is_any_of(text: &str, words: &[&str]) -> bool
    ensures { result ≡ list_any (λ word. bytes_eq text.now word.now) words.now }
{
    words.iter().any(|word| text == *word)
}

/// Whether the text is one of these.
pub fn is_among(text: &str, words: &[&str]) -> bool
    ensures { result ≡ is_among (texts_of words.now) text.now }
{
    is_any_of(text, words)
}

/// The first key, by its bytes, that is none of the table's own.
pub fn other_key<'a>(table: &'a Table, own: &[&str]) -> Option<&'a str>
    ensures { option_map (λ key. key.now) result ≡ other_key (texts_of own.now) (table_view table.now) }
{
    for (key, _) in table {
        if !is_among(key.as_str(), own) {
            return Some(key.as_str());
        }
    }
    None
}
