ghost use Rattle.std.specs.Prelude.{◌≡◌};
ghost use Rattle.std.specs.List.{list_all};
ghost use Rattle.ext_draft.specs.Names.{is_name, is_letter, is_name_part, is_keyword, begins_with_letter};

use toml_keys::is_among;

/// The words that the language of bodies keeps for itself.
const KEYWORDS: [&str; 20] = [
    "let", "produce", "for", "in", "if", "else", "call", "fail", "get", "all", "new", "len",
    "true", "false", "null", "self", "static", "add", "print", "return",
];

fn is_letter(c: u8) -> bool
    ensures { result ≡ is_letter c }
{
    (b'A' <= c && c <= b'Z') || (b'a' <= c && c <= b'z')
}

/// Whether the character may follow a name's first.
pub fn is_name_part(c: u8) -> bool
    ensures { result ≡ is_name_part c }
{
    is_letter(c) || (b'0' <= c && c <= b'9') || c == b'_'
}

fn is_keyword(text: &str) -> bool
    ensures { result ≡ is_keyword text.now }
{
    is_among(text, &KEYWORDS)
}

/// Whether only characters that may stand in a name stand in the text.
fn has_name_parts(text: &str) -> bool
    ensures { result ≡ list_all is_name_part text.now }
{
    text.as_bytes().iter().all(|c| is_name_part(*c))
}

fn begins_with_letter(text: &str) -> bool
    ensures { result ≡ begins_with_letter text.now }
{
    match text.as_bytes().first() {
        Some(c) => is_letter(*c),
        None => false,
    }
}

#[tactic(auto, unfolding(crate::specs::Names::is_name))]
/// Whether the text is a letter followed by letters, digits or `_`, at most 64 characters, and no
/// keyword.
pub fn is_name(text: &str) -> bool
    ensures { result ≡ is_name text.now }
{
    begins_with_letter(text) && has_name_parts(text) && text.len() <= 64 && !is_keyword(text)
}
