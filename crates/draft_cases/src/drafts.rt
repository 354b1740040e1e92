use ext_draft::{
    Draft, DraftFault, draft_of_cut_bytes, drafts_keep_limits, inside_nth, is_name, nth, path_of,
    read_draft,
};
use std::alloc::Global;
use std::test::Fail;

/// Texts, and whether they are names.
const NAMES: [(&str, bool); 9] = [
    ("a", true),
    ("A_1", true),
    ("", false),
    ("_a", false),
    ("1a", false),
    ("a-b", false),
    ("let", false),
    ("\u{e9}", false),
    (
        "aaaaaaaaaaaaaaaaaaaaaaaaaaaaaaaaaaaaaaaaaaaaaaaaaaaaaaaaaaaaaaaaa",
        false,
    ),
];

#[test]
fn names_have_letters_digits_and_underscores(rt: HostRuntime) -> Result<(), Fail> {
    for (text, want) in NAMES {
        assert_eq!(rt; is_name(text), want, "of {text}");
    }
    Ok(())
}

#[test]
fn paths_name_keys_and_entries(rt: HostRuntime) -> Result<(), Fail> {
    let alloc: Global = rt.alloc();
    let list = path_of(alloc, "a.", "b")?;
    assert_eq!(rt; list.as_str(), "a.b");
    assert_eq!(rt; nth(alloc, list.as_str(), 12)?.as_str(), "a.b[12]");
    assert_eq!(rt; inside_nth(alloc, list.as_str(), 0)?.as_str(), "a.b[0].");
    Ok(())
}

fn body_of(read: Result<Draft, DraftFault>) -> Result<String, Fail> {
    match read {
        Ok(draft) => {
            for extension in draft.extensions.into_vec() {
                for step in extension.steps.into_vec() {
                    return Ok(step.body.into_string());
                }
            }
            Err(Fail::from("no step"))
        }
        Err(_) => Err(Fail::from("refused")),
    }
}

#[test]
fn bodies_are_kept_as_texts(rt: HostRuntime) -> Result<(), Fail> {
    let alloc: Global = rt.alloc();
    draft_of_cut_bytes();
    drafts_keep_limits();
    let text =
        "format = 1\napp = \"x\"\nextensions = [{name = \"a\", steps = [{name = \"s\", body = 'print 1;'}]}]";
    let body = body_of(read_draft(alloc, text.as_bytes()))?;
    assert_eq!(rt; body.as_str(), "print 1;");
    Ok(())
}
