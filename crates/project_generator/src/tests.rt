use crate::gen_text;
use item_types::Memory;

/// A project of one step.
const ONE: &str = r#"format = 1
app = "gen"
finals = ["M"]
[[extensions]]
name = "g"
items = [
{name = "V0", kind = "simple"},
{name = "M", kind = "multi"},
]
beans = [
{name = "P", fields = ["n", "up"]},
]
recorders = [
{name = "R", statics = ["seen"], methods = [{name = "note", params = ["p"], body = 'if static.seen == null { static.seen = []; } add(static.seen, p); print p.n;'}]},
]
steps = [
{name = "s0", produces = ["V0", "M"], record = "static", body = 'let x = new P{n: 0, up: null}; produce V0(x); produce M(x); call R.note(x);'},
]
"#;

/// The last line but one of a project of five steps.
const FIFTH: &str =
    "{name = \"s4\", consumes = [\"V1\"], produces = [\"V4\", \"M weak\"], record = \"static\", body = 'let x = new P{n: 4, up: get V1}; produce V4(x); produce M(x); call R.note(x);'},\n]\n";

#[test]
fn a_project_of_one_step_is_written_whole(rt: HostRuntime) -> Result<(), Memory> {
    assert_eq!(rt; gen_text(rt.alloc(), 1)?.as_str(), ONE);
    Ok(())
}

#[test]
fn the_fifth_step_hands_on_what_the_second_produced(rt: HostRuntime) -> Result<(), Memory> {
    let text = gen_text(rt.alloc(), 5)?;
    assert!(rt; text.as_str().ends_with(FIFTH));
    Ok(())
}
