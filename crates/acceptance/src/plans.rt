use crate::run::run_well;
use item_types::Memory;

const EMPTY: &str = "format = 1\napp = \"bare\"\n";

const DEMO: &str = r#"
format = 1
app = "demo"
finals = ["Ready"]
extensions = [{name = "core", items = [{name = "Ready", kind = "empty"}], steps = [
  {name = "boot", produces = ["Ready"]}]}]
"#;

const TWO_PRODUCERS: &str = r#"
format = 1
app = "two_producers"
extensions = [{name = "a", items = [{name = "Conf", kind = "simple"}], steps = [
  {name = "one", produces = ["Conf"]}, {name = "two", produces = ["Conf"]}]}]
"#;

const OVERRIDABLE: &str = r#"
format = 1
app = "overridden"
finals = ["Done"]
extensions = [{name = "a", items = [{name = "Conf", kind = "simple"},
  {name = "Extra", kind = "simple"}, {name = "Done", kind = "empty"}], steps = [
  {name = "dflt", produces = ["Conf overridable", "Extra"]},
  {name = "user", produces = ["Conf"]},
  {name = "use", consumes = ["Conf", "Extra"], produces = ["Done"]}]}]
"#;

const WEAK: &str = r#"
format = 1
app = "weak"
finals = ["Done"]
extensions = [{name = "a", items = [{name = "T", kind = "simple"},
  {name = "U", kind = "simple"}, {name = "Done", kind = "empty"}], steps = [
  {name = "w", produces = ["T weak", "U"]}, {name = "c", consumes = ["T"], produces = ["Done"]}]}]
"#;

const WEAK_AND_WANTED: &str = r#"
format = 1
app = "weak"
finals = ["Done", "U"]
extensions = [{name = "a", items = [{name = "T", kind = "simple"},
  {name = "U", kind = "simple"}, {name = "Done", kind = "empty"}], steps = [
  {name = "w", produces = ["T weak", "U"]}, {name = "c", consumes = ["T"], produces = ["Done"]}]}]
"#;

const OWN_PRODUCT: &str = r#"
format = 1
app = "own_product"
extensions = [{name = "a", items = [{name = "T", kind = "simple"}], steps = [
  {name = "s", consumes = ["T"], produces = ["T"]}]}]
"#;

const OWN_PRODUCT_WANTED: &str = r#"
format = 1
app = "own_product"
finals = ["T"]
extensions = [{name = "a", items = [{name = "T", kind = "simple"}], steps = [
  {name = "s", consumes = ["T"], produces = ["T"]}]}]
"#;

const CYCLE: &str = r#"
format = 1
app = "cycle"
finals = ["U"]
extensions = [{name = "a", items = [{name = "U", kind = "simple"}, {name = "V", kind = "simple"}], steps = [
  {name = "x", consumes = ["V"], produces = ["U"]}, {name = "y", consumes = ["U"], produces = ["V"]}]}]
"#;

const NO_PRODUCER: &str = r#"
format = 2
java = 21
app = "lacking"
finals = ["Ready"]
[[extensions]]
name = "a"
items = [{name = "Ready", kind = "empty"}]
"#;

/// Projects with what `plan` prints of each.
const PLANS: [(&str, u8, &str); 10] = [
    (EMPTY, 0, "planned bare: steps 0 of 0\n"),
    (DEMO, 0, "step 0 core.boot\nplanned demo: steps 1 of 1\n"),
    (
        TWO_PRODUCERS,
        3,
        "chain refused: item Conf has the producers a.one and a.two\n",
    ),
    (
        OVERRIDABLE,
        0,
        "step 0 a.dflt\nstep 1 a.user\nstep 2 a.use after 0 1\nplanned overridden: steps 3 of 3\n",
    ),
    (
        WEAK,
        3,
        "chain refused: item T, wanted by a.c, has no producer\n",
    ),
    (
        WEAK_AND_WANTED,
        0,
        "step 0 a.w\nstep 1 a.c after 0\nplanned weak: steps 2 of 2\n",
    ),
    (OWN_PRODUCT, 0, "planned own_product: steps 0 of 1\n"),
    (OWN_PRODUCT_WANTED, 3, "chain refused: cycle a.s\n"),
    (CYCLE, 3, "chain refused: cycle a.x, a.y\n"),
    (
        NO_PRODUCER,
        3,
        "chain refused: item Ready, a final item, has no producer\n",
    ),
];

#[test]
fn plans_and_refused_chains_print_their_lines(rt: HostRuntime) -> Result<(), Memory> {
    for (file, status, line) in PLANS {
        let ended = run_well(&rt, file.as_bytes(), &["plan", "app.toml"])?;
        assert_eq!(rt; ended.status, status);
        assert_eq!(rt; ended.sink.bytes(), line.as_bytes());
    }
    Ok(())
}

/// Files that are no project, with the line that `plan` prints of each.
const REFUSED: [(&str, &str); 8] = [
    ("format = 3\napp = \"x\"\n", "format: wrong field"),
    ("format = 1\n", "app: wrong field"),
    ("format = 2\napp = \"x\"\n", "java: wrong field"),
    ("format = 2\napp = \"x\"\njava = 11\n", "java: wrong field"),
    (
        "format = 1\napp = \"x\"\n[[extensions]]\nname = \"9x\"\n",
        "extensions[0].name: wrong name",
    ),
    (
        "format = 1\napp = \"x\"\n[[extensions]]\nname = \"a\"\nitems = [{name = \"T\", kind = \"empty\"}, {name = \"T\", kind = \"empty\"}]\n",
        "extensions[0].items[1].name: repeated",
    ),
    (
        "format = 1\napp = \"x\"\n[[extensions]]\nname = \"a\"\nsteps = [{name = \"s\", consumes = [\"X\"]}]\n",
        "extensions[0].steps[0].consumes[0]: unknown name",
    ),
    (
        "format = 1\napp = \"x\"\n\"a b\" = 1\n",
        "\"a b\": wrong field",
    ),
];

#[test]
fn refused_projects_print_their_first_fault(rt: HostRuntime) -> Result<(), Memory> {
    for (file, fault) in REFUSED {
        let mut line = String::new(rt.alloc());
        line.push_str("project refused: ")?;
        line.push_str(fault)?;
        line.push_str("\n")?;
        let ended = run_well(&rt, file.as_bytes(), &["plan", "app.toml"])?;
        assert_eq!(rt; ended.status, 2);
        assert_eq!(rt; ended.sink.bytes(), line.as_bytes());
    }
    Ok(())
}

#[test]
fn bytes_that_are_no_toml_and_a_file_too_large_are_refused(rt: HostRuntime) -> Result<(), Memory> {
    let ended = run_well(&rt, &[0xff], &["plan", "app.toml"])?;
    assert_eq!(rt; ended.status, 2);
    assert_eq!(rt;
        ended.sink.bytes(),
        b"project refused: file: not TOML\n".as_slice()
    );
    let mut large = Vec::new(rt.alloc());
    for _ in 0..1_048_577 {
        match large.push(b'\n') {
            Ok(()) => {}
            Err(_) => return Err(Memory),
        }
    }
    let ended = run_well(&rt, large.as_slice(), &["plan", "app.toml"])?;
    assert_eq!(rt; ended.status, 2);
    assert_eq!(rt;
        ended.sink.bytes(),
        b"project refused: file: 1048577 is over the limit\n".as_slice()
    );
    Ok(())
}
