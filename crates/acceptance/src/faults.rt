use crate::run::{numbers, run, run_well};
use aug_base::MemSink;
use item_types::{Memory, Seq};

const DEMO: &str = r#"
format = 1
app = "demo"
finals = ["Ready"]
extensions = [{name = "core", items = [{name = "Ready", kind = "empty"}], steps = [
  {name = "boot", produces = ["Ready"]}]}]
"#;

const DEMO_PLAN: &[u8] = b"step 0 core.boot\nplanned demo: steps 1 of 1\n";

const USAGE: &str =
    "usage: plan FILE | build FILE OUT [--workers N] | start FILE OUT | run FILE OUT [--workers N] | dump FILE | gen N [--workers W] | check FILE OUT | verify FILE OUT | compile FILE OUT\n";

#[test]
fn a_put_that_fails_leaves_the_pieces_before_it(rt: HostRuntime) -> Result<(), Memory> {
    // 44 bytes in pieces of 8 are six puts.
    for j in 0..6 {
        let sink = MemSink::new(rt.alloc(), 8, numbers(rt.alloc(), &[j])?);
        let ended = run(&rt, DEMO.as_bytes(), &["plan", "app.toml"], &[], sink)?;
        let taken = (8 * j as usize).min(DEMO_PLAN.len());
        assert_eq!(rt; ended.status, 7);
        assert_eq!(rt; ended.sink.bytes(), &DEMO_PLAN[..taken]);
    }
    let sink = MemSink::new(rt.alloc(), 8, numbers(rt.alloc(), &[6])?);
    let ended = run(&rt, DEMO.as_bytes(), &["plan", "app.toml"], &[], sink)?;
    assert_eq!(rt; ended.status, 0);
    assert_eq!(rt; ended.sink.bytes(), DEMO_PLAN);
    Ok(())
}

#[test]
fn a_file_that_is_absent_or_not_read_prints_nothing(rt: HostRuntime) -> Result<(), Memory> {
    let ended = run_well(&rt, DEMO.as_bytes(), &["plan", "other.toml"])?;
    assert_eq!(rt; ended.status, 6);
    assert!(rt; ended.sink.bytes().is_empty());
    let sink = MemSink::new(rt.alloc(), 8, Seq::new(rt.alloc()));
    let ended = run(&rt, DEMO.as_bytes(), &["plan", "app.toml"], &[0], sink)?;
    assert_eq!(rt; ended.status, 6);
    assert!(rt; ended.sink.bytes().is_empty());
    Ok(())
}

#[test]
fn words_of_no_form_print_the_usage_line(rt: HostRuntime) -> Result<(), Memory> {
    let none: [&str; 0] = [];
    let ended = run_well(&rt, DEMO.as_bytes(), &none)?;
    assert_eq!(rt; ended.status, 1);
    assert_eq!(rt; ended.sink.bytes(), USAGE.as_bytes());
    let refused: [&[&str]; 6] = [
        &["plan"],
        &["plan", "app.toml", "app.toml"],
        &["plan", "--workers", "2", "app.toml"],
        &["plan", "-x"],
        &["bild", "app.toml"],
        &["--", "plan", "app.toml"],
    ];
    for words in refused {
        let ended = run_well(&rt, DEMO.as_bytes(), words)?;
        assert_eq!(rt; ended.status, 1);
        assert_eq!(rt; ended.sink.bytes(), USAGE.as_bytes());
    }
    Ok(())
}

#[test]
fn a_file_after_two_dashes_may_begin_with_one(rt: HostRuntime) -> Result<(), Memory> {
    let ended = run_well(&rt, DEMO.as_bytes(), &["plan", "--", "app.toml"])?;
    assert_eq!(rt; ended.status, 0);
    assert_eq!(rt; ended.sink.bytes(), DEMO_PLAN);
    let ended = run_well(&rt, DEMO.as_bytes(), &["plan", "--", "-x"])?;
    assert_eq!(rt; ended.status, 6);
    Ok(())
}
