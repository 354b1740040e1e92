ghost use Rattle.std.specs.Prelude.{◌<◌};

use crate::run::run_well;
use item_types::Memory;
use std::alloc::{AllocError, Global};

/// `app/Main` of an application without recordings, in hexadecimal digits.
const MAIN: &str =
    "cafebabe0000003d00120100086170702f4d61696e0700010100106a6176612f6c616e672f4f626a656374070003010007636f6e746578740100234c696f2f717561726b75732f72756e74696d652f53746172747570436f6e746578743b0100083c636c696e69743e010003282956010004436f6465010021696f2f717561726b75732f72756e74696d652f53746172747570436f6e7465787407000a0100063c696e69743e0c000c00080a000b000d0c00050006090002000f010005737461727400310002000400000001000900050006000000020008000700080001000900000017000200000000000bbb000b59b7000eb30010b100000000000900110008000100090000000d0000000000000001b1000000000000";

const MAIN_DUMP: &str = r#"class app/Main major 61 super java/lang/Object
pool 1: utf8 "app/Main"
pool 2: class 1
pool 3: utf8 "java/lang/Object"
pool 4: class 3
pool 5: utf8 "context"
pool 6: utf8 "Lio/quarkus/runtime/StartupContext;"
pool 7: utf8 "<clinit>"
pool 8: utf8 "()V"
pool 9: utf8 "Code"
pool 10: utf8 "io/quarkus/runtime/StartupContext"
pool 11: class 10
pool 12: utf8 "<init>"
pool 13: nametype 12 8
pool 14: method 11 13
pool 15: nametype 5 6
pool 16: field 2 15
pool 17: utf8 "start"
field 0009 context Lio/quarkus/runtime/StartupContext;
method 0008 <clinit> ()V stack 2 locals 0
  0: new 11
  3: dup
  4: invokespecial 14
  7: putstatic 16
  10: return
method 0009 start ()V stack 0 locals 0
  0: return
"#;

fn digit(c: u8) -> u8
    ensures { result < 16 }
{
    match c {
        b'0'..=b'9' => c - b'0',
        b'a'..=b'f' => c - b'a' + 10,
        _ => 0,
    }
}

fn bytes_of(alloc: Global, digits: &str) -> Result<Vec<u8>, AllocError> {
    let mut bytes = Vec::new(alloc);
    for pair in digits.as_bytes().chunks_exact(2) {
        match pair {
            [high, low] => bytes.push(digit(*high) * 16 + digit(*low))?,
            _ => {}
        }
    }
    Ok(bytes)
}

fn cut(bytes: &[u8], len: usize) -> &[u8] {
    if len < bytes.len() {
        &bytes[..len]
    } else {
        bytes
    }
}

/// How many bytes of the file are there, and the status and text of its dump.
const DUMPS: [(usize, u8, &str); 3] = [
    (280, 0, MAIN_DUMP),
    (40, 9, "classes refused: app.toml: short at 27\n"),
    (0, 9, "classes refused: app.toml: short at 0\n"),
];

#[test]
fn a_class_file_is_dumped_or_refused(rt: HostRuntime) -> Result<(), Memory> {
    let bytes = bytes_of(rt.alloc(), MAIN)?;
    for (len, status, text) in DUMPS {
        let ended = run_well(&rt, cut(bytes.as_slice(), len), &["dump", "app.toml"])?;
        assert_eq!(rt; ended.status, status);
        assert_eq!(rt; ended.sink.bytes(), text.as_bytes());
    }
    Ok(())
}

const TOO_LARGE: &str = "classes refused: app.toml: too large\n";

const NO_MAGIC: &str = "classes refused: app.toml: magic\n";

#[test]
fn a_file_over_the_limit_is_too_large(rt: HostRuntime) -> Result<(), Memory> {
    let large: Vec<u8> = vec![in rt.alloc(); 0; 2_000_001]?;
    let ended = run_well(&rt, large.as_slice(), &["dump", "app.toml"])?;
    assert_eq!(rt; ended.status, 9);
    assert_eq!(rt; ended.sink.bytes(), TOO_LARGE.as_bytes());
    let ended = run_well(&rt, cut(large.as_slice(), 2_000_000), &["dump", "app.toml"])?;
    assert_eq!(rt; ended.sink.bytes(), NO_MAGIC.as_bytes());
    let ended = run_well(&rt, &[], &["dump", "other.class"])?;
    assert_eq!(rt; ended.status, 6);
    assert!(rt; ended.sink.bytes().is_empty());
    Ok(())
}
