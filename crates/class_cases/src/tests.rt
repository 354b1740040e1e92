ghost use Rattle.std.specs.Prelude.{◌<◌, ◌≤◌, length};

use class_pool::{CLASS_LIMIT, Class, ClassFault};
use class_reader::{push_fault, read_class};
use class_writer::write_class;
use item_types::Memory;
use std::alloc::{AllocError, Global};

/// `app/Main` of an application without recordings, in hexadecimal digits.
const MAIN: &str =
    "cafebabe0000003d00120100086170702f4d61696e0700010100106a6176612f6c616e672f4f626a6563740700\
     03010007636f6e746578740100234c696f2f717561726b75732f72756e74696d652f53746172747570436f6e74\
     6578743b0100083c636c696e69743e010003282956010004436f6465010021696f2f717561726b75732f72756e\
     74696d652f53746172747570436f6e7465787407000a0100063c696e69743e0c000c00080a000b000d0c000500\
     06090002000f010005737461727400310002000400000001000900050006000000020008000700080001000900\
     000017000200000000000bbb000b59b7000eb30010b100000000000900110008000100090000000d0000000000\
     000001b1000000000000";

/// A class with an entry of each kind, a `Code` of a field, which is kept as it stands, and one of
/// a method, with a catch row and an attribute.
const EACH: &str =
    "cafebabe0000003d000f010001410700010300000007043f80000005ffffffffffffffff063ff0000000000000\
     0800010c00010001090002000a0a0002000a0b0002000a010004436f6465002100020000000100020001000100\
     0100010001000e000000010000010001000100010001000e0000001d0001000100000001b10001000000010000\
     00000001000100000002ffff0002000100000000000e00000003010203";

fn digit(c: u8) -> u8
    ensures { result < 16 }
{
    match c {
        b'0'..=b'9' => c - b'0',
        b'a'..=b'f' => c - b'a' + 10,
        _ => 0,
    }
}

fn bytes_of(alloc: Global, digits: &str) -> Result<Vec<u8>, AllocError> {
    let mut bytes = Vec::new(alloc);
    for pair in digits.as_bytes().chunks_exact(2) {
        match pair {
            [high, low] => bytes.push(digit(*high) * 16 + digit(*low))?,
            _ => {}
        }
    }
    Ok(bytes)
}

/// The first so many bytes, or all of them.
fn cut(bytes: &[u8], len: usize) -> &[u8]
    ensures { length result.now ≤ len }
{
    if len < bytes.len() {
        &bytes[..len]
    } else {
        bytes
    }
}

fn between(bytes: &[u8], from: usize, to: usize) -> &[u8] {
    let front = cut(bytes, to);
    if from < front.len() {
        &front[from..]
    } else {
        &[]
    }
}

fn set(bytes: &mut [u8], at: usize, byte: u8) {
    if at < bytes.len() {
        bytes[at] = byte;
    }
}

fn read(alloc: Global, bytes: &[u8]) -> Result<Class, ClassFault> {
    read_class(alloc, cut(bytes, CLASS_LIMIT as usize))
}

/// `ok`, or the text of the fault.
fn answer(alloc: Global, bytes: &[u8]) -> Result<String, Memory> {
    let mut out = String::new(alloc);
    match read(alloc, bytes) {
        Ok(_) => out.push_str("ok")?,
        Err(fault) => push_fault(fault, &mut out)?,
    }
    Ok(out)
}

/// Cuts of `MAIN`, and the answer.
const CUTS: [(usize, &str); 7] = [
    (0, "short at 0"),
    (3, "short at 0"),
    (8, "short at 8"),
    (40, "short at 27"),
    (240, "short at 228"),
    (279, "short at 278"),
    (280, "ok"),
];

#[test]
fn cuts_are_short_where_a_number_or_run_is_not_whole(rt: HostRuntime) -> Result<(), Memory> {
    let bytes = bytes_of(rt.alloc(), MAIN)?;
    for (len, wanted) in CUTS {
        let answer = answer(rt.alloc(), cut(bytes.as_slice(), len))?;
        assert_eq!(rt; answer.as_str(), wanted);
    }
    Ok(())
}

/// Offsets in `MAIN`, the bytes that are set there, and the answer.
const CHANGES: [(usize, &[u8], &str); 14] = [
    (0, &[0x00], "magic"),
    (5, &[0x01], "version"),
    (7, &[0x30], "version"),
    (7, &[0x31], "ok"),
    (7, &[0x42], "version"),
    (8, &[0x00, 0x00], "pool 0"),
    (8, &[0xff, 0xff], "pool 18"),
    (10, &[0x0f], "pool 1"),
    (22, &[0x00, 0x02], "pool 2"),
    (196, &[0x00, 0x01], "shape at 196"),
    (198, &[0x00, 0x00], "ok"),
    (200, &[0xff, 0xff], "shape at 202"),
    (224, &[0xff, 0xff, 0xff, 0xff], "short at 228"),
    (232, &[0x00, 0x00, 0x00, 0x00], "shape at 228"),
];

fn changed(alloc: Global, at: usize, new: &[u8]) -> Result<Vec<u8>, AllocError> {
    let mut bytes = bytes_of(alloc, MAIN)?;
    let mut place = at;
    for byte in new {
        set(bytes.as_mut_slice(), place, *byte);
        place = place.saturating_add(1);
    }
    Ok(bytes)
}

#[test]
fn a_change_is_refused_where_it_is(rt: HostRuntime) -> Result<(), Memory> {
    for (at, new, wanted) in CHANGES {
        let bytes = changed(rt.alloc(), at, new)?;
        let answer = answer(rt.alloc(), bytes.as_slice())?;
        assert_eq!(rt; answer.as_str(), wanted);
    }
    Ok(())
}

fn push(out: &mut Vec<u8>, bytes: &[u8]) -> Result<(), AllocError> {
    for byte in bytes {
        out.push(*byte)?;
    }
    Ok(())
}

/// `MAIN` with one entry more, which names an attribute of the class.
fn with_an_attribute(alloc: Global) -> Result<Vec<u8>, AllocError> {
    let main = bytes_of(alloc, MAIN)?;
    let mut bytes = Vec::new(alloc);
    push(&mut bytes, cut(main.as_slice(), 8))?;
    push(&mut bytes, &[0x00, 0x13])?;
    push(&mut bytes, between(main.as_slice(), 10, 194))?;
    push(&mut bytes, &[0x01, 0x00, 0x01, 0x58])?;
    push(&mut bytes, between(main.as_slice(), 194, 278))?;
    push(&mut bytes, &[0, 1, 0, 0x12, 0, 0, 0, 1, 7])?;
    Ok(bytes)
}

#[test]
fn bytes_behind_a_class_are_refused(rt: HostRuntime) -> Result<(), Memory> {
    let mut bytes = bytes_of(rt.alloc(), MAIN)?;
    push(&mut bytes, &[0])?;
    let refused = answer(rt.alloc(), bytes.as_slice())?;
    assert_eq!(rt; refused.as_str(), "trailing at 280");
    let attributed = with_an_attribute(rt.alloc())?;
    assert_eq!(rt; attributed.len(), 291);
    let read = answer(rt.alloc(), attributed.as_slice())?;
    assert_eq!(rt; read.as_str(), "ok");
    Ok(())
}

/// Whether each cut of the bytes is short at an offset within it, and all of them are a class.
fn cuts_are_short(alloc: Global, bytes: &[u8]) -> bool {
    let mut all = read(alloc, bytes).is_ok();
    for len in 0..bytes.len() {
        all = all
            && match read(alloc, cut(bytes, len)) {
                Err(ClassFault::Short { at }) => at as usize <= len,
                _ => false,
            };
    }
    all
}

#[test]
fn each_cut_is_short(rt: HostRuntime) -> Result<(), Memory> {
    for digits in [MAIN, EACH] {
        let bytes = bytes_of(rt.alloc(), digits)?;
        assert!(rt; cuts_are_short(rt.alloc(), bytes.as_slice()));
    }
    Ok(())
}

fn stands_within(fault: ClassFault, len: usize) -> bool {
    match fault {
        ClassFault::Magic | ClassFault::Version | ClassFault::Pool { .. } => true,
        ClassFault::Short { at } | ClassFault::Shape { at } | ClassFault::Trailing { at } => {
            at as usize <= len
        }
        ClassFault::Memory => false,
    }
}

/// Whether the bytes are a class that is written back as it was read, or are refused within them.
fn is_answered(alloc: Global, bytes: &[u8]) -> Result<bool, Memory> {
    match read_class(alloc, cut(bytes, CLASS_LIMIT as usize)) {
        Ok(class) => Ok(write_class(alloc, &class)?.as_slice() == bytes),
        Err(fault) => Ok(stands_within(fault, bytes.len())),
    }
}

/// What each byte is changed to.
const VALUES: [u8; 16] = [
    0x00, 0x01, 0x02, 0x03, 0x05, 0x07, 0x09, 0x0c, 0x10, 0x31, 0x7f, 0x80, 0xc1, 0xed, 0xf0, 0xff,
];

/// Whether the bytes are answered with each value at the offset.
fn is_answered_at(alloc: Global, bytes: &mut [u8], at: usize) -> Result<bool, Memory> {
    let mut all = true;
    for value in VALUES {
        set(bytes, at, value);
        all = is_answered(alloc, bytes)? && all;
    }
    Ok(all)
}

#[test]
fn each_changed_byte_is_answered(rt: HostRuntime) -> Result<(), Memory> {
    for digits in [MAIN, EACH] {
        let whole = bytes_of(rt.alloc(), digits)?;
        assert!(rt; is_answered(rt.alloc(), whole.as_slice())?);
        for at in 0..whole.len() {
            let mut bytes = whole.to_vec(rt.alloc())?;
            assert!(rt; is_answered_at(rt.alloc(), bytes.as_mut_slice(), at)?);
        }
    }
    Ok(())
}
