use class_pool::{Entry, Pool, PoolErr, decode_text, encode_text};
use item_types::{Memory, Text};
use std::alloc::Global;

/// Texts, and their modified UTF-8.
const TEXTS: [(&str, &[u8]); 4] = [
    ("\u{0}", &[0xc0, 0x80]),
    ("\u{e9}", &[0xc3, 0xa9]),
    ("\u{1f600}", &[0xed, 0xa0, 0xbd, 0xed, 0xb8, 0x80]),
    (
        "\u{0}\u{e9}\u{1f600}",
        &[0xc0, 0x80, 0xc3, 0xa9, 0xed, 0xa0, 0xbd, 0xed, 0xb8, 0x80],
    ),
];

/// Bytes that are the modified UTF-8 of no text.
const NO_TEXTS: [&[u8]; 4] = [
    &[0x00],
    &[0xc1, 0xa1],
    &[0xed, 0xa0, 0xbd],
    &[0xf0, 0x9f, 0x98, 0x80],
];

#[test]
fn texts_in_modified_utf8(rt: HostRuntime) -> Result<(), Memory> {
    for (text, bytes) in TEXTS {
        let text = Text::of(rt.alloc(), text)?;
        assert_eq!(rt; encode_text(rt.alloc(), &text)?.as_slice(), bytes);
        match decode_text(rt.alloc(), bytes)? {
            Some(back) => assert_eq!(rt; back.as_str(), text.as_str()),
            None => assert!(rt; false),
        }
    }
    for bytes in NO_TEXTS {
        assert!(rt; decode_text(rt.alloc(), bytes)?.is_none());
    }
    Ok(())
}

/// A call of a pool, on the texts `A` and `b`.
#[derive(Clone, Copy)]
enum Asked {
    Utf8,
    Class,
    Str,
    Integer,
    Long,
    Field,
    Method,
}

fn answer(pool: &mut Pool, asked: Asked, a: &Text, b: &Text) -> Result<u16, PoolErr> {
    match asked {
        Asked::Utf8 => pool.utf8(b),
        Asked::Class => pool.class(a),
        Asked::Str => pool.string(a),
        Asked::Integer => pool.integer(7),
        Asked::Long => pool.long(-1),
        Asked::Field => pool.field(a, b, a),
        Asked::Method => pool.method(a, b, a),
    }
}

/// Calls in order, and the indices that they give in a pool that was empty.
const CALLS: [(Asked, u16); 9] = [
    (Asked::Class, 2),
    (Asked::Str, 3),
    (Asked::Long, 4),
    (Asked::Integer, 6),
    (Asked::Field, 9),
    (Asked::Method, 10),
    (Asked::Long, 4),
    (Asked::Method, 10),
    (Asked::Utf8, 7),
];

#[test]
fn each_kind_enters_once(rt: HostRuntime) -> Result<(), PoolErr> {
    let a = Text::of(rt.alloc(), "A")?;
    let b = Text::of(rt.alloc(), "b")?;
    let mut pool = Pool::new(rt.alloc());
    for (asked, index) in CALLS {
        assert_eq!(rt; answer(&mut pool, asked, &a, &b)?, index);
    }
    assert_eq!(rt; pool.entries().len(), 10);
    assert!(rt; matches!(pool.entry(5), Some(Entry::Gap)));
    assert!(rt; pool.entry(0).is_none());
    assert!(rt; pool.entry(11).is_none());
    Ok(())
}

/// A class before its name, which stands twice, and an equal class.
fn entries_of_a_file(alloc: Global) -> Result<Vec<Entry>, PoolErr> {
    let mut entries = Vec::new(alloc);
    entries.push(Entry::Class(3))?;
    entries.push(Entry::Utf8(Text::of(alloc, "A")?))?;
    entries.push(Entry::Utf8(Text::of(alloc, "A")?))?;
    entries.push(Entry::Class(2))?;
    Ok(entries)
}

#[test]
fn a_pool_of_a_file_gives_the_least(rt: HostRuntime) -> Result<(), PoolErr> {
    let a = Text::of(rt.alloc(), "A")?;
    let entries = entries_of_a_file(rt.alloc())?;
    if entries.len() < 65535 {
        let mut pool = Pool::from_entries(rt.alloc(), entries);
        assert_eq!(rt; pool.class(&a)?, 1);
        assert_eq!(rt; pool.utf8(&a)?, 2);
    }
    Ok(())
}

/// So many ints, from 0 on.
fn ints(alloc: Global, count: u32) -> Result<Vec<Entry>, PoolErr> {
    let mut entries = Vec::new(alloc);
    for n in 0..count {
        entries.push(Entry::Integer(n))?;
    }
    Ok(entries)
}

#[test]
fn a_pool_is_full_after_65534_entries(rt: HostRuntime) -> Result<(), PoolErr> {
    let entries = ints(rt.alloc(), 65533)?;
    if entries.len() < 65535 {
        let mut pool = Pool::from_entries(rt.alloc(), entries);
        assert!(rt; matches!(pool.long(7), Err(PoolErr::Full)));
        assert_eq!(rt; pool.integer(65533)?, 65534);
        assert!(rt; matches!(pool.integer(65534), Err(PoolErr::Full)));
        assert_eq!(rt; pool.integer(7)?, 8);
        assert_eq!(rt; pool.entries().len(), 65534);
    }
    Ok(())
}
