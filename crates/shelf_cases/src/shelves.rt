use aug_base::{MemShelf, MemSink, Shelf, ShelfErr, Sink, SinkErr, write_all};
use item_types::{Bytes, Memory, Seq, Text};
use std::alloc::Global;

fn seq_of<T: Copy>(alloc: Global, items: &[T]) -> Result<Seq<T>, Memory> {
    Ok(Seq::from_vec(Vec::from_slice(alloc, items)?))
}

/// A shelf with the file `a` of bytes 1 to 4, that fails at the listed calls.
fn shelf(alloc: Global, failing: &[u64]) -> Result<MemShelf, Memory> {
    let mut files: Seq<(Text, Bytes)> = Seq::new(alloc);
    files.push((Text::of(alloc, "a")?, seq_of(alloc, &[1, 2, 3, 4])?))?;
    Ok(MemShelf::new(alloc, files, seq_of(alloc, failing)?))
}

fn holds(read: Result<Bytes, ShelfErr>, want: &[u8]) -> bool {
    match read {
        Ok(bytes) => bytes.as_slice() == want,
        Err(_) => false,
    }
}

#[test]
fn a_shelf_in_memory_reads_and_writes(rt: HostRuntime) -> Result<(), Memory> {
    let alloc = rt.alloc();
    let mut shelf = shelf(alloc, &[])?;
    assert!(rt; holds(shelf.read(alloc, "a", 9), &[1, 2, 3, 4]));
    assert!(rt; holds(shelf.read(alloc, "a", 3), &[1, 2, 3]));
    assert!(rt; matches!(shelf.read(alloc, "b", 9), Err(ShelfErr::Absent)));
    assert!(rt; shelf.write("a", &[5]).is_ok());
    assert!(rt; shelf.write("b", &[6, 7]).is_ok());
    assert_eq!(rt; shelf.file("a"), Some([5u8].as_slice()));
    assert_eq!(rt; shelf.file("b"), Some([6u8, 7].as_slice()));
    assert_eq!(rt; shelf.file("c"), None);
    Ok(())
}

#[test]
fn a_shelf_in_memory_fails_at_the_listed_calls(rt: HostRuntime) -> Result<(), Memory> {
    let alloc = rt.alloc();
    let mut shelf = shelf(alloc, &[1, 3])?;
    assert!(rt; shelf.write("b", &[5]).is_ok());
    assert!(rt; matches!(shelf.read(alloc, "b", 9), Err(ShelfErr::Failed)));
    assert!(rt; holds(shelf.read(alloc, "b", 9), &[5]));
    assert!(rt; matches!(shelf.write("b", &[6]), Err(ShelfErr::Failed)));
    assert_eq!(rt; shelf.file("b"), Some([5u8].as_slice()));
    assert!(rt; shelf.write("b", &[6]).is_ok());
    assert_eq!(rt; shelf.file("b"), Some([6u8].as_slice()));
    Ok(())
}

#[test]
fn a_sink_in_memory_takes_pieces(rt: HostRuntime) -> Result<(), Memory> {
    let alloc = rt.alloc();
    let mut sink = MemSink::new(alloc, 3, seq_of(alloc, &[2])?);
    assert!(rt; matches!(sink.put(b"ab"), Ok(2)));
    assert!(rt; matches!(write_all(&mut sink, b"cdefgh"), Err(SinkErr::Failed)));
    assert_eq!(rt; sink.bytes(), b"abcde".as_slice());
    assert!(rt; write_all(&mut sink, b"fghijkl").is_ok());
    assert_eq!(rt; sink.bytes(), b"abcdefghijkl".as_slice());
    Ok(())
}
