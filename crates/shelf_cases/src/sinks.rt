use aug_base::{Sink, StdSink};

#[test]
fn takes_a_short_piece(rt: HostRuntime) {
    let mut sink = StdSink::new(rt);
    assert!(rt; matches!(sink.put(b"a short piece\n"), Ok(14)));
    assert!(rt; matches!(sink.put(b""), Ok(0)));
}
