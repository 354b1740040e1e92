ghost use Rattle.std.specs.Prelude.{◌<◌};

use crate::{Sink, SinkErr};
use item_types::Seq;
use std::alloc::Global;

/// A sink in memory, for tests. It tells what it has taken, takes at most so many bytes a put, and
/// fails at the puts whose numbers, from 0, are listed.
#[derive(Debug, Drop)]
pub struct MemSink {
    bytes: Vec<u8>,
    piece: usize,
    failing: Seq<u64>,
    calls: u64,
    faults: u64,
    ghost takes: { 0 < piece },
}

impl MemSink {
    ghost use Rattle.std.specs.Prelude.{◌≡◌, [], Some};
    ghost use Rattle.aug_base.specs.Fakes.{mem_bytes, mem_taken, sink_failing, sink_calls};
    ghost use Rattle.aug_base.specs.Fakes.{sink_piece};

    /// An empty sink that takes at most `piece` bytes a put, and no fault is counted. It takes no
    /// memory.
    pub fn new(alloc: Global, piece: usize, failing: Seq<u64>) -> MemSink
        requires { 0 < piece }
        ensures state { mem_taken result ≡ record { faults = 0; bytes = Some [] } }
        ensures failing { sink_failing result ≡ failing }
        ensures calls { sink_calls result ≡ 0 }
        ensures piece { sink_piece result ≡ piece }
    {
        MemSink {
            bytes: Vec::new(alloc),
            piece,
            failing,
            calls: 0,
            faults: 0,
        }
    }

    /// What was taken. It takes no memory.
    pub fn bytes(&self) -> &[u8]
        ensures { result.now ≡ mem_bytes self.now }
    {
        self.bytes.as_slice()
    }
}

impl Sink for MemSink {
    ghost use Rattle.std.specs.Prelude.{◌≡◌, ◌↔◌, min, length, Contains, Err, IfOk, IfErr};
    ghost use Rattle.aug_base.specs.Causes.{Ends, next};
    ghost use Rattle.aug_base.specs.Fakes.{mem_taken, sink_failing, sink_calls, sink_piece};
    ghost use Rattle.aug_base.specs.Fakes.{put_failed};
    ghost use Rattle.aug_base.specs.Sinks.{Puts};

    ghost state = { mem_taken };

    /// Fails exactly at the listed puts, and else takes the lesser of a piece's worth and what was
    /// handed in, or answers `Memory` and has changed nothing.
    fn put(&mut self, piece: &[u8]) -> Result<usize, SinkErr>
        ensures puts { Puts piece.now (mem_taken self.old) (mem_taken self.new) result }
        ensures ends { Ends (mem_taken self.old).faults (mem_taken self.new).faults }
        ensures listed { (result ≡ Err SinkErr.Failed) ↔ Contains (sink_failing self.old) (sink_calls self.old) }
        ensures takes { IfOk result (λ n. n ≡ min (sink_piece self.old) (length piece.now)) }
        ensures failed { IfErr result (λ err. err ≡ SinkErr.Failed → mem_taken self.new ≡ put_failed (mem_taken self.old)) }
        ensures memory { IfErr result (λ err. err ≡ SinkErr.Memory → mem_taken self.new ≡ mem_taken self.old) }
        ensures failing { sink_failing self.new ≡ sink_failing self.old }
        ensures calls { sink_calls self.new ≡ next (sink_calls self.old) }
        ensures piece { sink_piece self.new ≡ sink_piece self.old }
    {
        let number = self.calls;
        self.calls = number.saturating_add(1);
        if self.failing.as_slice().contains(&number) {
            self.faults = self.faults.saturating_add(1);
            return Err(SinkErr::Failed);
        }
        let count = self.piece.min(piece.len());
        match self.bytes.extend_from_slice(&piece[..count]) {
            Ok(()) => Ok(count),
            Err(_) => Err(SinkErr::Memory),
        }
    }
}
