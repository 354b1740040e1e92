ghost use Rattle.std.specs.Prelude.{◌≤◌, ◌≡◌, length, take, IfOk, IfSome, IsNone};
ghost use Rattle.aug_base.specs.Causes.{Rose};
ghost use Rattle.aug_base.specs.Sinks.{Grows};

use crate::{Sink, SinkErr, Stream, SystemErr};
use std::io;
use std::io::{ErrorKind, Write};

/// The system's writes to standard output. It tells nothing of what was taken.
///
/// It is an edge of the product: that the system does what it is asked is taken on trust.
#[derive(Drop)]
pub struct StdStream<R: Print> {
    rt: R,
    faults: u64,
}

/// Standard output, over the stream that the system gives.
#[derive(Drop)]
pub struct StdSink<S: Stream> {
    stream: S,
    faults: u64,
}

/// One write; a write that takes nothing of bytes that there are has failed.
fn write_once<R: Print>(rt: &R, piece: &[u8]) -> io::Result<usize>
    ensures within { IfOk result (λ n. n ≤ length piece.now) }
    ensures some { IfOk result (λ n. n ≡ 0 → length piece.now ≡ 0) }
{
    let count = io::writer(rt).write(piece)?;
    if count == 0 && !piece.is_empty() {
        return Err(io::Error::from(ErrorKind::WriteZero));
    }
    Ok(count)
}

impl<R: Print> Stream for StdStream<R> {
    ghost use Rattle.aug_base.specs.Edges.{std_stream};

    ghost state = { std_stream };

    fn write(&mut self, piece: &[u8]) -> Result<usize, SystemErr> {
        match write_once(&self.rt, piece) {
            Ok(count) => Ok(count),
            Err(error) => {
                self.faults = self.faults.saturating_add(1);
                if error.kind() == ErrorKind::Interrupted {
                    Err(SystemErr::Interrupted)
                } else {
                    Err(SystemErr::Failed)
                }
            }
        }
    }
}

impl<R: Print> StdSink<StdStream<R>> {
    ghost use Rattle.std.specs.Prelude.{None};
    ghost use Rattle.aug_base.specs.Edges.{std_stream, std_taken, stream_of};

    /// The standard output that the runtime gives, and no fault is counted. It takes no memory.
    pub fn new(rt: R) -> StdSink<StdStream<R>>
        ensures { std_taken (std_stream (stream_of result)).bytes result ≡ record { faults = 0; bytes = None } }
    {
        let stream = StdStream { rt, faults: 0 };
        StdSink { stream, faults: 0 }
    }
}

/// How much of the piece was taken, asked again where a signal broke in; none where a write
/// refused.
fn put_some<S: Stream>(stream: &mut S, piece: &[u8]) -> Option<usize>
    ensures within { IfSome result (λ n. n ≤ length piece.now) }
    ensures some { IfSome result (λ n. n ≡ 0 → length piece.now ≡ 0) }
    ensures later { (S.state stream.old).faults ≤ (S.state stream.new).faults }
    ensures ok { IfSome result (λ n. Grows (take n piece.now) (S.state stream.old).bytes (S.state stream.new).bytes) }
    ensures err { IsNone result → (S.state stream.new).bytes ≡ (S.state stream.old).bytes }
    ensures failed { IsNone result → Rose (S.state stream.old).faults (S.state stream.new).faults }
{
    for _ in 0..u64::MAX {
        match stream.write(piece) {
            Ok(count) => return Some(count),
            Err(SystemErr::Interrupted) => {}
            Err(_) => return None,
        }
    }
    stream.write(piece).ok()
}

impl<S: Stream> Sink for StdSink<S> {
    ghost use Rattle.std.specs.Prelude.{IfErr};
    ghost use Rattle.aug_base.specs.Causes.{Ends, Rose};
    ghost use Rattle.aug_base.specs.Edges.{sink_faults, std_taken, stream_of};
    ghost use Rattle.aug_base.specs.Sinks.{Puts};

    ghost state = { λ sink. std_taken (S.state (stream_of sink)).bytes sink };

    /// One write to the system, again where a signal broke into it. `Failed` where it refused, or
    /// took nothing of bytes that there were; never `Memory`.
    fn put(&mut self, piece: &[u8]) -> Result<usize, SinkErr>
        ensures puts { Puts piece.now (std_taken (S.state (stream_of self.old)).bytes self.old) (std_taken (S.state (stream_of self.new)).bytes self.new) result }
        ensures ends { Ends (sink_faults self.old) (sink_faults self.new) }
        ensures cause { IfErr result (λ err. Rose (S.state (stream_of self.old)).faults (S.state (stream_of self.new)).faults) }
    {
        match put_some(&mut self.stream, piece) {
            Some(count) => Ok(count),
            None => {
                self.faults = self.faults.saturating_add(1);
                Err(SinkErr::Failed)
            }
        }
    }
}
