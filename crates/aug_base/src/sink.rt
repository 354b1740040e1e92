ghost use Rattle.aug_base.specs.Causes.{Ends};
ghost use Rattle.aug_base.specs.Sinks.{Taken, Puts, PutsAll};

use crate::SinkErr;

/// Where text goes. This project's own.
///
/// A sink counts the puts that failed, and the count never falls. It may tell the bytes that it
/// has taken.
pub trait Sink {
    ghost state: { Self → Taken };

    /// Takes the first bytes of the piece, and says how many: none only of an empty piece.
    ///
    /// # Errors
    /// `Failed` only where the count of failed puts rose, and `Memory` for want of memory. After
    /// either nothing of the piece is taken.
    fn put(&mut self, piece: &[u8]) -> Result<usize, SinkErr>
        ensures puts { Puts piece.now (state self.old) (state self.new) result }
        ensures ends { Ends (state self.old).faults (state self.new).faults };
}

/// Puts all the bytes, in as many pieces as the sink likes.
///
/// # Errors
/// Those of the put that refused: `Failed` only where the count of failed puts rose, `Memory` for
/// want of memory. After either a prefix of the bytes is taken.
pub fn write_all<K: Sink>(sink: &mut K, bytes: &[u8]) -> Result<(), SinkErr>
    ensures puts_all { PutsAll bytes.now (K.state sink.old) (K.state sink.new) result }
    ensures ends { Ends (K.state sink.old).faults (K.state sink.new).faults }
{
    let mut done = 0;
    while done < bytes.len() {
        match sink.put(&bytes[done..]) {
            Ok(count) => done += count,
            Err(fault) => return Err(fault),
        }
    }
    Ok(())
}
