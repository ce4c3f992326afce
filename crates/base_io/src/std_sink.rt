//! A sink over a writer of std.
ghost use Rattle.std.specs.Prelude.{◌<◌, length, Some, IfOk};
ghost use Rattle.std.specs.Io.{WritesAtMost};
ghost use Rattle.std.specs.Io.KnownBytes.{WriteAppends};
ghost use Rattle.base_io.specs.Counts.{HasCause};

use crate::fault::Failed;
use crate::sink::Sink;
use base_log::Log;
use std::io;

/// A sink over a writer of std. It tells what the writer took. A write that was interrupted is tried again, each other error of the writer is a
/// fault, and so is a write that takes none of the bytes it is given.
#[derive(Drop)]
pub struct StdSink<W> {
    inner: W,
    faults: u64,
    log: Log,
}

impl<W: io::Write> StdSink<W> {
    ghost use Rattle.std.specs.Prelude.{◌≡◌, [], Some};

    /// The sink over `inner`. Nothing is written yet.
    pub fn new(inner: W) -> StdSink<W>
        ensures written { ⟦<StdSink<W> as Sink>⟧.written result ≡ Some [] }
        ensures faults { ⟦<StdSink<W> as Sink>⟧.faults result ≡ 0 }
    {
        StdSink {
            inner,
            faults: 0,
            log: Log::new(),
        }
    }
}

impl<W: io::Write> Sink for StdSink<W> {
    ghost written = { λ s. Some s.log.items };

    ghost faults = { λ s. s.faults };

    fn write(&mut self, bytes: &[u8]) -> Result<usize, Failed>
        ensures bound { WritesAtMost result bytes.now }
        ensures bytes { WriteAppends (Some self.old.log.items) (Some self.new.log.items) result bytes.now }
        ensures writer { WriteAppends (W.contents self.old.inner) (W.contents self.new.inner) result bytes.now }
        ensures some { IfOk result (λ n. 0 < length bytes.now → 0 < n) }
        ensures cause { HasCause self.old.faults self.new.faults result }
    {
        // A call that is interrupted each time ends all the same.
        for _ in 0..u64::MAX {
            match self.inner.write(bytes) {
                Ok(n) if n > 0 || bytes.is_empty() => {
                    self.log.note(&bytes[..n]);
                    return Ok(n);
                }
                Err(e) if e.kind() == io::ErrorKind::Interrupted => {}
                _ => break,
            }
        }
        self.faults = self.faults.saturating_add(1);
        Err(Failed)
    }
}
