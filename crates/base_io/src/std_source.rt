//! A source over a reader of std.
//!
//! An interrupted read or write of the system is tried again, and is no fault.
ghost use Rattle.std.specs.Prelude.{Some};
ghost use Rattle.std.specs.Io.{ReadsAtMost};
ghost use Rattle.std.specs.Io.KnownBytes.{ReadConsumes, WriteAppends};
ghost use Rattle.base_io.specs.Counts.{HasCause};

use crate::fault::Failed;
use crate::source::Source;
use base_log::Log;
use std::io;

/// A source over a reader of std. It tells what the reader gave, and of what is left what the reader tells: one in
/// memory does, the system's files and pipes don't. A read that was interrupted is tried again, and each other error
/// of the reader is a fault.
#[derive(Drop)]
pub struct StdSource<R> {
    inner: R,
    faults: u64,
    log: Log,
}

impl<R: io::Read> StdSource<R> {
    ghost use Rattle.std.specs.Prelude.{◌≡◌, []};

    /// The source over `inner`. Nothing is read yet.
    pub fn new(inner: R) -> StdSource<R>
        ensures given { ⟦<StdSource<R> as Source>⟧.given result ≡ [] }
        ensures left { ⟦<StdSource<R> as Source>⟧.left result ≡ R.remaining inner }
        ensures faults { ⟦<StdSource<R> as Source>⟧.faults result ≡ 0 }
    {
        StdSource {
            inner,
            faults: 0,
            log: Log::new(),
        }
    }
}

impl<R: io::Read> Source for StdSource<R> {
    ghost given = { λ s. s.log.items };

    ghost left = { λ s. R.remaining s.inner };

    ghost faults = { λ s. s.faults };

    fn read(&mut self, buf: &mut [u8]) -> Result<usize, Failed>
        ensures bound { ReadsAtMost result buf.new }
        ensures given { WriteAppends (Some self.old.log.items) (Some self.new.log.items) result buf.new }
        ensures bytes { ReadConsumes (R.remaining self.old.inner) (R.remaining self.new.inner) result buf.new }
        ensures cause { HasCause self.old.faults self.new.faults result }
    {
        // A call that is interrupted each time ends all the same.
        for _ in 0..u64::MAX {
            match self.inner.read(buf) {
                Ok(n) => {
                    self.log.note(&buf[..n]);
                    return Ok(n);
                }
                Err(e) if e.kind() == io::ErrorKind::Interrupted => {}
                Err(_) => break,
            }
        }
        self.faults = self.faults.saturating_add(1);
        Err(Failed)
    }
}
