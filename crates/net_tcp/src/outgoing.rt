//! The half of a TCP connection that takes bytes.
ghost use Rattle.std.specs.Prelude.{◌≡◌, ◌<◌, Some, length, IfOk, IfSome, is_none};
ghost use Rattle.std.specs.Io.{WritesAtMost};
ghost use Rattle.std.specs.Io.KnownBytes.{WriteAppends};
ghost use Rattle.base_io.specs.Counts.{HasCause};

use crate::letting_go::{LetGo, let_go};
use base_io::Failed;
use base_log::Log;
use net_traits::Outgoing;
use std::io::{ErrorKind, Write};
use std::net::{OpenStream, Shutdown};

/// The half of a stream of the system to which bytes are written. It tells what its writes took, which is what its stream
/// took. A call that was interrupted is tried again, each other error is a fault, and so is a write that takes none of the
/// bytes it is given, and each behind the link's end. Then the system's stream is let go, so that a link that is over holds no
/// descriptor here.
#[derive(Drop)]
pub struct TcpOutgoing<S> {
    pub(crate) stream: Option<S>,
    pub(crate) number: u64,
    pub(crate) faults: u64,
    pub(crate) log: Log,
}

// Writes, and tries again where it was interrupted. A write that takes none of the bytes that there are fails.
fn write_to<S: Write>(stream: &mut S, bytes: &[u8]) -> Result<usize, Failed>
    ensures bound { WritesAtMost result bytes.now }
    ensures some { IfOk result (λ n. 0 < length bytes.now → 0 < n) }
    ensures writer { WriteAppends (S.contents stream.old) (S.contents stream.new) result bytes.now }
{
    for _ in 0..u64::MAX {
        match stream.write(bytes) {
            Ok(n) if n > 0 || bytes.is_empty() => return Ok(n),
            Err(e) if e.kind() == ErrorKind::Interrupted => {}
            _ => break,
        }
    }
    Err(Failed)
}

impl<S: Write + OpenStream + LetGo> Outgoing for TcpOutgoing<S> {
    ghost told = { λ s. record { number = s.number; written = Some s.log.items; faults = s.faults } };

    ghost closed = { λ s. is_none s.stream };

    fn write(&mut self, bytes: &[u8]) -> Result<usize, Failed>
        ensures bound { WritesAtMost result bytes.now }
        ensures written { WriteAppends (Some self.old.log.items) (Some self.new.log.items) result bytes.now }
        ensures some { IfOk result (λ n. 0 < length bytes.now → 0 < n) }
        ensures cause { HasCause self.old.faults self.new.faults result }
        ensures number { self.new.number ≡ self.old.number }
        ensures closed { is_none self.new.stream ≡ is_none self.old.stream }
        ensures writer { IfSome self.old.stream (λ old. IfSome self.new.stream (λ new. WriteAppends (S.contents old) (S.contents new) result bytes.now)) }
    {
        let written = match &mut self.stream {
            Some(stream) => write_to(stream, bytes),
            None => Err(Failed),
        };
        match written {
            Ok(n) => self.log.note(&bytes[..n]),
            Err(_) => self.faults = self.faults.saturating_add(1),
        }
        written
    }

    fn close(&mut self) {
        // What was written still goes out. An error tells that the other end is gone.
        if let Some(stream) = &self.stream {
            let _ = stream.shutdown(Shutdown::Both);
        }
        let_go(&mut self.stream);
    }
}
