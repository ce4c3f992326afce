//! Links over TCP.
ghost use Rattle.std.specs.Prelude.{◌≡◌, ◌<◌, None, length, IfOk};
ghost use Rattle.std.specs.Io.{ReadsAtMost, WritesAtMost};
ghost use Rattle.std.specs.Io.KnownBytes.{ReadConsumes, WriteAppends};
ghost use Rattle.base_io.specs.Counts.{HasCause};
ghost use Rattle.net_traits.specs.Links.{ReadsStay, WritesStay, counted_if, is_end};
ghost use Rattle.net_tcp.specs.Returns.{told_link};

use crate::returns::{Counts, Returns};
use base_io::{Failed, NoMemory};
use base_log::Log;
use net_traits::Link;
use std::alloc::Global;
use std::io::{ErrorKind, Read, Write};
use std::net::{OpenStream, Shutdown};

/// A link over a stream of the system. It tells what its reads gave and its writes took, and what is left to read where the
/// stream does, which the system's don't. A call that was interrupted is tried again, each other error is a fault, and so is
/// a write that takes none of the bytes it is given.
#[derive(Drop)]
pub struct TcpLink<S> {
    pub(crate) stream: S,
    pub(crate) counts: Counts,
    pub(crate) room: Box<Returns>,
}

impl<S: Read + Write + OpenStream + Drop> TcpLink<S> {
    ghost use Rattle.std.specs.Prelude.{◌≡◌, IfOk};
    ghost use Rattle.net_traits.specs.Links.{IsUnused};

    // The link over a stream. Nothing is read or written yet.
    pub(crate) fn new(alloc: Global, stream: S) -> Result<TcpLink<S>, NoMemory>
        ensures { IfOk result (λ link. IsUnused (told_link link.counts)) }
    {
        let room = Box::new(alloc, Returns::new())?;
        // A message goes out at once, also where it is short.
        let _ = stream.set_nodelay(true);
        Ok(TcpLink {
            stream,
            counts: Counts {
                read_faults: 0,
                write_faults: 0,
                ends: 0,
                read: Log::new(),
                written: Log::new(),
            },
            room,
        })
    }
}

// Reads, and tries again where it was interrupted.
fn read_from<S: Read>(stream: &mut S, buf: &mut [u8]) -> Result<usize, Failed>
    ensures bound { ReadsAtMost result buf.new }
    ensures left { ReadConsumes (S.remaining stream.old) (S.remaining stream.new) result buf.new }
{
    // A call that is interrupted each time ends all the same.
    for _ in 0..u64::MAX {
        match stream.read(buf) {
            Ok(n) => return Ok(n),
            Err(e) if e.kind() == ErrorKind::Interrupted => {}
            Err(_) => break,
        }
    }
    Err(Failed)
}

// Writes, and tries again where it was interrupted. A write that takes none of the bytes that there are fails.
fn write_to<S: Write>(stream: &mut S, bytes: &[u8]) -> Result<usize, Failed>
    ensures bound { WritesAtMost result bytes.now }
    ensures some { IfOk result (λ n. 0 < length bytes.now → 0 < n) }
    ensures writer { WriteAppends (S.contents stream.old) (S.contents stream.new) result bytes.now }
{
    for _ in 0..u64::MAX {
        match stream.write(bytes) {
            Ok(n) if n > 0 || bytes.is_empty() => return Ok(n),
            Err(e) if e.kind() == ErrorKind::Interrupted => {}
            _ => break,
        }
    }
    Err(Failed)
}

impl<S: Read + Write + OpenStream> Link for TcpLink<S> {
    ghost told = { λ s. told_link s.counts };

    ghost left = { λ s. S.remaining s.stream };

    fn read(&mut self, buf: &mut [u8]) -> Result<usize, Failed> {
        let read = read_from(&mut self.stream, buf);
        match read {
            Ok(0) if !buf.is_empty() => self.counts.ends = self.counts.ends.saturating_add(1),
            Ok(n) => self.counts.read.note(&buf[..n]),
            Err(_) => self.counts.read_faults = self.counts.read_faults.saturating_add(1),
        }
        read
    }

    fn write(&mut self, bytes: &[u8]) -> Result<usize, Failed>
        ensures bound { WritesAtMost result bytes.now }
        ensures written { WriteAppends (told_link self.old.counts).written (told_link self.new.counts).written result bytes.now }
        ensures silent { (told_link self.old.counts).written ≡ None → (told_link self.new.counts).written ≡ None }
        ensures some { IfOk result (λ n. 0 < length bytes.now → 0 < n) }
        ensures cause { HasCause (told_link self.old.counts).write_faults (told_link self.new.counts).write_faults result }
        ensures reads { ReadsStay (told_link self.old.counts) (told_link self.new.counts) }
        ensures writer { WriteAppends (S.contents self.old.stream) (S.contents self.new.stream) result bytes.now }
    {
        let written = write_to(&mut self.stream, bytes);
        match written {
            Ok(n) => self.counts.written.note(&bytes[..n]),
            Err(_) => self.counts.write_faults = self.counts.write_faults.saturating_add(1),
        }
        written
    }

    fn close(&mut self) {
        // What was written still goes out. An error tells that the other end is gone.
        let _ = self.stream.shutdown(Shutdown::Write);
    }
}
