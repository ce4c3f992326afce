//! The half of a TCP connection that gives bytes.
ghost use Rattle.std.specs.Prelude.{◌≡◌, Some, None, IfSome};
ghost use Rattle.std.specs.Io.{ReadsAtMost};
ghost use Rattle.std.specs.Io.KnownBytes.{ReadConsumes, WriteAppends};
ghost use Rattle.base_io.specs.Counts.{HasCause};
ghost use Rattle.net_traits.specs.Links.{counted_if, is_end};
ghost use Rattle.net_tcp.specs.Fronts.{GivesFront};

use crate::letting_go::{LetGo, let_go};
use base_io::Failed;
use base_log::Log;
use net_traits::{GivenBack, Incoming};
use std::io::{ErrorKind, Read};

/// What is kept of a link that was given back: how many of its reads failed, how many found the end, and how many of its
/// writes failed; and, for contracts alone, the bytes that its reads gave and that its writes took.
#[derive(Drop)]
pub struct Counts {
    pub read_faults: u64,
    pub ends: u64,
    pub write_faults: u64,
    pub read: Log,
    pub written: Log,
}

/// The half of a stream of the system from which bytes are read. It tells what its reads gave, and not what is left. A
/// call that was interrupted is tried again, and each other error is a fault. Behind a fault or the end it lets the system's
/// stream go, so that a link that is over holds no descriptor here; what is read then is the end. It has room with it for
/// when its link is given back.
#[derive(Drop)]
pub struct TcpIncoming<S> {
    pub(crate) stream: Option<S>,
    pub(crate) number: u64,
    pub(crate) faults: u64,
    pub(crate) ends: u64,
    pub(crate) log: Log,
    pub(crate) room: Box<GivenBack<Counts>>,
}

// Reads, and tries again where it was interrupted.
fn read_from<S: Read>(stream: &mut S, buf: &mut [u8]) -> Result<usize, Failed>
    ensures bound { ReadsAtMost result buf.new }
    ensures left { ReadConsumes (S.remaining stream.old) (S.remaining stream.new) result buf.new }
{
    // A call that is interrupted each time ends all the same.
    for _ in 0..u64::MAX {
        match stream.read(buf) {
            Ok(n) => return Ok(n),
            Err(e) if e.kind() == ErrorKind::Interrupted => {}
            Err(_) => break,
        }
    }
    Err(Failed)
}

impl<S: Read + LetGo> Incoming for TcpIncoming<S> {
    ghost told = { λ s. record { number = s.number; read = Some s.log.items; left = None; faults = s.faults; ends = s.ends } };

    #[tactic(auto, using(crate::proofs::Fronts::gives_front))]
    fn read(&mut self, buf: &mut [u8]) -> Result<usize, Failed>
        ensures bound { ReadsAtMost result buf.new }
        ensures read { WriteAppends (Some self.old.log.items) (Some self.new.log.items) result buf.new }
        ensures cause { HasCause self.old.faults self.new.faults result }
        ensures ends { self.new.ends ≡ counted_if (is_end result buf.new) self.old.ends }
        ensures number { self.new.number ≡ self.old.number }
        ensures front { IfSome self.old.stream (λ stream. GivesFront (S.remaining stream) result buf.new) }
    {
        let read = match &mut self.stream {
            Some(stream) => read_from(stream, buf),
            None => Ok(0),
        };
        match read {
            Ok(0) if !buf.is_empty() => {
                self.ends = self.ends.saturating_add(1);
                let_go(&mut self.stream);
            }
            Ok(n) => self.log.note(&buf[..n]),
            Err(_) => {
                self.faults = self.faults.saturating_add(1);
                let_go(&mut self.stream);
            }
        }
        read
    }
}
