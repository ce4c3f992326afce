//! Links whose bytes wait until something was written on another link.
ghost use Rattle.std.specs.Prelude.{◌≡◌, None};

use base_io::{Failed, NoMemory};
use net_memory::Uncut;
use net_traits::{Incoming, Outgoing, Pair};
use std::alloc::Global;
use std::sync::Arc;
use std::sync::atomic::{AtomicU64, Ordering};
use std::thread;

/// How many bytes were written on a link.
pub(crate) type Written = Arc<AtomicU64>;

/// What a half gives: the header of a stream.
const HEADER: &[u8] =
    b"<stream:stream to='chat.example' version='1.0' xmlns='jabber:client' xmlns:stream='http://etherx.jabber.org/streams'>";

/// How many turns a half waits before it gives the end.
const MOST_TURNS: u32 = 1_000_000;

/// A half that gives a header, and then the end. Where it waits for another link, it gives the end after so many turns.
#[derive(Drop)]
pub(crate) struct GatedIncoming {
    waits_for: Option<Written>,
    given: bool,
    number: u64,
    ends: u64,
}

// Whether something was written.
fn is_open(waits_for: &Option<Written>) -> bool {
    let Some(written) = waits_for else {
        return true;
    };
    for _ in 0..MOST_TURNS {
        if written.load(Ordering::SeqCst) > 0 {
            return true;
        }
        thread::yield_now();
    }
    false
}

impl Incoming for GatedIncoming {
    ghost told = { λ s. record { number = s.number; read = None; left = None; faults = 0; ends = s.ends } };

    fn read(&mut self, buf: &mut [u8]) -> Result<usize, Failed> {
        if buf.is_empty() {
            return Ok(0);
        }
        if !self.given {
            self.given = true;
            if is_open(&self.waits_for) {
                let count = HEADER.len().min(buf.len());
                buf[..count].copy_from_slice(&HEADER[..count]);
                return Ok(count);
            }
        }
        self.ends = self.ends.saturating_add(1);
        Ok(0)
    }
}

/// A half that counts what is written.
#[derive(Drop)]
pub(crate) struct GatedOutgoing {
    written: Written,
    number: u64,
    closed: bool,
}

impl Outgoing for GatedOutgoing {
    ghost told = { λ s. record { number = s.number; written = None; faults = 0 } };

    ghost closed = { λ s. s.closed };

    fn write(&mut self, bytes: &[u8]) -> Result<usize, Failed> {
        let _ = self.written.fetch_add(bytes.len() as u64, Ordering::SeqCst);
        Ok(bytes.len())
    }

    fn close(&mut self) {
        self.closed = true;
    }
}

/// A gated link that is not handed out yet.
#[derive(Drop)]
pub(crate) struct GatedLink {
    pub waits_for: Option<Written>,
    pub written: Written,
}

impl Uncut for GatedLink {
    type Incoming = GatedIncoming;

    type Outgoing = GatedOutgoing;

    fn cut(
        self,
        _alloc: Global,
        number: u64,
    ) -> Result<Pair<GatedIncoming, GatedOutgoing>, NoMemory> {
        let GatedLink { waits_for, written } = self;
        let incoming = GatedIncoming {
            waits_for,
            given: false,
            number,
            ends: 0,
        };
        let outgoing = GatedOutgoing {
            written,
            number,
            closed: false,
        };
        Ok(Pair::new(incoming, outgoing))
    }
}
