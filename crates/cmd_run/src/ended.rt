//! Links that end at once.
ghost use Rattle.std.specs.Prelude.{◌≡◌, None};

use base_io::{Failed, NoMemory};
use net_memory::Uncut;
use net_traits::{Incoming, Outgoing, Pair};
use std::alloc::Global;

/// A half that gives its end.
#[derive(Drop)]
pub(crate) struct EndedIncoming {
    number: u64,
    ends: u64,
}

impl Incoming for EndedIncoming {
    ghost told = { λ s. record { number = s.number; read = None; left = None; faults = 0; ends = s.ends } };

    fn read(&mut self, buf: &mut [u8]) -> Result<usize, Failed> {
        if !buf.is_empty() {
            self.ends = self.ends.saturating_add(1);
        }
        Ok(0)
    }
}

/// A half that takes all bytes.
#[derive(Drop)]
pub(crate) struct OpenOutgoing {
    number: u64,
    closed: bool,
}

impl Outgoing for OpenOutgoing {
    ghost told = { λ s. record { number = s.number; written = None; faults = 0 } };

    ghost closed = { λ s. s.closed };

    fn write(&mut self, bytes: &[u8]) -> Result<usize, Failed> {
        Ok(bytes.len())
    }

    fn close(&mut self) {
        self.closed = true;
    }
}

/// Such a link that is not handed out yet. Where it starves, there is no memory for it.
#[derive(Drop)]
pub(crate) struct EndedLink {
    pub(crate) starves: bool,
}

impl Uncut for EndedLink {
    type Incoming = EndedIncoming;

    type Outgoing = OpenOutgoing;

    fn cut(
        self,
        _alloc: Global,
        number: u64,
    ) -> Result<Pair<EndedIncoming, OpenOutgoing>, NoMemory> {
        if self.starves {
            return Err(NoMemory);
        }
        let outgoing = OpenOutgoing {
            number,
            closed: false,
        };
        Ok(Pair::new(EndedIncoming { number, ends: 0 }, outgoing))
    }
}
