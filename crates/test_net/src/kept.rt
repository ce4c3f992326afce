//! Links in memory that keep what is written on them.
ghost use Rattle.std.specs.Prelude.{◌≡◌, None};

use base_io::{Bytes, Failed, NoMemory, Numbers};
use net_memory::{MemoryLink, ReadingHalf, Uncut};
use net_traits::{Outgoing, Pair};
use std::alloc::Global;

/// A half that keeps what is written, so many bytes a call at most. One call fails, by its number from 1, or none, and each
/// behind its close.
#[derive(Drop)]
pub(crate) struct KeptOutgoing {
    written: Bytes,
    step: usize,
    calls: u64,
    fails: u64,
    number: u64,
    faults: u64,
    closed: bool,
}

impl KeptOutgoing {
    /// What was written.
    pub(crate) fn written(&self) -> &[u8] {
        self.written.as_slice()
    }
}

impl Outgoing for KeptOutgoing {
    ghost told = { λ s. record { number = s.number; written = None; faults = s.faults } };

    ghost closed = { λ s. s.closed };

    fn write(&mut self, bytes: &[u8]) -> Result<usize, Failed> {
        self.calls = self.calls.saturating_add(1);
        let count = bytes.len().min(self.step.max(1));
        let works = self.calls != self.fails && !self.closed;
        if works && self.written.append(&bytes[..count]).is_ok() {
            return Ok(count);
        }
        self.faults = self.faults.saturating_add(1);
        Err(Failed)
    }

    fn close(&mut self) {
        self.closed = true;
    }
}

/// A link that is not handed out yet: what it has to give, how many bytes it gives and takes a call at most, and which read and
/// which write fail, by their numbers from 1, or 0.
#[derive(Drop)]
pub(crate) struct KeptLink {
    pub bytes: Bytes,
    pub step: usize,
    pub read_fails: u64,
    pub write_fails: u64,
}

impl Uncut for KeptLink {
    type Incoming = ReadingHalf<MemoryLink>;

    type Outgoing = KeptOutgoing;

    fn cut(
        self,
        alloc: Global,
        number: u64,
    ) -> Result<Pair<ReadingHalf<MemoryLink>, KeptOutgoing>, NoMemory> {
        let KeptLink {
            bytes,
            step,
            read_fails,
            write_fails,
        } = self;
        let mut fails = Numbers::new(alloc);
        fails.push(read_fails)?;
        let link = MemoryLink::new(alloc, bytes, step.max(1), fails)?;
        let incoming = ReadingHalf { link, number };
        let outgoing = KeptOutgoing {
            written: Bytes::new(alloc),
            step,
            calls: 0,
            fails: write_fails,
            number,
            faults: 0,
            closed: false,
        };
        Ok(Pair::new(incoming, outgoing))
    }
}
