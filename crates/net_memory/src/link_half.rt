//! Halves that are made of links.
ghost use Rattle.std.specs.Prelude.{◌≡◌};

use base_io::Failed;
use net_traits::{Incoming, Link, Outgoing};

/// A half that reads from a link, to which nothing is written.
#[derive(Drop)]
pub struct ReadingHalf<L> {
    pub link: L,
    pub number: u64,
}

impl<L: Link> Incoming for ReadingHalf<L> {
    ghost told = { λ s. record {
      number = s.number;
      read = (L.told s.link).read;
      left = L.left s.link;
      faults = (L.told s.link).read_faults;
      ends = (L.told s.link).ends;
    } };

    fn read(&mut self, buf: &mut [u8]) -> Result<usize, Failed> {
        self.link.read(buf)
    }
}

/// A half that writes to a link, from which nothing is read.
#[derive(Drop)]
pub struct WritingHalf<L> {
    pub link: L,
    pub number: u64,
    pub closed: bool,
}

impl<L: Link> Outgoing for WritingHalf<L> {
    ghost told = { λ s. record {
      number = s.number;
      written = (L.told s.link).written;
      faults = (L.told s.link).write_faults;
    } };

    ghost closed = { λ s. s.closed };

    fn write(&mut self, bytes: &[u8]) -> Result<usize, Failed> {
        self.link.write(bytes)
    }

    fn close(&mut self) {
        self.link.close();
        self.closed = true;
    }
}
