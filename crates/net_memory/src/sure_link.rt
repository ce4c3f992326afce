//! Links that never fail.
ghost use Rattle.std.specs.Prelude.{◌≡◌, Some};
ghost use Rattle.net_memory.specs.InMemory.{sure_link, sure_told};

use crate::unread::Unread;
use base_io::{Bytes, Failed};
use net_traits::Link;
use std::marker::Model;

/// A link over bytes in memory, which tells those that were read. It takes all that it is given, keeps nothing of it and
/// doesn't tell it, and no call fails.
#[derive(Drop)]
pub struct SureLink {
    unread: Unread,
    ends: u64,
}

impl Model for SureLink {
    ghost use Rattle.net_memory.specs.InMemory.{SureLinkView};

    ghost Value = { SureLinkView };

    ghost view = { λ s. record { given = s.unread.given; left = s.unread.left; ends = s.ends } };
}

impl SureLink {
    /// A link that has `bytes` to give.
    pub fn new(bytes: Bytes) -> SureLink
        ensures { result ≡ sure_link bytes.items }
    {
        SureLink {
            unread: Unread::new(bytes),
            ends: 0,
        }
    }
}

impl Link for SureLink {
    ghost told = { sure_told };

    ghost left = { λ s. Some s.left };

    fn read(&mut self, buf: &mut [u8]) -> Result<usize, Failed> {
        let n = self.unread.give(usize::MAX, buf);
        if n == 0 && !buf.is_empty() {
            self.ends = self.ends.saturating_add(1);
        }
        Ok(n)
    }

    fn write(&mut self, bytes: &[u8]) -> Result<usize, Failed> {
        Ok(bytes.len())
    }

    fn close(&mut self) {}
}
