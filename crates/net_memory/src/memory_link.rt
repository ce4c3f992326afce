//! Links in memory, in halves.
ghost use Rattle.std.specs.Prelude.{◌≤◌, ◌≡◌};

use crate::link::MemoryLink;
use crate::link_half::{ReadingHalf, WritingHalf};
use crate::uncut::Uncut;
use base_io::{Bytes, NoMemory, Numbers};
use net_traits::Pair;
use std::alloc::Global;

/// A link over bytes in memory that is not handed out yet.
#[derive(Drop)]
pub struct UncutMemoryLink {
    bytes: Bytes,
    step: usize,
    fails: Numbers,
    ghost some: { 1 ≤ step },
}

impl UncutMemoryLink {
    /// A link whose one half has `bytes` to give, at most `step` of them a call, and whose other half takes at most `step` a
    /// call. Each half numbers its calls from 1, and those in `fails` answer `Failed`, and give and take nothing.
    pub fn new(bytes: Bytes, step: usize, fails: Numbers) -> UncutMemoryLink
        requires { 1 ≤ step }
    {
        UncutMemoryLink { bytes, step, fails }
    }
}

impl Uncut for UncutMemoryLink {
    type Incoming = ReadingHalf<MemoryLink>;

    type Outgoing = WritingHalf<MemoryLink>;

    fn cut(
        self,
        alloc: Global,
        number: u64,
    ) -> Result<Pair<ReadingHalf<MemoryLink>, WritingHalf<MemoryLink>>, NoMemory> {
        let UncutMemoryLink { bytes, step, fails } = self;
        let same = fails.copy(alloc)?;
        let read = MemoryLink::new(alloc, bytes, step, fails)?;
        let written = MemoryLink::new(alloc, Bytes::new(alloc), step, same)?;
        let incoming = ReadingHalf { link: read, number };
        let outgoing = WritingHalf {
            link: written,
            number,
            closed: false,
        };
        Ok(Pair::new(incoming, outgoing))
    }
}
