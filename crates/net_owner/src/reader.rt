//! The job of a reader.
ghost use Rattle.std.specs.Prelude.{◌≡◌};
ghost use Rattle.crossbeam_channel.specs.Claims.{IsSeatAt, view};
ghost use Rattle.crossbeam_channel.specs.Ends.{sends_on};
ghost use Rattle.net_owner.specs.Rule.{sender};

use crate::item::Item;
use crate::queue::{Receipt, Sending};
use std::alloc::Global;

/// What the reader of a connection works with: its half, the queue, and its pass, which has sent nothing.
#[derive(Drop)]
pub struct ReaderJob<R: Drop, I: Drop, P: Drop> {
    pub rt: R,
    pub alloc: Global,
    pub half: I,
    pub to: Sending<Item<P>>,
    pub pass: Receipt<Item<P>>,
    pub from: u64,
    ghost seat: { IsSeatAt (sends_on to) pass },
    ghost unused: { view pass ≡ sender from },
}

/// What a reader gives back in the end.
#[derive(Drop)]
pub struct ReaderAnswer<I: Drop, P: Drop> {
    pub half: I,
    pub pass: Receipt<Item<P>>,
}

impl<R: Drop, I: Drop, P: Drop> ReaderJob<R, I, P> {
    /// The job of the reader of connection `from`.
    pub fn new(
        rt: R,
        alloc: Global,
        half: I,
        to: Sending<Item<P>>,
        pass: Receipt<Item<P>>,
        from: u64,
    ) -> ReaderJob<R, I, P>
        requires { IsSeatAt (sends_on to) pass × (view pass ≡ sender from) }
        ensures from { result.from ≡ from }
        ensures to { result.to ≡ to }
        ensures half { result.half ≡ half }
    {
        ReaderJob {
            rt,
            alloc,
            half,
            to,
            pass,
            from,
        }
    }
}
