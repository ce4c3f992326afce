//! The job of a writer.
ghost use Rattle.std.specs.Prelude.{◌≡◌, true, false, []};
ghost use Rattle.crossbeam_channel.specs.Claims.{IsSeatAt, view};
ghost use Rattle.crossbeam_channel.specs.Ends.{receives_on};
ghost use Rattle.net_queues.specs.Rule.{side};

use crate::parcel::Parcel;
use net_queues::{Consumer, QueuePass};

/// What the writer of a connection works with: its half, the queue, and its pass, which has taken nothing.
#[derive(Drop)]
pub struct WriterJob<R: Drop, O: Drop> {
    pub rt: R,
    pub half: O,
    pub at: Consumer<Parcel>,
    pub pass: QueuePass<Parcel>,
    ghost seat: { IsSeatAt (receives_on at) pass },
    ghost unused: { view pass ≡ side false true [] [] },
}

/// What a writer gives back in the end.
#[derive(Drop)]
pub struct WriterAnswer<O: Drop> {
    pub half: O,
    pub pass: QueuePass<Parcel>,
}

impl<R: Drop, O: Drop> WriterJob<R, O> {
    /// The job of a writer to this half.
    pub fn new(rt: R, half: O, at: Consumer<Parcel>, pass: QueuePass<Parcel>) -> WriterJob<R, O>
        requires { IsSeatAt (receives_on at) pass × (view pass ≡ side false true [] []) }
        ensures half { result.half ≡ half }
        ensures at { result.at ≡ at }
    {
        WriterJob { rt, half, at, pass }
    }
}
