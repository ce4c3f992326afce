//! The job of the acceptor.
ghost use Rattle.std.specs.Prelude.{◌≡◌};
ghost use Rattle.crossbeam_channel.specs.Claims.{IsSeatAt, view};
ghost use Rattle.crossbeam_channel.specs.Ends.{sends_on};
ghost use Rattle.net_owner.specs.Rule.{sender};

use crate::item::Item;
use crate::queue::{Receipt, Sending};
use net_traits::OpenFault;

/// What the acceptor works with: the door, the queue, its pass, which has sent nothing, and how many connections it is to
/// take in.
#[derive(Drop)]
pub struct AcceptorJob<R: Drop, D: Drop, P: Drop> {
    pub rt: R,
    pub door: D,
    pub to: Sending<Item<P>>,
    pub pass: Receipt<Item<P>>,
    pub count: u32,
    ghost seat: { IsSeatAt (sends_on to) pass },
    ghost unused: { view pass ≡ sender 0 },
}

/// What the acceptor gives back in the end, and the fault for which it stopped before it had taken in as many as it was to.
#[derive(Drop)]
pub struct AcceptorAnswer<D: Drop, P: Drop> {
    pub door: D,
    pub pass: Receipt<Item<P>>,
    pub stopped: Option<OpenFault>,
}

impl<R: Drop, D: Drop, P: Drop> AcceptorJob<R, D, P> {
    /// The job of the acceptor, which takes in `count` connections.
    pub fn new(
        rt: R,
        door: D,
        to: Sending<Item<P>>,
        pass: Receipt<Item<P>>,
        count: u32,
    ) -> AcceptorJob<R, D, P>
        requires { IsSeatAt (sends_on to) pass × (view pass ≡ sender 0) }
        ensures door { result.door ≡ door }
        ensures to { result.to ≡ to }
        ensures count { result.count ≡ count }
    {
        AcceptorJob {
            rt,
            door,
            to,
            pass,
            count,
        }
    }
}
