//! How the acceptor works.
ghost use Rattle.std.specs.Prelude.{◌≡◌, ◌≤◌, ◌<◌, true, length, None, IsSome};
ghost use Rattle.crossbeam_channel.specs.Claims.{IsSeatAt, view};
ghost use Rattle.crossbeam_channel.specs.Ends.{sends_on};
ghost use Rattle.net_owner.specs.Rule.{sender};
ghost use Rattle.net_owner.specs.Acceptors.{HasAccepted, IsStopCounted, are_arrivals, counted_times};
ghost use Rattle.net_owner.specs.Feeds.{has_sent};

use crate::acceptor::{AcceptorAnswer, AcceptorJob};
use crate::item::{Item, What};
use crate::job::Job;
use crate::queue::{Receipt, Sending, post};
use net_traits::{Halves, OpenFault, Pair};
use std::sync::Wait;

// Takes in connections and sends them, until there are `count` of them or there is a fault, which is answered.
fn accept_all<R: Wait, D: Halves>(
    rt: &R,
    door: &mut D,
    to: &Sending<Item<Pair<D::Incoming, D::Outgoing>>>,
    pass: &mut Receipt<Item<Pair<D::Incoming, D::Outgoing>>>,
    count: u32,
) -> Option<OpenFault>
    requires channel { IsSeatAt (sends_on to.now) pass.old }
    requires unused { view pass.old ≡ sender 0 }
    ensures channel { IsSeatAt (sends_on to.now) pass.new }
    ensures shape { view pass.new ≡ has_sent 0 (view pass.new).put }
    ensures arrivals { are_arrivals (view pass.new).put ≡ true }
    ensures most { length (view pass.new).put ≤ count }
    ensures all { result ≡ None → length (view pass.new).put ≡ count }
    ensures fewer { IsSome result → length (view pass.new).put < count }
    ensures cause { IsStopCounted (D.faults door.old) (D.faults door.new) result }
    ensures handed { D.handed door.new ≡ counted_times (length (view pass.new).put) (D.handed door.old) }
    ensures given { D.given door.new ≡ D.given door.old }
{
    let mut taken: u32 = 0;
    while taken < count {
        match door.accept_halves() {
            Ok(pair) => {
                let what = What::Came(pair);
                post(rt, to, pass, Item { from: 0, what });
                taken += 1;
            }
            Err(fault) => return Some(fault),
        }
    }
    None
}

impl<R: Wait + Drop, D: Halves + Drop> Job for AcceptorJob<R, D, Pair<D::Incoming, D::Outgoing>> {
    type Answer = AcceptorAnswer<D, Pair<D::Incoming, D::Outgoing>>;

    ghost keeps = { HasAccepted D.faults D.handed D.given };

    fn work(self) -> AcceptorAnswer<D, Pair<D::Incoming, D::Outgoing>> {
        let AcceptorJob {
            rt,
            mut door,
            to,
            mut pass,
            count,
        } = self;
        let stopped = accept_all(&rt, &mut door, &to, &mut pass, count);
        let what = What::Closed;
        post(&rt, &to, &mut pass, Item { from: 0, what });
        AcceptorAnswer {
            door,
            pass,
            stopped,
        }
    }
}
