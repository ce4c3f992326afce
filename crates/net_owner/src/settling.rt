//! Workers that have ended are joined.
ghost use Rattle.std.specs.Prelude.{◌≡◌, ◌<◌, true, false, None, IsSome};
ghost use Rattle.crossbeam_channel.specs.Claims.{IsSeatAt, view};
ghost use Rattle.crossbeam_channel.specs.Ends.{sends_on};
ghost use Rattle.net_owner.specs.Arrivals.{arrivals, has_closed};
ghost use Rattle.net_owner.specs.Owners.{HasGiven};
ghost use Rattle.net_owner.specs.Merge.{items_of};
ghost use Rattle.net_owner.specs.Acceptors.{IsStopCounted, counted_times};
ghost use Rattle.net_owner.specs.Feeds.{has_end, number as number_of};

use crate::acceptor::{AcceptorAnswer, AcceptorJob};
use crate::item::Item;
use crate::queue::{Receipt, Sending, retire};
use crate::reader::{ReaderAnswer, ReaderJob};
use crate::worker::Worker;
use net_traits::{Halves, Incoming, OpenFault, Pair};
use std::sync::Wait;
use std::thread::Threads;

/// Joins the reader of connection `number`, whose end was taken, and takes in its pass: what was taken of it is all that its
/// half gave.
pub fn settle<R: Threads + Wait + Drop, I: Incoming + Drop, P: Drop>(
    rt: &R,
    to: &Sending<Item<P>>,
    pass: &mut Receipt<Item<P>>,
    number: u64,
    worker: Worker<ReaderJob<R, I, P>>,
) -> I
    requires channel { IsSeatAt (sends_on to.now) pass.old }
    requires owner { ((view pass.old).takes ≡ true) × ((view pass.old).sends ≡ false) }
    requires job { (sends_on worker.to ≡ sends_on to.now) × (worker.from ≡ number) }
    requires ended { has_end (items_of number_of number (view pass.old).got) ≡ true }
    ensures channel { IsSeatAt (sends_on to.now) pass.new }
    ensures owner { ((view pass.new).takes ≡ true) × ((view pass.new).sends ≡ false) }
    ensures got { (view pass.new).got ≡ (view pass.old).got }
    ensures feed { HasGiven I.told worker (items_of number_of number (view pass.old).got) result }
{
    let ReaderAnswer { half, pass: spent } = worker.join(rt);
    retire(to, pass, spent);
    half
}

/// Joins the acceptor, whose last item was taken, and takes in its pass. Answers its door, and the fault for which it stopped,
/// where it did: the connections that were taken of it are all that the door handed out.
pub fn settle_acceptor<R: Threads + Wait + Drop, D: Halves + Drop>(
    rt: &R,
    to: &Sending<Item<Pair<D::Incoming, D::Outgoing>>>,
    pass: &mut Receipt<Item<Pair<D::Incoming, D::Outgoing>>>,
    worker: Worker<AcceptorJob<R, D, Pair<D::Incoming, D::Outgoing>>>,
) -> (D, Option<OpenFault>)
    requires channel { IsSeatAt (sends_on to.now) pass.old }
    requires owner { ((view pass.old).takes ≡ true) × ((view pass.old).sends ≡ false) }
    requires job { sends_on worker.to ≡ sends_on to.now }
    requires closed { has_closed (items_of number_of 0 (view pass.old).got) ≡ true }
    ensures channel { IsSeatAt (sends_on to.now) pass.new }
    ensures owner { ((view pass.new).takes ≡ true) × ((view pass.new).sends ≡ false) }
    ensures got { (view pass.new).got ≡ (view pass.old).got }
    ensures all { result.1 ≡ None → arrivals (items_of number_of 0 (view pass.old).got) ≡ worker.count }
    ensures fewer { IsSome result.1 → arrivals (items_of number_of 0 (view pass.old).got) < worker.count }
    ensures cause { IsStopCounted (D.faults worker.door) (D.faults result.0) result.1 }
    ensures handed { D.handed result.0 ≡ counted_times (arrivals (items_of number_of 0 (view pass.old).got)) (D.handed worker.door) }
    ensures given { D.given result.0 ≡ D.given worker.door }
{
    let AcceptorAnswer {
        door,
        pass: spent,
        stopped,
    } = worker.join(rt);
    retire(to, pass, spent);
    (door, stopped)
}
