//! Readers that have ended are joined, and their links given back: of each, what it brought and what went out on it.
ghost use Rattle.std.specs.Prelude.{◌≡◌, ◌<◌, ◌^◌, ◌++◌, true, false, ℕ, List, length};
ghost use Rattle.crossbeam_channel.specs.Claims.{IsSeatAt, view};
ghost use Rattle.crossbeam_channel.specs.Ends.{sends_on};
ghost use Rattle.net_hub.specs.Backs.{AreBack, AreReady};
ghost use Rattle.net_traits.specs.Links.{LinkView};

use crate::sender::Sender;
use net_owner::{Item, Receipt, Sending, Slot, settle};
use net_traits::{Halves, Incoming, Outgoing, Pair};
use std::collections::VecDeque;
use std::sync::Wait;
use std::thread::Threads;

/// Joins the readers, of each of which the end was taken, and gives the halves back to the door, in the order of the
/// connections.
pub(crate) fn settle_all<
    R: Threads + Wait + Drop,
    I: Incoming + Drop,
    O: Outgoing + Drop,
    D: Halves<Incoming = I, Outgoing = O>,
>(
    rt: &R,
    to: &Sending<Item<Pair<I, O>>>,
    pass: &mut Receipt<Item<Pair<I, O>>>,
    positions: Vec<Slot<R, I, Pair<I, O>>>,
    senders: Vec<Sender<O>>,
    door: &mut D,
)
    requires channel { IsSeatAt (sends_on to.now) pass.old }
    requires owner { ((view pass.old).takes ≡ true) × ((view pass.old).sends ≡ false) }
    requires ready { AreReady I.told O.told (view pass.old).got (λ job. sends_on job.to ≡ sends_on to.now) 1 positions.items senders.items }
    requires few { length positions.items < 2 ^ 63 }
    ensures back { (links : List LinkView) × (D.given door.new ≡ D.given door.old ++ links) × AreBack I.told O.told (view pass.old).got 1 positions.items senders.items links }
    ensures faults { D.faults door.new ≡ D.faults door.old }
    ensures handed { D.handed door.new ≡ D.handed door.old }
{
    let mut senders = VecDeque::from_vec(senders);
    let mut number: u64 = 0;
    for position in positions {
        number += 1;
        match senders.pop_front() {
            Some(sender) => match position.worker {
                Some(worker) => {
                    let half = settle(rt, to, pass, number, worker);
                    door.give_back_halves(half, sender.half);
                }
                None => unreachable!(),
            },
            None => unreachable!(),
        }
    }
}
