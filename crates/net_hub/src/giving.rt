//! Readers are joined, and links given back, whatever failed.
//!
//! Which links come back. At 0, 3 and 7 of `serve` each that was handed out came back, in order. At 6, 9 and 10 those
//! come back of which a reader was started. That is said by a count: a spawner tells how many threads it started, and
//! at each status it rose by as many as links came back and one for the acceptor, or nothing was started.
ghost use Rattle.std.specs.Prelude.{◌≡◌, ◌++◌, ◌≤◌, ℕ, List, IfSome, length};
ghost use Rattle.net_hub.specs.Backs.{AreLeft, ArePaired};
ghost use Rattle.net_hub.specs.Joined.{AreMore};
ghost use Rattle.net_traits.specs.Links.{LinkView};
ghost use Rattle.net_owner.specs.StartedReaders.{readers_in};

use crate::sender::Sender;
use net_owner::{ReaderAnswer, Slot};
use net_traits::{Halves, Incoming, Outgoing, Pair};
use std::collections::VecDeque;
use std::sync::Wait;
use std::thread::Threads;

/// Joins each reader that was started, and gives its half back to the door with that to which its connection's bytes went, in
/// the order of the connections.
pub(crate) fn give_back<
    R: Threads + Wait + Drop,
    I: Incoming + Drop,
    O: Outgoing + Drop,
    D: Halves<Incoming = I, Outgoing = O>,
>(rt: &R, positions: Vec<Slot<R, I, Pair<I, O>>>, senders: Vec<Sender<O>>, door: &mut D)
    requires { ArePaired I.told O.told positions.items senders.items }
    ensures given { (links : List LinkView) × (D.given door.new ≡ D.given door.old ++ links) × AreLeft I.told O.told positions.items senders.items links }
    ensures readers { AreMore (readers_in positions.items) (D.given door.old) (D.given door.new) }
    ensures faults { D.faults door.new ≡ D.faults door.old }
    ensures handed { D.handed door.new ≡ D.handed door.old }
{
    let mut senders = VecDeque::from_vec(senders);
    for position in positions {
        match senders.pop_front() {
            Some(sender) => match position.worker {
                Some(worker) => {
                    let ReaderAnswer { half, pass: _ } = worker.join(rt);
                    door.give_back_halves(half, sender.half);
                }
                None => {}
            },
            None => match position.worker {
                Some(_) => unreachable!(),
                None => {}
            },
        }
    }
}
