//! The calls of the queue, one for each kind of step.
//!
//! The door may be gone where a thread could not be started. `post` and `take` try again whatever ended a call
//! without its step; no clause of the channel says when it is cut off.
ghost use Rattle.std.specs.Prelude.{◌≡◌, ◌<◌, ◌++◌, true, false, List, [], IfOk};
ghost use Rattle.crossbeam_channel.specs.Claims.{view, IsSeatAt};
ghost use Rattle.crossbeam_channel.specs.Ends.{sends_on, receives_on};
ghost use Rattle.net_owner.specs.Merge.{items_of};
ghost use Rattle.net_owner.specs.Rule.{owner, sender, with_got, with_more, with_put, with_told};

use crate::rule::{Fresh, Hire, InOrder, Known, Put, Retire, Sent, Took};
use crossbeam_channel::{Pass, RuledReceiver, RuledSender, bounded_with};
use std::alloc::{AllocError, Global};
use std::sync::Wait;
use std::thread;

/// The end of the queue by which items are sent.
pub type Sending<T> = RuledSender<T, Known<T>, InOrder>;

/// The end by which the owner takes them.
pub type Receiving<T> = RuledReceiver<T, Known<T>, InOrder>;

/// The pass of one user of the queue: what it knows of it.
pub type Receipt<T> = Pass<T, Known<T>>;

/// A queue with room for `room` items, of which nothing was taken, and the pass of its owner.
pub fn open<T: Sent + Drop>(
    alloc: Global,
    room: usize,
) -> Result<(Sending<T>, Receiving<T>, Receipt<T>), AllocError>
    requires { 0 < room }
    ensures ends { IfOk result (λ r. receives_on r.1 ≡ sends_on r.0) }
    ensures pass { IfOk result (λ r. IsSeatAt (sends_on r.0) r.2 × (view r.2 ≡ owner)) }
{
    bounded_with::<T, Known<T>, InOrder, Global>(alloc, room)
}

/// Sends an item as the sender that it names. It waits until there is room, and returns once the item stands in the queue.
pub fn post<T: Sent + Drop, R: Wait>(rt: &R, to: &Sending<T>, pass: &mut Receipt<T>, item: T)
    requires channel { IsSeatAt (sends_on to.now) pass.old }
    requires sender { ((view pass.old).sends ≡ true) × (T.from item ≡ (view pass.old).from) }
    ensures channel { IsSeatAt (sends_on to.now) pass.new }
    ensures put { view pass.new ≡ with_put (view pass.old) item }
{
    let mut next = item;
    for _ in rt.forever() {
        match to.send_as::<Put, R>(rt, pass, next) {
            Ok(()) => return,
            Err(e) => {
                next = e.into_inner();
                thread::yield_now();
            }
        }
    }
    unreachable!()
}

/// Takes the next item. It waits until there is one.
pub fn take<T: Sent + Drop, R: Wait>(rt: &R, at: &Receiving<T>, pass: &mut Receipt<T>) -> T
    requires channel { IsSeatAt (receives_on at.now) pass.old }
    requires owner { (view pass.old).takes ≡ true }
    ensures channel { IsSeatAt (receives_on at.now) pass.new }
    ensures got { view pass.new ≡ with_got (view pass.old) result }
{
    for _ in rt.forever() {
        match at.recv_as::<Took, R>(rt, pass) {
            Ok(item) => return item,
            Err(_) => thread::yield_now(),
        }
    }
    unreachable!()
}

/// Makes a pass for the next sender, of which nothing was taken yet.
pub fn hire<T: Sent + Drop>(at: &Sending<T>, pass: &mut Receipt<T>) -> Receipt<T>
    requires channel { IsSeatAt (sends_on at.now) pass.old }
    requires owner { ((view pass.old).takes ≡ true) × ((view pass.old).sends ≡ false) }
    ensures channel { IsSeatAt (sends_on at.now) pass.new × IsSeatAt (sends_on at.now) result }
    ensures views { (view pass.new ≡ with_more (view pass.old)) × (view result ≡ sender (view pass.old).made) }
    ensures fresh { items_of T.from (view pass.old).made (view pass.old).got ≡ [] }
{
    at.learn_as::<Fresh>(pass);
    at.another::<Hire>(pass)
}

/// Takes in the pass of a sender that has ended. What was taken of it, and then `rest`, which the queue holds, is what it
/// sent in all.
pub fn retire<T: Sent + Drop>(at: &Sending<T>, pass: &mut Receipt<T>, other: Receipt<T>)
    requires channel { IsSeatAt (sends_on at.now) pass.old × IsSeatAt (sends_on at.now) other }
    requires owner { ((view pass.old).takes ≡ true) × ((view pass.old).sends ≡ false) }
    requires sender { (view other).sends ≡ true }
    ensures channel { IsSeatAt (sends_on at.now) pass.new }
    ensures told { view pass.new ≡ with_told (view pass.old) (view other) }
    ensures all { (rest : List T) × (items_of T.from (view other).from ((view pass.old).got ++ rest) ≡ (view other).put) }
{
    at.absorb::<Retire>(pass, other);
    at.learn_as::<Took>(pass);
}
