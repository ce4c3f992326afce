//! The calls of the queue, one for each kind of step.
ghost use Rattle.std.specs.Prelude.{◌≡◌, ◌<◌, ◌≤◌, ◌++◌, [], List, true, false, length, IfOk};
ghost use Rattle.crossbeam_channel.specs.Claims.{view, IsSeatAt};
ghost use Rattle.crossbeam_channel.specs.Ends.{sends_on, receives_on, ruled_capacity};
ghost use Rattle.net_queues.specs.Rule.{side, with_got, with_put};

use crate::rule::{Lend, Offered, Relay, Side, Taken, Whole};
use crossbeam_channel::{Pass, RuledReceiver, RuledSender, TrySendError, bounded_with};
use std::alloc::{AllocError, Global};
use std::sync::Wait;
use std::thread;

/// The end of the queue by which items are put.
pub type Producer<T> = RuledSender<T, Side<T>, Relay>;

/// The end by which they are taken.
pub type Consumer<T> = RuledReceiver<T, Side<T>, Relay>;

/// The pass of one user of the queue: what it knows of it.
pub type QueuePass<T> = Pass<T, Side<T>>;

/// A queue with room for `room` items, into which nothing was put, and a pass by which items may be put and taken.
pub fn open<T: Drop>(
    alloc: Global,
    room: usize,
) -> Result<(Producer<T>, Consumer<T>, QueuePass<T>), AllocError>
    requires { 0 < room }
    ensures ends { IfOk result (λ r. receives_on r.1 ≡ sends_on r.0) }
    ensures room { IfOk result (λ r. ruled_capacity (sends_on r.0) ≡ room) }
    ensures pass { IfOk result (λ r. IsSeatAt (sends_on r.0) r.2 × (view r.2 ≡ side true true [] [])) }
{
    bounded_with::<T, Side<T>, Relay, Global>(alloc, room)
}

/// Offers an item, and answers whether the queue took it. It doesn't wait for room. Refused is an item only where as many were
/// put as the queue has room for, at least; then it is dropped. It takes no memory.
pub fn offer<T: Drop, R: Wait>(rt: &R, to: &Producer<T>, pass: &mut QueuePass<T>, item: T) -> bool
    requires channel { IsSeatAt (sends_on to.now) pass.old }
    requires may { (view pass.old).puts ≡ true }
    ensures channel { IsSeatAt (sends_on to.now) pass.new }
    ensures put { result ≡ true → view pass.new ≡ with_put (view pass.old) item }
    ensures same { result ≡ false → view pass.new ≡ view pass.old }
    ensures full { result ≡ false → ruled_capacity (sends_on to.now) ≤ length (view pass.old).put }
{
    let mut next = item;
    for _ in rt.forever() {
        match to.try_send_as::<Offered, R>(rt, pass, next) {
            Ok(()) => return true,
            Err(TrySendError::Full(_)) => return false,
            Err(e) => {
                next = e.into_inner();
                thread::yield_now();
            }
        }
    }
    unreachable!()
}

/// Puts an item. It waits until there is room.
pub fn put<T: Drop, R: Wait>(rt: &R, to: &Producer<T>, pass: &mut QueuePass<T>, item: T)
    requires channel { IsSeatAt (sends_on to.now) pass.old }
    requires may { (view pass.old).puts ≡ true }
    ensures channel { IsSeatAt (sends_on to.now) pass.new }
    ensures put { view pass.new ≡ with_put (view pass.old) item }
{
    let mut next = item;
    for _ in rt.forever() {
        match to.send_as::<Offered, R>(rt, pass, next) {
            Ok(()) => return,
            Err(e) => {
                next = e.into_inner();
                thread::yield_now();
            }
        }
    }
    unreachable!()
}

/// Takes the next item. It waits until there is one.
pub fn take<T: Drop, R: Wait>(rt: &R, at: &Consumer<T>, pass: &mut QueuePass<T>) -> T
    requires channel { IsSeatAt (receives_on at.now) pass.old }
    requires may { (view pass.old).takes ≡ true }
    ensures channel { IsSeatAt (receives_on at.now) pass.new }
    ensures got { view pass.new ≡ with_got (view pass.old) result }
{
    for _ in rt.forever() {
        match at.recv_as::<Taken, R>(rt, pass) {
            Ok(item) => return item,
            Err(_) => thread::yield_now(),
        }
    }
    unreachable!()
}

/// Makes a pass by which items are taken. By the other they are put from then on.
pub fn lend<T: Drop>(at: &Producer<T>, pass: &mut QueuePass<T>) -> QueuePass<T>
    requires channel { IsSeatAt (sends_on at.now) pass.old }
    requires may { ((view pass.old).puts ≡ true) × ((view pass.old).takes ≡ true) }
    ensures channel { IsSeatAt (sends_on at.now) pass.new × IsSeatAt (sends_on at.now) result }
    ensures views { (view pass.new ≡ side true false (view pass.old).put []) × (view result ≡ side false true [] (view pass.old).got) }
{
    at.another::<Lend>(pass)
}

/// Takes in the pass by which items were taken. These, and then `rest`, which the queue holds, are all that were put.
pub fn regain<T: Drop>(at: &Producer<T>, pass: &mut QueuePass<T>, other: QueuePass<T>)
    requires channel { IsSeatAt (sends_on at.now) pass.old × IsSeatAt (sends_on at.now) other }
    requires may { ((view pass.old).puts ≡ true) × ((view other).takes ≡ true) }
    ensures channel { IsSeatAt (sends_on at.now) pass.new }
    ensures views { view pass.new ≡ side true true (view pass.old).put (view other).got }
    ensures all { (rest : List T) × ((view pass.old).put ≡ (view other).got ++ rest) }
{
    at.absorb::<Lend>(pass, other);
    at.learn_as::<Whole>(pass);
}
