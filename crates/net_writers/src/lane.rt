//! The owner's side of a connection's writer.
//!
//! The owner waits for no peer. A parcel that finds the queue full is dropped, and all later ones too, since a stream that lacks
//! a part could not go on: the connection ends, and what waits in its session comes with a resumption (XEP-0198, section 5). At
//! most 256 parcels wait for a connection, each of one output or of 65,536 bytes at most. The end is kept apart from the bytes,
//! so that it can be offered again once there is room; `finish` alone waits for it.
ghost use Rattle.std.specs.Prelude.{◌≡◌, ◌⊎◌, ◌≤◌, ◌+◌, ◌++◌, ◌∷◌, [], true, false, ℕ, List, length};
ghost use Rattle.crossbeam_channel.specs.Claims.{IsSeatAt, view};
ghost use Rattle.crossbeam_channel.specs.Ends.{receives_on, ruled_capacity, sends_on};
ghost use Rattle.net_queues.specs.Rule.{side};
ghost use Rattle.net_writers.specs.Lanes.{HasLeft, IsLane};
ghost use Rattle.net_writers.specs.Sent.{IsUnwritten};

use crate::parcel::Parcel;
use crate::writer::{WriterAnswer, WriterJob};
use base_io::Bytes;
use net_owner::Worker;
use net_queues::{Producer, QueuePass, offer, put, regain};
use net_traits::Outgoing;
use std::sync::Wait;
use std::thread::Threads;

/// How many parcels may wait for a connection's writer.
pub const MOST_WAITING: usize = 256;

/// A writer that was started, and its queue; whether a parcel was refused, whether the connection was shut, and whether the end
/// was put. The end is due once one of the first two is so.
#[derive(Drop)]
pub struct Lane<R: Wait + Drop, O: Outgoing + Drop> {
    pub worker: Worker<WriterJob<R, O>>,
    pub to: Producer<Parcel>,
    pub pass: QueuePass<Parcel>,
    pub overrun: bool,
    pub shut: bool,
    pub ended: bool,
}

impl<R: Wait + Drop, O: Outgoing + Drop> Lane<R, O> {
    /// The side of a writer that has taken nothing. It takes no memory.
    pub fn new(
        worker: Worker<WriterJob<R, O>>,
        to: Producer<Parcel>,
        pass: QueuePass<Parcel>,
    ) -> Lane<R, O>
        requires channel { IsSeatAt (sends_on to) pass }
        requires unused { view pass ≡ side true false [] [] }
        requires room { ruled_capacity (sends_on to) ≡ MOST_WAITING }
        requires queue { receives_on worker.at ≡ sends_on to }
        ensures lane { IsLane [] 0 result }
        ensures worker { result.worker ≡ worker }
        ensures shut { result.shut ≡ false }
    {
        Lane {
            worker,
            to,
            pass,
            overrun: false,
            shut: false,
            ended: false,
        }
    }

    // Offers the end, which is due and was not put.
    fn offer_end<W: Wait>(&mut self, rt: &W)
        requires lane { (bytes : List ℕ) × (count : ℕ) × IsLane bytes count self.old }
        requires due { (self.old.overrun ≡ true) ⊎ (self.old.shut ≡ true) }
        requires open { self.old.ended ≡ false }
        ensures lane { (bytes : List ℕ) (count : ℕ) → IsLane bytes count self.old → IsLane bytes count self.new }
        ensures shut { self.new.shut ≡ self.old.shut }
        ensures worker { self.new.worker ≡ self.old.worker }
    {
        if offer(rt, &self.to, &mut self.pass, Parcel::End) {
            self.ended = true;
            return;
        }
        self.overrun = true;
    }

    /// Offers the end once more, where it is due and was refused. It doesn't wait for room, and takes no memory.
    pub fn nudge<W: Wait>(&mut self, rt: &W)
        requires lane { (bytes : List ℕ) × (count : ℕ) × IsLane bytes count self.old }
        ensures lane { (bytes : List ℕ) (count : ℕ) → IsLane bytes count self.old → IsLane bytes count self.new }
        ensures shut { self.new.shut ≡ self.old.shut }
        ensures worker { self.new.worker ≡ self.old.worker }
    {
        if self.ended {
            return;
        }
        if self.overrun {
            self.offer_end(rt);
            return;
        }
        if !self.shut {
            return;
        }
        self.offer_end(rt);
    }

    /// Hands over a parcel of bytes. Where the queue is full the connection is overrun: this parcel is dropped, and all later
    /// ones. It doesn't wait for room, and takes no memory.
    pub fn put<W: Wait>(&mut self, rt: &W, parcel: Bytes)
        requires lane { (bytes : List ℕ) × (count : ℕ) × IsLane bytes count self.old }
        requires open { self.old.shut ≡ false }
        ensures lane { (bytes : List ℕ) (count : ℕ) → IsLane bytes count self.old → IsLane (bytes ++ parcel.items) (count + 1) self.new }
        ensures shut { self.new.shut ≡ false }
        ensures worker { self.new.worker ≡ self.old.worker }
    {
        if self.overrun {
            return;
        }
        if offer(rt, &self.to, &mut self.pass, Parcel::Put(parcel)) {
            return;
        }
        self.overrun = true;
    }

    /// The connection is shut: nothing more goes out, and the end is due. It doesn't wait for room, and takes no memory.
    pub fn shut<W: Wait>(&mut self, rt: &W)
        requires lane { (bytes : List ℕ) × (count : ℕ) × IsLane bytes count self.old }
        ensures lane { (bytes : List ℕ) (count : ℕ) → IsLane bytes count self.old → IsLane bytes count self.new }
        ensures shut { self.new.shut ≡ true }
        ensures worker { self.new.worker ≡ self.old.worker }
    {
        self.shut = true;
        self.nudge(rt);
    }

    /// The connection is shut, and the end is put. It waits until there is room, and takes no memory.
    pub fn finish<W: Wait>(&mut self, rt: &W)
        requires lane { (bytes : List ℕ) × (count : ℕ) × IsLane bytes count self.old }
        ensures lane { (bytes : List ℕ) (count : ℕ) → IsLane bytes count self.old → IsLane bytes count self.new }
        ensures shut { self.new.shut ≡ true }
        ensures ended { self.new.ended ≡ true }
        ensures worker { self.new.worker ≡ self.old.worker }
    {
        self.shut = true;
        if self.ended {
            return;
        }
        put(rt, &self.to, &mut self.pass, Parcel::End);
        self.ended = true;
    }

    /// Joins the writer, whose end was put, and answers its half. It waits until the writer has written what it took.
    pub fn settle<W: Threads>(self, rt: &W) -> O
        requires lane { (bytes : List ℕ) × (count : ℕ) × IsLane bytes count self }
        requires ended { self.ended ≡ true }
        ensures left { (bytes : List ℕ) (count : ℕ) → IsUnwritten (O.told self.worker.half) → IsLane bytes count self → HasLeft bytes count self.overrun (O.told self.worker.half) (O.told result) }
        ensures number { (O.told result).number ≡ (O.told self.worker.half).number }
        ensures closed { O.closed result ≡ true }
    {
        let Lane {
            worker,
            to,
            mut pass,
            ..
        } = self;
        let WriterAnswer { half, pass: spent } = worker.join(rt);
        regain(&to, &mut pass, spent);
        half
    }
}
