//! The sessions, the room for more of them, and what is true of all.
ghost use Rattle.std.specs.Prelude.{◌≡◌, ◌+◌, ◌-◌, ◌≤◌, ◌^◌, ◌↔◌, ◌⊎◌, [], None, Some, IsErrOf, IsSome, OnErr, OnOk};
ghost use Rattle.sm_live.specs.Rule.{IsRule};

use crate::reservation::{Reservation, ReservationFault};
use base_io::NoMemory;
use sm_acks::Pool;
use sm_resumption::Sessions;
use std::alloc::Global;
use std::marker::Model;

/// The sessions that live, each with its stanzas that wait to be acknowledged. Contracts see the list of the sessions,
/// ascending by number; the number `next` of the next session; the number `room` of further stanzas that fit without
/// more memory; the account `reservation` for one session of which all memory is there; and the number `queues` of
/// queues that were made, which bounds how many can be.
///
/// Room is made first, by `reserve` for stanzas and by `reserve_session` for a session that is bound or resumed. No
/// other call that changes something takes memory, and none lowers the room but `put`, by at most 1.
#[derive(Drop)]
pub struct Live {
    pub(crate) table: Sessions,
    pub(crate) pool: Pool,
    pub(crate) reservation: Option<Reservation>,
    pub(crate) queues: u64,
}

impl Model for Live {
    ghost use Rattle.std.specs.Prelude.{◌≡◌};
    ghost use Rattle.sm_live.specs.Kept.{IsReserved, LiveView, view_of};
    ghost use Rattle.sm_resumption.specs.Housed.{IsHoused};

    ghost Value = { LiveView };

    ghost view = { λ l. view_of l.table l.pool l.reservation l.queues };

    ghost invariant = { λ l. IsHoused l.table.rows l.pool × IsReserved l.table l.pool l.reservation × (l.pool.made ≡ l.queues) };
}

impl Live {
    /// No sessions; the first one gets the number `first`, which is 1 to 2^63. It takes no memory.
    pub fn new(alloc: Global, first: u64) -> Live
        requires low { 1 ≤ first }
        requires high { first ≤ 2 ^ 63 }
        ensures sessions { result.sessions ≡ [] }
        ensures next { result.next ≡ first }
        ensures reservation { result.reservation ≡ None }
        ensures queues { result.queues ≡ 0 }
    {
        Live {
            table: Sessions::new(alloc, first),
            pool: Pool::new(alloc),
            reservation: None,
            queues: 0,
        }
    }

    /// Makes room for `n` stanzas. The sessions and the seat stay on each outcome, and so does the room that there was.
    pub fn reserve(&mut self, n: u32) -> Result<(), NoMemory>
        ensures ok { OnOk result (n ≤ self.new.room) }
        ensures sessions { self.new.sessions ≡ self.old.sessions }
        ensures next { self.new.next ≡ self.old.next }
        ensures room { self.old.room ≤ self.new.room }
        ensures reservation { self.new.reservation ≡ self.old.reservation }
        ensures queues { self.new.queues ≡ self.old.queues }
    {
        self.table.keeps_rule();
        self.pool.reserve(n)
    }

    /// Reserves all memory that a session of an account needs to be bound or resumed. One seat is kept: a reservation
    /// for another account takes its place, and its queue. The sessions stay on each outcome, and the seat that there
    /// was on a refusal.
    ///
    /// `NumbersUsedUp` comes exactly where 2^64 - 1 is the number of the next session, or where no seat was there and as
    /// many queues were made. It comes before `NoMemory`.
    pub fn reserve_session(&mut self, account: u32) -> Result<(), ReservationFault>
        ensures reservation { OnOk result (self.new.reservation ≡ Some account) }
        ensures kept { OnErr result (self.new.reservation ≡ self.old.reservation) }
        ensures used_up { IsErrOf result ReservationFault.NumbersUsedUp ↔ ((self.old.next ≡ 2 ^ 64 - 1) ⊎ ((self.old.reservation ≡ None) × (self.old.queues ≡ 2 ^ 64 - 1))) }
        ensures sessions { self.new.sessions ≡ self.old.sessions }
        ensures next { self.new.next ≡ self.old.next }
        ensures room { self.old.room ≤ self.new.room }
        ensures queues { (self.old.queues ≤ self.new.queues) × (self.new.queues ≤ self.old.queues + 1) }
        ensures reused { IsSome self.old.reservation → self.new.queues ≡ self.old.queues }
    {
        self.table.keeps_rule();
        if self.table.next_number() == u64::MAX
            || self.reservation.is_none() && self.queues == u64::MAX
        {
            return Err(ReservationFault::NumbersUsedUp);
        }
        self.table.reserve(account)?;
        if let Some(reservation) = self.reservation {
            self.reservation = Some(Reservation {
                account,
                queue: reservation.queue,
            });
            return Ok(());
        }
        let queue = self.pool.make_queue()?;
        self.queues = queue;
        self.reservation = Some(Reservation { account, queue });
        Ok(())
    }

    /// The number that the next session gets.
    pub fn next_number(&self) -> u64
        ensures { result ≡ self.now.next }
    {
        self.table.next_number()
    }

    /// What is true of all sessions: numbers ascend from 1 and stay below the next one; a connection has one session at
    /// most, and so has a resource of an account; and at most 10,000 stanzas wait in each. It does nothing.
    pub fn keeps_rule(&self)
        ensures { IsRule self.now.sessions self.now.next }
    {
        self.table.keeps_rule();
    }
}
