//! One end of a session: its counters, and its stanzas that wait to be acknowledged (XEP-0198, section 4).
//!
//! `ack_end` lends the end of a session for reading; `ack`, `put_reserved` and `count_handled` are calls of the
//! table, so that no borrower can change which queue is a session's. An acknowledgement finds its queue once
//! (`drop_front`).
ghost use Rattle.std.specs.Prelude.{◌≡◌, ◌≢◌, ℕ, ◌+◌, ◌-◌, ◌<◌, ◌≤◌, ◌%◌, ◌^◌, ◌↔◌, List, [], ◌∷◌, ◌++◌, drop, length, ◌⊎◌, IfNone, IfOk, IfErr, IfSome, IsErr, OnOk, OnErr, IsTrue};
ghost use Rattle.sm_acks.specs.Queues.{Lives, list_of, stanzas_of};
ghost use Rattle.sm_acks.specs.Counters.{ahead};
ghost use Rattle.sm_acks.specs.Delivery.{Acknowledge, Direction, Handle, IsReceiver, IsSender, Moves, Put, Reached, Resume};

use crate::pool::{Pool, QueueId};
use base_io::Bytes;
use std::error::Error;
use std::fmt;
use std::marker::Model;

/// The most stanzas that an end keeps unacknowledged.
pub const MOST_UNACKNOWLEDGED: u64 = 10_000;

/// A count that the other end stated is too high: it never got that many stanzas (XEP-0198 section 4). `h` is the
/// count, and `send_count` how many stanzas were put, both modulo 2^32.
#[derive(Clone, Copy, Debug, PartialEq, Eq)]
pub struct TooHigh {
    pub h: u32,
    pub send_count: u32,
}

impl fmt::Display for TooHigh {
    fn fmt<W: fmt::Write>(&self, f: &mut fmt::Formatter<W>) -> fmt::Result {
        write!(f, "{} handled of {} put", self.h, self.send_count)
    }
}

impl Error for TooHigh {}

/// One end of a session: the queue in which its stanzas wait until they are acknowledged, the count of those that
/// are, and the count of the other end's stanzas that it handled. The counters begin at 0 and wrap at 2^32.
#[derive(Drop)]
pub struct AckEnd {
    queue: QueueId,
    acked: u32,
    handled: u32,
}

impl Model for AckEnd {
    ghost use Rattle.sm_acks.specs.Counters.{AckView};

    ghost Value = { AckView };

    ghost view = { λ e. record { queue = e.queue; acked = e.acked; handled = e.handled } };
}

impl AckEnd {
    /// An end whose stanzas wait in a queue, with both counters 0.
    pub fn new(queue: QueueId) -> AckEnd
        ensures { result ≡ record { queue = queue; acked = 0; handled = 0 } }
    {
        AckEnd {
            queue,
            acked: 0,
            handled: 0,
        }
    }

    /// The queue in which the end's stanzas wait.
    pub fn queue(&self) -> QueueId
        ensures { result ≡ self.now.queue }
    {
        self.queue
    }

    /// How many stanzas of the other end were handled, modulo 2^32.
    pub fn handled(&self) -> u32
        ensures { result ≡ self.now.handled }
    {
        self.handled
    }

    /// How many stanzas of this end are acknowledged, modulo 2^32.
    pub fn acked(&self) -> u32
        ensures { result ≡ self.now.acked }
    {
        self.acked
    }

    /// Counts one more stanza of the other end as handled, modulo 2^32.
    pub fn count_handled(&mut self)
        ensures end { self.new ≡ record self.old { handled = (self.old.handled + 1) % 2 ^ 32 } }
        // It is the move by which a stanza under way is handled.
        ensures handles { (d next : Direction (List ℕ)) → IsReceiver self.old d → Moves Handle d next → IsReceiver self.new next }
    {
        self.handled = self.handled.wrapping_add(1);
    }

    /// Whether the queue holds as many stanzas as it may.
    pub fn is_full(&self, pool: &Pool) -> bool
        requires lives { Lives self.now.queue pool.now }
        requires few { length (list_of self.now.queue pool.now) ≤ MOST_UNACKNOWLEDGED }
        ensures { IsTrue result ↔ (length (list_of self.now.queue pool.now) ≡ MOST_UNACKNOWLEDGED) }
    {
        pool.len(self.queue) == MOST_UNACKNOWLEDGED
    }

    /// Puts a stanza at the end of the queue. It takes no memory, and lowers the pool's room by at most 1. The
    /// counters stay.
    pub fn put_reserved(&mut self, pool: &mut Pool, bytes: Bytes)
        requires lives { Lives self.old.queue pool.old }
        requires few { length (list_of self.old.queue pool.old) < MOST_UNACKNOWLEDGED }
        requires spare { 1 ≤ pool.old.spare }
        ensures end { self.new ≡ self.old }
        ensures queue { stanzas_of self.old.queue pool.new ≡ Some (list_of self.old.queue pool.old ++ bytes.items ∷ []) }
        ensures others { (other : ℕ) → other ≢ self.old.queue → stanzas_of other pool.new ≡ stanzas_of other pool.old }
        ensures made { pool.new.made ≡ pool.old.made }
        ensures spare { pool.old.spare ≤ pool.new.spare + 1 }
        // It is the move by which the stanza is put.
        ensures puts { (d next : Direction (List ℕ)) → IsSender self.old pool.old d → Moves (Put bytes.items) d next → IsSender self.new pool.new next }
    {
        pool.push_reserved(self.queue, bytes);
    }

    /// What `ack` answers to a count `h` that is too high, and `None` exactly where it takes the count. Nothing changes.
    pub fn is_too_high(&self, pool: &Pool, h: u32) -> Option<TooHigh>
        requires lives { Lives self.now.queue pool.now }
        requires few { length (list_of self.now.queue pool.now) ≤ MOST_UNACKNOWLEDGED }
        ensures some { IfSome result (λ e. length (list_of self.now.queue pool.now) < ahead h self.now.acked) }
        ensures none { IfNone result (ahead h self.now.acked ≤ length (list_of self.now.queue pool.now)) }
        ensures counts { IfSome result (λ e. e ≡ record { h = h; send_count = (self.now.acked + length (list_of self.now.queue pool.now)) % 2 ^ 32 }) }
    {
        let waiting = pool.len(self.queue);
        if waiting < u64::from(h.wrapping_sub(self.acked)) {
            let send_count = self.acked.wrapping_add(waiting as u32);
            return Some(TooHigh { h, send_count });
        }
        None
    }

    /// Takes the count `h` of handled stanzas that the other end states (XEP-0198 section 4): the stanzas up to it
    /// leave the queue, and the answer is their number. `TooHigh` comes exactly where `h` is further ahead of the
    /// acknowledged count, modulo 2^32, than the queue is long; then nothing changes. It takes no memory.
    pub fn ack(&mut self, pool: &mut Pool, h: u32) -> Result<u32, TooHigh>
        requires lives { Lives self.old.queue pool.old }
        requires few { length (list_of self.old.queue pool.old) ≤ MOST_UNACKNOWLEDGED }
        ensures number { IfOk result (λ n. n ≡ ahead h self.old.acked) }
        ensures too_high { IsErr result ↔ (length (list_of self.old.queue pool.old) < ahead h self.old.acked) }
        ensures within { OnOk result (ahead h self.old.acked ≤ length (list_of self.old.queue pool.old)) }
        ensures end { OnOk result (self.new ≡ record self.old { acked = h }) }
        ensures queue { OnOk result (stanzas_of self.old.queue pool.new ≡ Some (drop (ahead h self.old.acked) (list_of self.old.queue pool.old))) }
        ensures counts { IfErr result (λ e. e ≡ record { h = h; send_count = (self.old.acked + length (list_of self.old.queue pool.old)) % 2 ^ 32 }) }
        ensures end_stays { OnErr result (self.new ≡ self.old) }
        ensures pool_stays { OnErr result (pool.new ≡ pool.old) }
        ensures others { (other : ℕ) → other ≢ self.old.queue → stanzas_of other pool.new ≡ stanzas_of other pool.old }
        ensures made { pool.new.made ≡ pool.old.made }
        ensures kept { pool.old.spare ≤ pool.new.spare }
        // It is the move by which a count that was stated, and is not below the last one, is acknowledged; and at a
        // resumption, where `h` is how many stanzas were handled, it is that move.
        ensures acknowledges { (n : ℕ) (d next : Direction (List ℕ)) → Reached d → IsSender self.old pool.old d →
            Moves (Acknowledge n) d next → h ≡ n % 2 ^ 32 → (result ≡ Ok (n - d.acked)) × IsSender self.new pool.new next }
        ensures resumes { (d next : Direction (List ℕ)) → Reached d → IsSender self.old pool.old d →
            Moves Resume d next → h ≡ length d.got % 2 ^ 32 → (result ≡ Ok (length d.got - d.acked)) × IsSender self.new pool.new next }
        // Where fewer than 2^32 stanzas were put, a count is too high exactly where it is below the last one that was
        // acknowledged, or above the number of those that were put.
        ensures exact { (d : Direction (List ℕ)) → IsSender self.old pool.old d → length d.put < 2 ^ 32 → IsErr result ↔ ((h < d.acked) ⊎ (length d.put < h)) }
        ensures sent { IfErr result (λ e. (d : Direction (List ℕ)) → IsSender self.old pool.old d → e.send_count ≡ length d.put % 2 ^ 32) }
    {
        if let Some(fault) = self.is_too_high(pool, h) {
            return Err(fault);
        }
        let count = h.wrapping_sub(self.acked);
        pool.drop_front(self.queue, u64::from(count));
        self.acked = h;
        Ok(count)
    }

    /// Hands the queue over to an empty one, which is the end's from then on, and drops the old one. The counters
    /// stay. It takes no memory.
    pub fn move_to(&mut self, pool: &mut Pool, to: QueueId)
        requires lives { Lives self.old.queue pool.old }
        requires few { length (list_of self.old.queue pool.old) ≤ MOST_UNACKNOWLEDGED }
        requires to { stanzas_of to pool.old ≡ Some [] }
        requires apart { to ≢ self.old.queue }
        ensures end { self.new ≡ record self.old { queue = to } }
        ensures queue { stanzas_of to pool.new ≡ stanzas_of self.old.queue pool.old }
        ensures dropped { stanzas_of self.old.queue pool.new ≡ None }
        ensures others { (other : ℕ) → other ≢ self.old.queue → other ≢ to → stanzas_of other pool.new ≡ stanzas_of other pool.old }
        ensures made { pool.new.made ≡ pool.old.made }
        ensures kept { pool.old.spare ≤ pool.new.spare }
        // The end is the same end of the same directions.
        ensures sends { (d : Direction (List ℕ)) → IsSender self.old pool.old d → IsSender self.new pool.new d }
        ensures receives { (d : Direction (List ℕ)) → IsReceiver self.old d → IsReceiver self.new d }
    {
        pool.hand_over(self.queue, to);
        pool.drop_queue(self.queue);
        self.queue = to;
    }
}
