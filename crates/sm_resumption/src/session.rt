//! A session, and its row in the table.
ghost use Rattle.std.specs.Prelude.{◌≡◌, ◌≢◌, ℕ, ◌+◌, ◌^◌, ◌<◌, ◌≤◌, ◌↔◌, ◌⊎◌, IsErr, List, [], Some, false, length, pos, OnOk, OnErr};
ghost use Rattle.sm_acks.specs.Queues.{Lives, list_of, stanzas_of};
ghost use Rattle.sm_resumption.specs.Moves.{HandsOver, Joins, PoolAcknowledged, ack_answer, acknowledged, attached, is_expired, parked};
ghost use Rattle.sm_acks.specs.Delivery.{Direction, IsSender};
ghost use Rattle.sm_resumption.specs.Changes.{changed};

use crate::answers::RESUMABLE_FOR;
use crate::change::Change;
use base_io::{Bytes, Text};
use sm_acks::{AckEnd, MOST_UNACKNOWLEDGED, Pool, QueueId, TooHigh};

/// What is told of a session.
#[derive(Drop)]
pub struct SessionView {
    /// Its number, from 1, which no other session ever gets.
    pub number: u64,
    /// Its account, by the account's place in the configuration.
    pub account: u32,
    /// The resource that was bound (RFC 6120 section 7).
    pub resource: Text,
    /// Its connection; none while it is parked.
    pub conn: Option<u64>,
    /// When it was last parked, in milliseconds since 1970; 0 where it never was.
    pub parked_at: u64,
    /// Whether it announced that it is available (RFC 6121 section 4.2).
    pub available: bool,
    /// The priority of its last presence (RFC 6121 section 4.7.2.3).
    pub priority: i8,
    /// Whether it asked for copies of the account's messages (XEP-0280).
    pub carbons: bool,
    /// Whether its stanzas are counted (XEP-0198 section 3).
    pub counted: bool,
    /// Whether it can be resumed (XEP-0198 section 5).
    pub resumable: bool,
    /// Whether it was asked for its count of handled stanzas, and has not answered (XEP-0198 section 4): what
    /// `set_asked` wrote last.
    pub asked: bool,
}

impl SessionView {
    // A session as a bind makes it.
    pub(crate) fn fresh(number: u64, account: u32, resource: Text, conn: u64) -> SessionView
        ensures { result ≡ record { number = number; account = account; resource = resource; conn = Some conn; parked_at = 0; available = false; priority = pos 0; carbons = false; counted = false; resumable = false; asked = false } }
    {
        SessionView {
            number,
            account,
            resource,
            conn: Some(conn),
            parked_at: 0,
            available: false,
            priority: 0,
            carbons: false,
            counted: false,
            resumable: false,
            asked: false,
        }
    }
}

/// A row of the table: what is told of a session, and its end of the acknowledgements (XEP-0198 section 4).
#[derive(Drop)]
pub struct Row {
    pub shown: SessionView,
    pub end: AckEnd,
}

impl Row {
    // Whether the session is parked, and was so long ago that it can be resumed no more.
    pub(crate) fn is_expired(&self, now: u64) -> bool
        ensures { result ≡ is_expired now self.now }
    {
        self.shown.conn.is_none() && now.saturating_sub(self.shown.parked_at) >= RESUMABLE_FOR
    }

    // The connection is lost.
    pub(crate) fn park(&mut self, now: u64)
        ensures { self.new ≡ parked now self.old }
    {
        self.shown.conn = None;
        self.shown.parked_at = now;
    }

    // A change that keeps the connection, the name and the queue.
    pub(crate) fn change(&mut self, change: Change)
        ensures { self.new ≡ changed change self.old }
    {
        match change {
            Change::Enabled(resume) => {
                self.shown.counted = true;
                self.shown.resumable = resume;
            }
            Change::Present(available, priority) => {
                self.shown.available = available;
                self.shown.priority = priority;
            }
            Change::Carbons(on) => self.shown.carbons = on,
            Change::Asked(on) => self.shown.asked = on,
            Change::Handled => self.end.count_handled(),
        }
    }

    // The count of handled stanzas that the peer states.
    pub(crate) fn ack(&mut self, pool: &mut Pool, h: u32) -> Result<u32, TooHigh>
        requires lives { Lives self.old.end.queue pool.old }
        requires few { length (list_of self.old.end.queue pool.old) ≤ MOST_UNACKNOWLEDGED }
        ensures answer { result ≡ ack_answer h self.old pool.old }
        ensures ok { OnOk result (self.new ≡ acknowledged h self.old) }
        ensures err { OnErr result (self.new ≡ self.old) }
        ensures pool { PoolAcknowledged h self.old pool.old pool.new }
        ensures made { pool.new.made ≡ pool.old.made }
        ensures room { pool.old.spare ≤ pool.new.spare }
        ensures exact { (d : Direction (List ℕ)) → IsSender self.old.end pool.old d → length d.put < 2 ^ 32 → IsErr result ↔ ((h < d.acked) ⊎ (length d.put < h)) }
    {
        self.end.ack(pool, h)
    }

    // One stanza more waits.
    pub(crate) fn put(&mut self, pool: &mut Pool, bytes: Bytes)
        requires lives { Lives self.old.end.queue pool.old }
        requires few { length (list_of self.old.end.queue pool.old) < MOST_UNACKNOWLEDGED }
        requires spare { 1 ≤ pool.old.spare }
        ensures row { self.new ≡ self.old }
        ensures pool { Joins bytes.items self.old pool.old pool.new }
        ensures made { pool.new.made ≡ pool.old.made }
        ensures room { pool.old.spare ≤ pool.new.spare + 1 }
    {
        self.end.put_reserved(pool, bytes);
    }

    // Another connection, and an empty queue into which the stanzas go.
    pub(crate) fn attach(&mut self, pool: &mut Pool, conn: u64, queue: QueueId)
        requires lives { Lives self.old.end.queue pool.old }
        requires few { length (list_of self.old.end.queue pool.old) ≤ MOST_UNACKNOWLEDGED }
        requires empty { stanzas_of queue pool.old ≡ Some [] }
        requires apart { queue ≢ self.old.end.queue }
        ensures row { self.new ≡ attached conn queue self.old }
        ensures pool { HandsOver 0 queue self.old pool.old pool.new }
        ensures made { pool.new.made ≡ pool.old.made }
        ensures room { pool.old.spare ≤ pool.new.spare }
    {
        self.end.move_to(pool, queue);
        self.shown.conn = Some(conn);
    }
}
