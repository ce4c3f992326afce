//! The table of sessions: look-ups, changes of one session, and its stanzas that wait (XEP-0198, section 4).
//!
//! `next_after` stands instead of a slice of all numbers, which would cost a shift at each end of a session. The list
//! keeps the numbers of ended sessions until they are half of it.
//!
//! Who was parked first is looked at first when sessions expire. The entry of a session that was resumed or ended
//! stays until its turn comes, and is known by the session itself.
ghost use Rattle.std.specs.Prelude.{◌≡◌, ℕ, ◌+◌, ◌-◌, ◌%◌, ◌<◌, ◌≤◌, ◌^◌, ◌↔◌, ◌⊎◌, List, [], ◌∷◌, ◌++◌, map, None, Ok, Some, IsErr, false, IsSome, OnOk, OnErr, IsTrue, MatchOption, IfSome, filter, is_some, length, nat_eq, nat_lt, slice_index_or, vec_len, vec_capacity};
ghost use Rattle.std.specs.Option.{option_copied, option_map};
ghost use Rattle.sm_resumption.specs.Moves.{HandsOver, HasExpired, Joins, PoolAcknowledged, ack_answer, acknowledged, asking, attached, copying, fresh_row, handling, is_expired, number_of, parked, present};
ghost use Rattle.sm_acks.specs.Delivery.{Acknowledge, Direction, Handle, IsReceiver, IsSender, Moves, Put, Reached};
ghost use Rattle.sm_resumption.specs.Changes.{ChangesRow, changed};
ghost use Rattle.sm_resumption.specs.Deliveries.{OthersStand};
ghost use Rattle.std.specs.HashMap as hash;
ghost use Rattle.std.specs.List.{find};
ghost use Rattle.std.specs.List.Sorted.{IsNonDecreasing};
ghost use Rattle.sm_acks.specs.Queues.{PoolView, list_of};
ghost use Rattle.sm_resumption.specs.Housed.{IsFree, IsHoused};
ghost use Rattle.sm_resumption.specs.Rows.{IsTable, is_of, row_at, row_named, row_of, with_row, without};
ghost use Rattle.sm_resumption.specs.Stored.{Climbs, Meets, passes, seeks};
ghost use Rattle.sm_resumption.specs.declared.session.Row.{Row};

use crate::change::Change;
use crate::index::Index;
use crate::session::{Row, SessionView};
use crate::sought::Sought;
use base_io::{Bytes, NoMemory, Text};
use sm_acks::{AckEnd, MOST_UNACKNOWLEDGED, Pool, QueueId, TooHigh};
use std::alloc::Global;
use std::collections::HashMap;
use std::marker::Model;

/// The table of sessions. Contracts see its rows, ascending by number, the number that the next session gets, the
/// account `reservation` for which room was made last, and the number `spare` of further sessions of it that fit
/// without more memory.
///
/// A session is found by its number and by its connection in hash maps, and by its account and resource among the
/// sessions of the account, whatever the number of other sessions. Parked sessions wait in the order of the moments at which they were parked: an expiry looks at the first
/// ones alone, and passes over one that was resumed or ended since when its turn comes. (Where a park is given an earlier
/// moment than one before it, its entry goes ahead of the later ones, 16 bytes each.) The numbers of ended sessions stay
/// listed until a `reserve` finds that they are at least half of the list.
///
/// `reserve` alone asks for memory: an entry is added only where there is room to spare. It makes room for a session more of
/// an account, which keeps the room of its list where its sessions end, and for a quarter more
/// connections than there are sessions, and for twice as many parks; where that is used up, what is said of sessions that
/// ended or were resumed is dropped first. Where it runs out before the next `reserve` all the same, look-ups by
/// connection and expiries go through all sessions until then, and answer the same.
#[derive(Drop)]
pub struct Sessions {
    numbers: Vec<u64>,
    rows: HashMap<u64, Row>,
    index: Index,
    next: u64,
    reservation: u32,
}

impl Model for Sessions {
    ghost use Rattle.std.specs.HashMap as hash;
    ghost use Rattle.std.specs.Prelude.{◌-◌, min, nat_eq, vec_len, vec_capacity};
    ghost use Rattle.sm_resumption.specs.Indexed.{IsIndexed, account_room};
    ghost use Rattle.sm_resumption.specs.Rows.{Table};
    ghost use Rattle.sm_resumption.specs.Stored.{IsStored, collected};

    ghost Value = { Table };

    ghost view = { λ s. record { rows = collected (hash.get nat_eq s.rows) s.numbers.items; next = s.next; reservation = s.reservation; spare = min (hash.spare s.rows) (min (account_room s.index s.reservation) (vec_capacity s.numbers - vec_len s.numbers)) } };

    ghost invariant = { λ s. IsStored (hash.get nat_eq s.rows) s.numbers.items s.next (collected (hash.get nat_eq s.rows) s.numbers.items) × IsIndexed s.index (collected (hash.get nat_eq s.rows) s.numbers.items) };
}

// Strikes off a list the numbers that are no session's.
fn keep_living(numbers: &mut Vec<u64>, rows: &HashMap<u64, Row>)
    ensures kept { numbers.new.items ≡ filter (λ n. is_some (hash.get nat_eq rows.now n)) numbers.old.items }
    ensures len { vec_len numbers.new ≤ vec_len numbers.old }
    ensures capacity { vec_capacity numbers.new ≡ vec_capacity numbers.old }
{
    numbers.retain(|number| rows.contains_key(number));
}

// The place from which numbers that ascend are above one.
fn above(numbers: &[u64], number: u64) -> usize
    requires { IsNonDecreasing numbers.now }
    ensures bound { result ≤ length numbers.now }
    ensures low { (k d : ℕ) → k < result → slice_index_or numbers.now k d ≤ number }
    ensures high { (k d : ℕ) → result ≤ k → k < length numbers.now → number < slice_index_or numbers.now k d }
{
    numbers.partition_point(|other| *other <= number)
}

impl Sessions {
    /// A table without sessions, whose first session gets the number `first`. It takes no memory.
    pub fn new(alloc: Global, first: u64) -> Sessions
        requires low { 1 ≤ first }
        requires high { first ≤ 2 ^ 63 }
        ensures rows { result.rows ≡ [] }
        ensures next { result.next ≡ first }
    {
        Sessions {
            numbers: Vec::new(alloc),
            rows: HashMap::new(alloc),
            index: Index::new(alloc),
            next: first,
            reservation: 0,
        }
    }

    /// The number that the next session gets.
    pub fn next_number(&self) -> u64
        ensures { result ≡ self.now.next }
    {
        self.next
    }

    /// Makes room for one session more of an account. The sessions stay on each outcome, and so does the room where it
    /// refuses, or was made for this account before. No other call takes memory.
    pub fn reserve(&mut self, account: u32) -> Result<(), NoMemory>
        ensures spare { OnOk result (1 ≤ self.new.spare) }
        ensures reservation { OnOk result (self.new.reservation ≡ account) }
        ensures rows { self.new.rows ≡ self.old.rows }
        ensures next { self.new.next ≡ self.old.next }
        ensures stays { OnErr result (self.new.reservation ≡ self.old.reservation) }
        ensures kept { OnErr result (self.old.spare ≤ self.new.spare) }
        ensures more { self.old.reservation ≡ account → self.old.spare ≤ self.new.spare }
    {
        self.prune();
        self.make_room(account)
    }

    // Strikes the numbers of sessions that ended off the list, where they are at least half of it.
    fn prune(&mut self)
        ensures rows { self.new.rows ≡ self.old.rows }
        ensures next { self.new.next ≡ self.old.next }
        ensures reservation { self.new.reservation ≡ self.old.reservation }
        ensures kept { self.old.spare ≤ self.new.spare }
    {
        if self.rows.len() <= self.numbers.len() / 2 {
            keep_living(&mut self.numbers, &self.rows);
        }
    }

    // Makes room for one session more of an account.
    fn make_room(&mut self, account: u32) -> Result<(), NoMemory>
        ensures spare { OnOk result (1 ≤ self.new.spare) }
        ensures reservation { OnOk result (self.new.reservation ≡ account) }
        ensures rows { self.new.rows ≡ self.old.rows }
        ensures next { self.new.next ≡ self.old.next }
        ensures stays { OnErr result (self.new.reservation ≡ self.old.reservation) }
        ensures kept { OnErr result (self.old.spare ≤ self.new.spare) }
        ensures more { self.old.reservation ≡ account → self.old.spare ≤ self.new.spare }
    {
        self.numbers.reserve(1)?;
        self.rows.reserve(1)?;
        self.index
            .reserve(self.rows.len().saturating_add(1), account)?;
        self.reservation = account;
        if !self.index.whole {
            self.index.mend(&self.numbers, &self.rows);
        }
        Ok(())
    }

    /// What is true of every table: numbers ascend from 1 and stay below the next one, a connection has one session at most,
    /// and so has a resource of an account. It does nothing.
    pub fn keeps_rule(&self)
        ensures { IsTable self.now.rows self.now.next }
    {
        let _ = self.listed();
    }

    // The numbers of all sessions, and of some that ended, ascending.
    pub(crate) fn listed(&self) -> &[u64]
        ensures all { filter (λ n. is_some (row_of n self.now.rows)) result.now ≡ map number_of self.now.rows }
        ensures climbing { Climbs self.now.next 1 result.now }
        ensures table { IsTable self.now.rows self.now.next }
    {
        self.numbers.as_slice()
    }

    /// The least number above `number` of a session that lives. `None` where there is none. From 0 on, each answer given
    /// again leads through all sessions in the order of their numbers. It passes over the numbers of sessions that ended
    /// and are listed still.
    pub fn next_after(&self, number: u64) -> Option<u64>
        ensures number { result ≡ find (λ n. nat_lt number n) (map number_of self.now.rows) }
        ensures table { IsTable self.now.rows self.now.next }
    {
        let numbers = self.listed();
        self.first_living(&numbers[above(numbers, number)..])
    }

    // The first of some numbers that is a session's.
    fn first_living(&self, numbers: &[u64]) -> Option<u64>
        ensures { result ≡ find (λ n. is_some (row_of n self.now.rows)) numbers.now }
    {
        for number in numbers {
            if self.row(*number).is_some() {
                return Some(*number);
            }
        }
        None
    }

    // The session with a number.
    pub(crate) fn row(&self, number: u64) -> Option<&Row>
        ensures { option_copied result ≡ row_of number self.now.rows }
    {
        self.rows.get(&number)
    }

    /// What is told of a session. `None` where no session has the number.
    pub fn view(&self, number: u64) -> Option<&SessionView>
        ensures { option_copied result ≡ option_map (λ r. r.shown) (row_of number self.now.rows) }
    {
        Some(&self.row(number)?.shown)
    }

    /// A session's end of the acknowledgements. `None` where no session has the number.
    pub fn ack_end(&self, number: u64) -> Option<&AckEnd>
        ensures { option_copied result ≡ option_map (λ r. r.end) (row_of number self.now.rows) }
    {
        Some(&self.row(number)?.end)
    }

    // Whether there is a session with a number, and it is sought.
    fn meets(&self, number: u64, sought: &Sought) -> bool
        ensures { result ≡ passes (seeks sought.now) (row_of number self.now.rows) }
    {
        match self.row(number) {
            Some(row) => row.is(sought),
            None => false,
        }
    }

    // The session with a number, where there is one and it is sought.
    fn checked(&self, number: Option<u64>, sought: &Sought) -> Option<u64>
        ensures { MatchOption result (IfSome number (λ n. passes (seeks sought.now) (row_of n self.now.rows) ≡ false)) (λ n. Meets (seeks sought.now) n self.now.rows) }
    {
        let number = number?;
        if self.meets(number, sought) {
            Some(number)
        } else {
            None
        }
    }

    // A session that is sought, by going through all.
    fn scan(&self, sought: &Sought) -> Option<u64>
        ensures number { MatchOption result (find (seeks sought.now) self.now.rows ≡ None) (λ n. Meets (seeks sought.now) n self.now.rows) }
        ensures table { IsTable self.now.rows self.now.next }
    {
        for number in self.listed() {
            if self.meets(*number, sought) {
                return Some(*number);
            }
        }
        None
    }

    /// The number of the session on a connection. `None` where it has none.
    pub fn by_conn(&self, conn: u64) -> Option<u64>
        ensures number { result ≡ option_map number_of (row_at conn self.now.rows) }
        ensures table { IsTable self.now.rows self.now.next }
    {
        let sought = Sought::Conn(conn);
        if self.index.whole {
            self.checked(self.index.conns.get(&conn).copied(), &sought)
        } else {
            self.scan(&sought)
        }
    }

    /// The numbers of an account's sessions, ascending.
    pub fn of_account(&self, account: u32) -> &[u64]
        ensures numbers { result.now ≡ map number_of (filter (is_of account) self.now.rows) }
        ensures table { IsTable self.now.rows self.now.next }
    {
        self.index.sessions_of_account(account)
    }

    /// The number of the session of an account with a resource. `None` where there is none. It goes through the sessions
    /// of the account alone.
    pub fn by_name(&self, account: u32, resource: &str) -> Option<u64>
        ensures number { result ≡ option_map number_of (row_named account resource.now self.now.rows) }
        ensures table { IsTable self.now.rows self.now.next }
    {
        self.first_sought(self.of_account(account), &Sought::Named(account, resource))
    }

    // The first of some numbers that is that of a session that is sought.
    fn first_sought(&self, numbers: &[u64], sought: &Sought) -> Option<u64>
        ensures { result ≡ find (λ n. passes (seeks sought.now) (row_of n self.now.rows)) numbers.now }
    {
        for number in numbers {
            if self.meets(*number, sought) {
                return Some(*number);
            }
        }
        None
    }

    // Adds a session under the next number, last.
    pub(crate) fn push_row(
        &mut self,
        account: u32,
        resource: Text,
        conn: u64,
        queue: QueueId,
    ) -> u64
        requires spare { 1 ≤ self.old.spare }
        requires reservation { self.old.reservation ≡ account }
        requires next { self.old.next < 2 ^ 64 - 1 }
        requires conn { row_at conn self.old.rows ≡ None }
        requires name { row_named account resource self.old.rows ≡ None }
        ensures number { result ≡ self.old.next }
        ensures rows { self.new.rows ≡ self.old.rows ++ fresh_row self.old.next account resource conn queue ∷ [] }
        ensures next { self.new.next ≡ self.old.next + 1 }
        ensures reservation { self.new.reservation ≡ account }
        ensures spare { self.old.spare ≤ self.new.spare + 1 }
    {
        let number = self.next;
        let shown = SessionView::fresh(number, account, resource, conn);
        let row = Row {
            shown,
            end: AckEnd::new(queue),
        };
        match self.numbers.push(number) {
            Ok(()) => {}
            Err(_) => unreachable!(),
        }
        match self.rows.insert(number, row) {
            Ok(_) => {}
            Err(_) => unreachable!(),
        }
        self.index.enter(number, conn);
        self.index.reservation(account, number);
        self.next = number + 1;
        number
    }

    // Takes a session out of the table.
    pub(crate) fn remove_row(&mut self, number: u64) -> Option<Row>
        ensures row { result ≡ row_of number self.old.rows }
        ensures rows { self.new.rows ≡ without number self.old.rows }
        ensures next { self.new.next ≡ self.old.next }
        ensures reservation { self.new.reservation ≡ self.old.reservation }
        ensures kept { self.old.spare ≤ self.new.spare }
    {
        let row = self.rows.remove(&number)?;
        self.index.forget(row.shown.conn);
        self.index.unseat(row.shown.account, number);
        Some(row)
    }

    // Writes that a session's connection is lost.
    pub(crate) fn park_row(&mut self, number: u64, now: u64)
        requires { IsSome (row_of number self.old.rows) }
        ensures rows { self.new.rows ≡ with_row number (parked now) self.old.rows }
        ensures next { self.new.next ≡ self.old.next }
        ensures reservation { self.new.reservation ≡ self.old.reservation }
        ensures kept { self.old.spare ≤ self.new.spare }
    {
        self.index.sweep(&self.rows);
        match self.rows.get_mut(&number) {
            Some(row) => {
                self.index.forget(row.shown.conn);
                row.park(now);
                self.index.wait(number, now);
            }
            None => unreachable!(),
        }
    }

    // Changes a session.
    pub(crate) fn change(&mut self, number: u64, change: Change)
        requires { IsSome (row_of number self.old.rows) }
        ensures { ChangesRow number (changed change) self.old self.new }
    {
        match self.rows.get_mut(&number) {
            Some(row) => row.change(change),
            None => unreachable!(),
        }
    }

    /// Writes a session's presence: whether it is available, and its priority (RFC 6121 section 4.7.2.3).
    pub fn set_presence(&mut self, number: u64, available: bool, priority: i8)
        requires { IsSome (row_of number self.old.rows) }
        ensures { ChangesRow number (present available priority) self.old self.new }
    {
        self.change(number, Change::Present(available, priority));
    }

    /// Writes whether a session wants copies of the account's messages (XEP-0280).
    pub fn set_carbons(&mut self, number: u64, on: bool)
        requires { IsSome (row_of number self.old.rows) }
        ensures { ChangesRow number (copying on) self.old self.new }
    {
        self.change(number, Change::Carbons(on));
    }

    /// Writes whether a session was asked for its count of handled stanzas and has not answered (XEP-0198 section 4). No
    /// other call changes it: neither a count that comes nor a resumption does.
    pub fn set_asked(&mut self, number: u64, on: bool)
        requires { IsSome (row_of number self.old.rows) }
        ensures { ChangesRow number (asking on) self.old self.new }
    {
        self.change(number, Change::Asked(on));
    }

    /// Counts one more stanza of the peer as handled by a session, modulo 2^32 (XEP-0198 section 4).
    pub fn count_handled(&mut self, number: u64)
        requires { IsSome (row_of number self.old.rows) }
        ensures changes { ChangesRow number handling self.old self.new }
        // It is the move by which a stanza under way is handled.
        ensures handles { IfSome (row_of number self.old.rows) (λ r. (d next : Direction (List ℕ)) → IsReceiver r.end d → Moves Handle d next → IsReceiver (handling r).end next) }
    {
        self.change(number, Change::Handled);
    }

    /// Takes the count `h` of handled stanzas that a session's peer states (XEP-0198 section 4): the stanzas up to it
    /// leave the session's queue, and the answer is their number. `TooHigh` comes exactly where `h` is further ahead of
    /// the acknowledged count, modulo 2^32, than the queue is long; then nothing changes. It takes no memory.
    pub fn ack(&mut self, pool: &mut Pool, number: u64, h: u32) -> Result<u32, TooHigh>
        requires lives { IsSome (row_of number self.old.rows) }
        requires housed { IsHoused self.old.rows pool.old }
        ensures answer { IfSome (row_of number self.old.rows) (λ r. result ≡ ack_answer h r pool.old) }
        ensures ok { OnOk result (self.new.rows ≡ with_row number (acknowledged h) self.old.rows) }
        ensures err { OnErr result (self.new.rows ≡ self.old.rows) }
        ensures next { self.new.next ≡ self.old.next }
        ensures reservation { self.new.reservation ≡ self.old.reservation }
        ensures kept { self.old.spare ≤ self.new.spare }
        ensures pool { IfSome (row_of number self.old.rows) (λ r. PoolAcknowledged h r pool.old pool.new) }
        ensures made { pool.new.made ≡ pool.old.made }
        ensures room { pool.old.spare ≤ pool.new.spare }
        ensures housed { IsHoused self.new.rows pool.new }
        // It is the move by which a count that was stated, and is not below the last one, is acknowledged. Where fewer
        // than 2^32 stanzas were put, it is refused exactly where it is below that one or above their number.
        ensures acknowledges { IfSome (row_of number self.old.rows) (λ r. (n : ℕ) (d next : Direction (List ℕ)) → Reached d → IsSender r.end pool.old d →
            Moves (Acknowledge n) d next → h ≡ n % 2 ^ 32 → (result ≡ Ok (n - d.acked)) × IsSender (acknowledged h r).end pool.new next) }
        ensures exact { IfSome (row_of number self.old.rows) (λ r. (d : Direction (List ℕ)) → IsSender r.end pool.old d → length d.put < 2 ^ 32 → IsErr result ↔ ((h < d.acked) ⊎ (length d.put < h))) }
        ensures others { OthersStand (row_of number self.old.rows) self.old.rows self.new.rows pool.old pool.new }
    {
        match self.rows.get_mut(&number) {
            Some(row) => row.ack(pool, h),
            None => unreachable!(),
        }
    }

    /// Puts a stanza at the end of a session's queue. It takes no memory, and lowers the pool's room by at most 1. The
    /// session stays as it was.
    pub fn put_reserved(&mut self, pool: &mut Pool, number: u64, bytes: Bytes)
        requires lives { IsSome (row_of number self.old.rows) }
        requires housed { IsHoused self.old.rows pool.old }
        requires few { IfSome (row_of number self.old.rows) (λ r. length (list_of r.end.queue pool.old) < MOST_UNACKNOWLEDGED) }
        requires spare { 1 ≤ pool.old.spare }
        ensures rows { self.new.rows ≡ self.old.rows }
        ensures next { self.new.next ≡ self.old.next }
        ensures reservation { self.new.reservation ≡ self.old.reservation }
        ensures kept { self.old.spare ≤ self.new.spare }
        ensures pool { IfSome (row_of number self.old.rows) (λ r. Joins bytes.items r pool.old pool.new) }
        ensures made { pool.new.made ≡ pool.old.made }
        ensures room { pool.old.spare ≤ pool.new.spare + 1 }
        ensures housed { IsHoused self.new.rows pool.new }
        // It is the move by which the stanza is put.
        ensures puts { IfSome (row_of number self.old.rows) (λ r. (d next : Direction (List ℕ)) → IsSender r.end pool.old d → Moves (Put bytes.items) d next → IsSender r.end pool.new next) }
        ensures others { OthersStand (row_of number self.old.rows) self.old.rows self.new.rows pool.old pool.new }
    {
        match self.rows.get_mut(&number) {
            Some(row) => row.put(pool, bytes),
            None => unreachable!(),
        }
    }

    // Gives a session another connection and an empty queue, into which its stanzas go.
    pub(crate) fn attach_row(&mut self, pool: &mut Pool, number: u64, conn: u64, queue: QueueId)
        requires lives { IsSome (row_of number self.old.rows) }
        requires housed { IsHoused self.old.rows pool.old }
        requires conn { row_at conn self.old.rows ≡ None }
        requires queue { IsFree queue self.old.rows pool.old }
        ensures rows { self.new.rows ≡ with_row number (attached conn queue) self.old.rows }
        ensures next { self.new.next ≡ self.old.next }
        ensures reservation { self.new.reservation ≡ self.old.reservation }
        ensures kept { self.old.spare ≤ self.new.spare }
        ensures pool { IfSome (row_of number self.old.rows) (λ r. HandsOver 0 queue r pool.old pool.new) }
        ensures made { pool.new.made ≡ pool.old.made }
        ensures room { pool.old.spare ≤ pool.new.spare }
        ensures housed { IsHoused self.new.rows pool.new }
    {
        match self.rows.get_mut(&number) {
            Some(row) => {
                self.index.forget(row.shown.conn);
                row.attach(pool, conn, queue);
                self.index.enter(number, conn);
            }
            None => unreachable!(),
        }
    }

    // The number of a session that can be resumed no more.
    pub(crate) fn expired(&mut self, now: u64) -> Option<u64>
        ensures number { MatchOption result (find (is_expired now) self.old.rows ≡ None) (λ n. HasExpired now n self.old.rows) }
        ensures table { IsTable self.old.rows self.old.next }
        ensures rows { self.new.rows ≡ self.old.rows }
        ensures next { self.new.next ≡ self.old.next }
        ensures reservation { self.new.reservation ≡ self.old.reservation }
        ensures kept { self.old.spare ≤ self.new.spare }
    {
        if !self.index.whole {
            return self.scan(&Sought::Expired(now));
        }
        self.index.overdue(&self.rows, now)
    }
}
