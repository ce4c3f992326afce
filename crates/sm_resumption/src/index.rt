//! What sessions are found by, other than their numbers.
//!
//! The index of connections and parked sessions may be given up where room runs out; look-ups then go through all
//! sessions, with the same answers, until the next `reserve`. So no answer depends on memory.
//!
//! Sessions are indexed by account, each account's numbers in a list, and a name is looked for among them: so a peer
//! can lengthen a look-up only by binding many sessions of its own account.
//!
//! Room for a session is made for an account (`reserve(account)`). An account's list keeps its room where its
//! sessions end.
ghost use Rattle.std.specs.HashMap as hash;
ghost use Rattle.std.specs.List.Sorted.{IsNonDecreasingBy};
ghost use Rattle.std.specs.Prelude.{◌≡◌, ◌≢◌, ℕ, ◌+◌, ◌-◌, ◌<◌, ◌≤◌, ◌==◌, [], ◌∷◌, ◌++◌, List, filter, not, Some, None, IfNone, IfSome, IsSome, MatchOption, OnOk, false, length, nat_eq, slice_index_or, true};
ghost use Rattle.sm_resumption.specs.Indexed.{AreApart, AreInOrder, HasFirst, KeepsParked, account_room, account_sessions, conn_in, is_parked_at, is_wait, waits_in};
ghost use Rattle.sm_resumption.specs.Moves.{is_expired};
ghost use Rattle.sm_resumption.specs.Stored.{passes};
ghost use Rattle.sm_resumption.specs.declared.session.Row.{Row};

use crate::answers::RESUMABLE_FOR;
use crate::session::Row;
use base_io::NoMemory;
use std::alloc::Global;
use std::collections::{HashMap, VecDeque};

// That a session was parked, and when.
#[derive(Clone, Copy)]
pub(crate) struct Wait {
    pub(crate) since: u64,
    pub(crate) number: u64,
}

// What sessions are found by, other than their numbers. `conns` has the session of each connection, and `waits` those
// that were parked, in the order of the moments. An entry of `waits` stays where its session is resumed or ends, and
// says nothing from then on. Where room ran out `whole` is false, and some sessions may be missing from both.
// `sessions_by_account` has the sessions of each account, ascending. `reserve` alone asks for memory: an entry is added
// only where there is room to spare.
#[derive(Drop)]
pub(crate) struct Index {
    pub(crate) conns: HashMap<u64, u64>,
    pub(crate) waits: VecDeque<Wait>,
    pub(crate) whole: bool,
    pub(crate) sessions_by_account: HashMap<u32, Vec<u64>>,
    pub(crate) alloc: Global,
}

// Whether a session is parked since a moment.
fn is_waiting(rows: &HashMap<u64, Row>, wait: &Wait) -> bool
    ensures { result ≡ passes (is_parked_at wait.now.since) (hash.get nat_eq rows.now wait.now.number) }
{
    match rows.get(&wait.number) {
        Some(row) => row.shown.conn.is_none() && row.shown.parked_at == wait.since,
        None => false,
    }
}

// Whether a session has been parked for too long.
fn has_expired(rows: &HashMap<u64, Row>, number: u64, now: u64) -> bool
    ensures { result ≡ passes (is_expired now) (hash.get nat_eq rows.now number) }
{
    match rows.get(&number) {
        Some(row) => row.is_expired(now),
        None => false,
    }
}

impl Index {
    // An index of no sessions.
    pub(crate) fn new(alloc: Global) -> Index
        ensures ordered { AreInOrder result }
        ensures sessions_by_account { (account : ℕ) → account_sessions result account ≡ [] }
    {
        Index {
            conns: HashMap::new(alloc),
            waits: VecDeque::new(alloc),
            whole: true,
            sessions_by_account: HashMap::new(alloc),
            alloc,
        }
    }

    // The sessions of an account, ascending.
    pub(crate) fn sessions_of_account(&self, account: u32) -> &[u64]
        ensures { result.now ≡ account_sessions self.now account }
    {
        match self.sessions_by_account.get(&account) {
            Some(numbers) => numbers.as_slice(),
            None => &[],
        }
    }

    // Makes room for one session more of an account, for `count` and a quarter more by connection, and for twice as many
    // that were parked.
    pub(crate) fn reserve(&mut self, count: usize, account: u32) -> Result<(), NoMemory>
        ensures conns { (q : ℕ) → conn_in self.new q ≡ conn_in self.old q }
        ensures waits { self.new.waits.items ≡ self.old.waits.items }
        ensures whole { self.new.whole ≡ self.old.whole }
        ensures sessions_by_account { (q : ℕ) → account_sessions self.new q ≡ account_sessions self.old q }
        ensures kept { (q : ℕ) → account_room self.old q ≤ account_room self.new q }
        ensures spare { OnOk result (1 ≤ account_room self.new account) }
    {
        self.reserve_session(account)?;
        if self.waits.capacity() / 2 < count {
            self.waits.reserve(count.saturating_mul(3))?;
        }
        if self.conns.capacity() < count.saturating_add(count / 4) {
            self.conns.reserve(count)?;
        }
        Ok(())
    }

    // Makes room for one session more of an account.
    fn reserve_session(&mut self, account: u32) -> Result<(), NoMemory>
        ensures conns { self.new.conns ≡ self.old.conns }
        ensures waits { self.new.waits ≡ self.old.waits }
        ensures whole { self.new.whole ≡ self.old.whole }
        ensures sessions_by_account { (q : ℕ) → account_sessions self.new q ≡ account_sessions self.old q }
        ensures kept { (q : ℕ) → account_room self.old q ≤ account_room self.new q }
        ensures spare { OnOk result (1 ≤ account_room self.new account) }
    {
        if !self.sessions_by_account.contains_key(&account) {
            self.sessions_by_account
                .insert(account, Vec::new(self.alloc))?;
        }
        match self.sessions_by_account.get_mut(&account) {
            Some(numbers) => {
                numbers.reserve(1)?;
                Ok(())
            }
            None => unreachable!(),
        }
    }

    // Puts each session back, by its connection or among the parked, into the room that there is.
    pub(crate) fn mend(&mut self, numbers: &[u64], rows: &HashMap<u64, Row>)
        requires { AreApart (hash.get nat_eq rows.now) }
        ensures placed { self.new.whole ≡ true → HasFirst (length numbers.now) self.new numbers.now (hash.get nat_eq rows.now) }
        ensures sessions_by_account { self.new.sessions_by_account ≡ self.old.sessions_by_account }
        ensures ordered { AreInOrder self.new }
    {
        self.conns.clear();
        self.waits.clear();
        self.whole = true;
        for number in numbers {
            if let Some(row) = rows.get(number) {
                match row.shown.conn {
                    Some(conn) => self.enter(*number, conn),
                    None => self.wait(*number, row.shown.parked_at),
                }
            }
        }
    }

    // A session's connection, where it had one, is told no more.
    pub(crate) fn forget(&mut self, conn: Option<u64>)
        ensures conns { (q : ℕ) → conn ≢ Some q → conn_in self.new q ≡ conn_in self.old q }
        ensures waits { self.new.waits ≡ self.old.waits }
        ensures whole { self.new.whole ≡ self.old.whole }
        ensures sessions_by_account { self.new.sessions_by_account ≡ self.old.sessions_by_account }
    {
        if let Some(conn) = conn {
            let _ = self.conns.remove(&conn);
        }
    }

    // Drops what is said of sessions that ended or were resumed, where there is no room for one more that is parked.
    pub(crate) fn sweep(&mut self, rows: &HashMap<u64, Row>)
        requires { AreInOrder self.old }
        ensures conns { self.new.conns ≡ self.old.conns }
        ensures waits { KeepsParked (hash.get nat_eq rows.now) self.old self.new }
        ensures ordered { AreInOrder self.new }
        ensures whole { self.new.whole ≡ self.old.whole }
        ensures sessions_by_account { self.new.sessions_by_account ≡ self.old.sessions_by_account }
    {
        if self.waits.len() == self.waits.capacity() {
            self.waits.retain(|wait| is_waiting(rows, wait));
        }
    }

    // How many sessions were parked at a moment or before it.
    fn before(&self, since: u64) -> usize
        requires { AreInOrder self.now }
        ensures bound { result ≤ length self.now.waits.items }
        ensures low { (k : ℕ) (d : Wait) → k < result → (slice_index_or self.now.waits.items k d).since ≤ since }
        ensures high { (k : ℕ) (d : Wait) → result ≤ k → k < length self.now.waits.items → since ≤ (slice_index_or self.now.waits.items k d).since }
    {
        match self.waits.back() {
            Some(last) if last.since > since => self
                .waits
                .partition_point(|wait| wait.since <= since),
            _ => self.waits.len(),
        }
    }

    // A session is parked from a moment on.
    pub(crate) fn wait(&mut self, number: u64, since: u64)
        requires { AreInOrder self.old }
        ensures conns { self.new.conns ≡ self.old.conns }
        ensures here { self.new.whole ≡ true → waits_in self.new since number ≡ true }
        ensures waits { (s q : ℕ) → waits_in self.old s q ≡ true → waits_in self.new s q ≡ true }
        ensures ordered { AreInOrder self.new }
        ensures whole { self.new.whole ≡ true → self.old.whole ≡ true }
        ensures sessions_by_account { self.new.sessions_by_account ≡ self.old.sessions_by_account }
    {
        if self.waits.len() == self.waits.capacity() {
            self.whole = false;
            return;
        }
        let position = self.before(since);
        match self.waits.insert(position, Wait { since, number }) {
            Ok(()) => {}
            Err(_) => self.whole = false,
        }
    }

    // The session of the first entry, where the moment is so long ago that a session can be resumed no more.
    fn first(&self, now: u64) -> Option<u64>
        requires { AreInOrder self.now }
        ensures none { IfNone result ((s q : ℕ) → waits_in self.now s q ≡ true → now - s < RESUMABLE_FOR) }
        ensures some { IfSome result (λ n. (s : ℕ) × (ws : List Wait) × (self.now.waits.items ≡ record { since = s; number = n } ∷ ws) × (RESUMABLE_FOR ≤ now - s)) }
    {
        let first = self.waits.front()?;
        if now.saturating_sub(first.since) < RESUMABLE_FOR {
            None
        } else {
            Some(first.number)
        }
    }

    // The session that was parked first, where it can be resumed no more. Entries that say nothing any more are dropped on
    // the way.
    pub(crate) fn overdue(&mut self, rows: &HashMap<u64, Row>, now: u64) -> Option<u64>
        requires { AreInOrder self.old }
        ensures conns { self.new.conns ≡ self.old.conns }
        ensures waits { KeepsParked (hash.get nat_eq rows.now) self.old self.new }
        ensures ordered { AreInOrder self.new }
        ensures whole { self.new.whole ≡ self.old.whole }
        ensures sessions_by_account { self.new.sessions_by_account ≡ self.old.sessions_by_account }
        ensures some { IfSome result (λ n. passes (is_expired now) (hash.get nat_eq rows.now n) ≡ true) }
        ensures none { IfNone result ((n : ℕ) (r : Row) → hash.get nat_eq rows.now n ≡ Some r → r.shown.conn ≡ None → waits_in self.old r.shown.parked_at n ≡ true → is_expired now r ≡ false) }
    {
        'first: loop {
            let number = self.first(now)?;
            if has_expired(rows, number, now) {
                return Some(number);
            }
            let _ = self.waits.pop_front();
        }
    }

    // A session is on a connection.
    pub(crate) fn enter(&mut self, number: u64, conn: u64)
        ensures here { self.new.whole ≡ true → conn_in self.new conn ≡ Some number }
        ensures conns { (q : ℕ) → q ≢ conn → conn_in self.new q ≡ conn_in self.old q }
        ensures waits { self.new.waits ≡ self.old.waits }
        ensures whole { self.new.whole ≡ true → self.old.whole ≡ true }
        ensures sessions_by_account { self.new.sessions_by_account ≡ self.old.sessions_by_account }
    {
        if self.conns.len() == self.conns.capacity() {
            self.whole = false;
            return;
        }
        match self.conns.insert(conn, number) {
            Ok(_) => {}
            Err(_) => self.whole = false,
        }
    }

    // An account has a session more, whose number is above those of its others.
    pub(crate) fn reservation(&mut self, account: u32, number: u64)
        requires { 1 ≤ account_room self.old account }
        ensures here { account_sessions self.new account ≡ account_sessions self.old account ++ number ∷ [] }
        ensures others { (q : ℕ) → q ≢ account → account_sessions self.new q ≡ account_sessions self.old q }
        ensures spare { (q : ℕ) → account_room self.old q ≤ account_room self.new q + 1 }
        ensures conns { self.new.conns ≡ self.old.conns }
        ensures waits { self.new.waits ≡ self.old.waits }
        ensures whole { self.new.whole ≡ self.old.whole }
    {
        match self.sessions_by_account.get_mut(&account) {
            Some(numbers) => match numbers.push(number) {
                Ok(()) => {}
                Err(_) => unreachable!(),
            },
            None => unreachable!(),
        }
    }

    // A session of an account is gone.
    pub(crate) fn unseat(&mut self, account: u32, number: u64)
        ensures here { account_sessions self.new account ≡ filter (λ m. not (m == number)) (account_sessions self.old account) }
        ensures others { (q : ℕ) → q ≢ account → account_sessions self.new q ≡ account_sessions self.old q }
        ensures spare { (q : ℕ) → account_room self.old q ≤ account_room self.new q }
        ensures conns { self.new.conns ≡ self.old.conns }
        ensures waits { self.new.waits ≡ self.old.waits }
        ensures whole { self.new.whole ≡ self.old.whole }
    {
        if let Some(numbers) = self.sessions_by_account.get_mut(&account) {
            numbers.retain(|other| *other != number);
        }
    }
}
