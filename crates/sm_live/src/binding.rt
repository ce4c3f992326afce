//! Sessions begin, lose their connections and end (RFC 6120, section 7; XEP-0198, section 5).
ghost use Rattle.std.specs.Prelude.{◌≡◌, ◌+◌, ◌≤◌, None, Some};
ghost use Rattle.std.specs.Option.{option_map};
ghost use Rattle.sm_live.specs.Sessions.{bound, ended_of, lost, lost_as, number_of, session_at, session_named, session_of, unexpired, without, without_at};

use crate::live::Live;
use base_io::Text;
use sm_resumption::{Bound, Ended, Lost};

impl Live {
    /// Makes a session of an account with a resource, on a connection (RFC 6120 section 7), in the seat that was reserved for
    /// the account. An older session of the same account and resource, attached or parked, ends first (section 7.7.2.2),
    /// and is told. The new session gets the next number, which rises by 1. It moves the resource, and takes no memory.
    pub fn bind(&mut self, account: u32, resource: Text, conn: u64) -> Bound
        requires reservation { self.old.reservation ≡ Some account }
        requires conn { session_at conn self.old.sessions ≡ None }
        ensures number { result.number ≡ self.old.next }
        ensures ended { result.ended ≡ option_map ended_of (session_named account resource self.old.sessions) }
        ensures sessions { self.new.sessions ≡ bound self.old.next account resource conn self.old.sessions }
        ensures next { self.new.next ≡ self.old.next + 1 }
        ensures room { self.old.room ≤ self.new.room }
        ensures reservation { self.new.reservation ≡ None }
        ensures queues { self.new.queues ≡ self.old.queues }
    {
        self.table.keeps_rule();
        match self.reservation.take() {
            Some(reservation) => self
                .table
                .bind(&mut self.pool, account, resource, conn, reservation.queue),
            None => unreachable!(),
        }
    }

    /// Ends the session with a number, and drops its stanzas. `None` exactly where it doesn't live; then nothing changes. It
    /// takes no memory.
    pub fn end(&mut self, number: u64) -> Option<Ended>
        ensures ended { result ≡ option_map ended_of (session_of number self.old.sessions) }
        ensures sessions { self.new.sessions ≡ without number self.old.sessions }
        ensures next { self.new.next ≡ self.old.next }
        ensures room { self.old.room ≤ self.new.room }
        ensures reservation { self.new.reservation ≡ self.old.reservation }
        ensures queues { self.new.queues ≡ self.old.queues }
    {
        self.table.keeps_rule();
        self.table.end(&mut self.pool, number)
    }

    /// Ends the session on a connection, and answers its number. `None` exactly where the connection has none; then nothing
    /// changes. It takes no memory.
    pub fn end_at(&mut self, conn: u64) -> Option<u64>
        ensures number { result ≡ option_map number_of (session_at conn self.old.sessions) }
        ensures sessions { self.new.sessions ≡ without_at conn self.old.sessions }
        ensures next { self.new.next ≡ self.old.next }
        ensures room { self.old.room ≤ self.new.room }
        ensures reservation { self.new.reservation ≡ self.old.reservation }
        ensures queues { self.new.queues ≡ self.old.queues }
    {
        self.table.keeps_rule();
        let number = self.table.by_conn(conn)?;
        let _ = self.end(number);
        Some(number)
    }

    /// Parks the session of a connection that was lost, at the moment `now` in milliseconds since 1970: a session that can
    /// be resumed stays without a connection, with its stanzas, and any other ends. The answer says which, and is `None`
    /// exactly where the connection has no session; then nothing changes. It takes no memory.
    pub fn park(&mut self, conn: u64, now: u64) -> Option<Lost>
        ensures answer { result ≡ option_map lost_as (session_at conn self.old.sessions) }
        ensures sessions { self.new.sessions ≡ lost now (session_at conn self.old.sessions) self.old.sessions }
        ensures next { self.new.next ≡ self.old.next }
        ensures room { self.old.room ≤ self.new.room }
        ensures reservation { self.new.reservation ≡ self.old.reservation }
        ensures queues { self.new.queues ≡ self.old.queues }
    {
        self.table.keeps_rule();
        self.table.park(&mut self.pool, conn, now)
    }

    /// Ends each session that has been parked for `sm_resumption::RESUMABLE_FOR` milliseconds or longer at the moment `now`.
    /// It takes no memory.
    pub fn expire(&mut self, now: u64)
        ensures sessions { self.new.sessions ≡ unexpired now self.old.sessions }
        ensures next { self.new.next ≡ self.old.next }
        ensures room { self.old.room ≤ self.new.room }
        ensures reservation { self.new.reservation ≡ self.old.reservation }
        ensures queues { self.new.queues ≡ self.old.queues }
    {
        self.table.keeps_rule();
        self.table.expire(&mut self.pool, now);
    }
}
