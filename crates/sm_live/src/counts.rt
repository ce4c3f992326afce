//! The stanzas of a session and their counts (XEP-0198, sections 3 and 4), and what else is written of a session.
ghost use Rattle.std.specs.Prelude.{◌≡◌, ◌+◌, ◌<◌, ◌≤◌, ◌↔◌, true, length, IfSome, IsErr, IsSome, OnErr, OnOk};
ghost use Rattle.sm_live.specs.Sessions.{ack_answer, acknowledged, asks, copies, enables, handles, presents, session_of, waits, with_session};

use crate::live::Live;
use base_io::Bytes;
use sm_acks::{MOST_UNACKNOWLEDGED, TooHigh};
use sm_resumption::AlreadyEnabled;

impl Live {
    /// Puts a stanza behind those that wait in a session. It takes no memory, and lowers the room by at most 1.
    pub fn put(&mut self, number: u64, bytes: Bytes)
        requires lives { IsSome (session_of number self.old.sessions) }
        requires few { IfSome (session_of number self.old.sessions) (λ s. length s.waiting < MOST_UNACKNOWLEDGED) }
        requires room { 1 ≤ self.old.room }
        ensures sessions { self.new.sessions ≡ with_session number (waits bytes.items) self.old.sessions }
        ensures next { self.new.next ≡ self.old.next }
        ensures room { self.old.room ≤ self.new.room + 1 }
        ensures reservation { self.new.reservation ≡ self.old.reservation }
        ensures queues { self.new.queues ≡ self.old.queues }
    {
        self.table.keeps_rule();
        self.table.put_reserved(&mut self.pool, number, bytes);
    }

    /// Takes the count `h` of handled stanzas that a session's peer states (XEP-0198 section 4): the stanzas up to it wait
    /// no more, and the answer is their number. `TooHigh` comes exactly where `h` is further ahead of the acknowledged
    /// count, modulo 2^32, than stanzas wait; then nothing changes. It takes no memory.
    pub fn ack(&mut self, number: u64, h: u32) -> Result<u32, TooHigh>
        requires lives { IsSome (session_of number self.old.sessions) }
        ensures answer { IfSome (session_of number self.old.sessions) (λ s. result ≡ ack_answer h s) }
        ensures ok { OnOk result (self.new.sessions ≡ with_session number (acknowledged h) self.old.sessions) }
        ensures err { OnErr result (self.new.sessions ≡ self.old.sessions) }
        ensures next { self.new.next ≡ self.old.next }
        ensures room { self.old.room ≤ self.new.room }
        ensures reservation { self.new.reservation ≡ self.old.reservation }
        ensures queues { self.new.queues ≡ self.old.queues }
    {
        self.table.keeps_rule();
        self.table.ack(&mut self.pool, number, h)
    }

    /// Counts a session's stanzas from now on, and lets it be resumed where `resume` says so (XEP-0198 section 3).
    /// `AlreadyEnabled` comes exactly where they are counted already; then nothing changes.
    pub fn enable(&mut self, number: u64, resume: bool) -> Result<(), AlreadyEnabled>
        requires lives { IsSome (session_of number self.old.sessions) }
        ensures already { IfSome (session_of number self.old.sessions) (λ s. IsErr result ↔ (s.shown.counted ≡ true)) }
        ensures ok { OnOk result (self.new.sessions ≡ with_session number (enables resume) self.old.sessions) }
        ensures err { OnErr result (self.new.sessions ≡ self.old.sessions) }
        ensures next { self.new.next ≡ self.old.next }
        ensures room { self.new.room ≡ self.old.room }
        ensures reservation { self.new.reservation ≡ self.old.reservation }
        ensures queues { self.new.queues ≡ self.old.queues }
    {
        self.table.enable(number, resume)
    }

    /// Counts one more stanza of the peer as handled by a session, modulo 2^32 (XEP-0198 section 4).
    pub fn count_handled(&mut self, number: u64)
        requires lives { IsSome (session_of number self.old.sessions) }
        ensures sessions { self.new.sessions ≡ with_session number handles self.old.sessions }
        ensures next { self.new.next ≡ self.old.next }
        ensures room { self.new.room ≡ self.old.room }
        ensures reservation { self.new.reservation ≡ self.old.reservation }
        ensures queues { self.new.queues ≡ self.old.queues }
    {
        self.table.count_handled(number);
    }

    /// Writes whether a session was asked for its count of handled stanzas and has not answered (XEP-0198 section 4). No
    /// other call changes it.
    pub fn set_asked(&mut self, number: u64, on: bool)
        requires lives { IsSome (session_of number self.old.sessions) }
        ensures sessions { self.new.sessions ≡ with_session number (asks on) self.old.sessions }
        ensures next { self.new.next ≡ self.old.next }
        ensures room { self.new.room ≡ self.old.room }
        ensures reservation { self.new.reservation ≡ self.old.reservation }
        ensures queues { self.new.queues ≡ self.old.queues }
    {
        self.table.set_asked(number, on);
    }

    /// Writes a session's presence: whether it is available, and its priority (RFC 6121 section 4.7.2.3).
    pub fn set_presence(&mut self, number: u64, available: bool, priority: i8)
        requires lives { IsSome (session_of number self.old.sessions) }
        ensures sessions { self.new.sessions ≡ with_session number (presents available priority) self.old.sessions }
        ensures next { self.new.next ≡ self.old.next }
        ensures room { self.new.room ≡ self.old.room }
        ensures reservation { self.new.reservation ≡ self.old.reservation }
        ensures queues { self.new.queues ≡ self.old.queues }
    {
        self.table.set_presence(number, available, priority);
    }

    /// Writes whether a session wants copies of the account's messages (XEP-0280).
    pub fn set_carbons(&mut self, number: u64, on: bool)
        requires lives { IsSome (session_of number self.old.sessions) }
        ensures sessions { self.new.sessions ≡ with_session number (copies on) self.old.sessions }
        ensures next { self.new.next ≡ self.old.next }
        ensures room { self.new.room ≡ self.old.room }
        ensures reservation { self.new.reservation ≡ self.old.reservation }
        ensures queues { self.new.queues ≡ self.old.queues }
    {
        self.table.set_carbons(number, on);
    }
}
