//! A client's session, from its `enabled` on, which can be resumed (XEP-0198, sections 3 and 5).
ghost use Rattle.std.specs.Prelude.{◌≡◌, ◌+◌, ◌<◌, ◌≤◌, ◌++◌, false, length, not, true, if◌then◌else◌, IfErr, IfNone, IfOk, IfSome, OnErr, OnOk};
ghost use Rattle.std.specs.List.{concat};
ghost use Rattle.sm_acks.specs.Counters.{ahead};
ghost use Rattle.sm_outbox.specs.Sessions.{begun, with_waiting};
ghost use Rattle.sm_outbox.specs.Waiting.{acked, answered, counted_in, is_full, is_too_high, queued, resent, submissions_to, too_high};

use crate::outbox::{Acknowledged, Outbox};
use base_io::{Bytes, NoMemory, Text};
use sm_acks::{MOST_UNACKNOWLEDGED, TooHigh};
use std::alloc::Global;
use std::marker::Model;

/// A session: the id for its resumption, and the stanzas that the server has not acknowledged. Contracts see both, and the
/// number `spare` of further stanzas that fit without more memory.
///
/// Room is made first, by `reserve`. What is put goes into the queue, and a copy of it into what is sent now, where the
/// session has a connection.
#[derive(Drop)]
pub struct Session {
    previd: Text,
    outbox: Outbox,
}

impl Model for Session {
    ghost use Rattle.sm_outbox.specs.Kept.{HeldSession};

    ghost Value = { HeldSession };

    ghost view = { λ s. record { session = record { previd = s.previd; waiting = s.outbox.waiting }; spare = s.outbox.spare } };
}

impl Session {
    /// A session with the id that the server gave it, both counts 0 and no stanza. A refusal drops the id.
    pub fn new(alloc: Global, previd: Text) -> Result<Session, NoMemory>
        ensures { IfOk result (λ s. s.session ≡ begun previd) }
    {
        let outbox = Outbox::new(alloc)?;
        Ok(Session { previd, outbox })
    }

    /// The id for its resumption (XEP-0198 section 5).
    pub fn previd(&self) -> &str
        ensures { result.now ≡ self.now.session.previd }
    {
        self.previd.as_str()
    }

    /// How many stanzas of the server were handled, modulo 2^32 (XEP-0198 section 4).
    pub fn handled(&self) -> u32
        ensures { result ≡ self.now.session.waiting.handled }
    {
        self.outbox.handled()
    }

    /// How many stanzas wait: at most 10,000, and of each it is kept whether it is a submission.
    pub fn len(&self) -> u64
        ensures value { result ≡ length self.now.session.waiting.queue }
        ensures most { result ≤ MOST_UNACKNOWLEDGED }
        ensures both { length self.now.session.waiting.submissions ≡ length self.now.session.waiting.queue }
    {
        self.outbox.len()
    }

    /// Whether as many stanzas wait as may.
    pub fn is_full(&self) -> bool
        ensures value { result ≡ is_full self.now.session.waiting }
        ensures more { result ≡ false → length self.now.session.waiting.queue < MOST_UNACKNOWLEDGED }
    {
        self.outbox.is_full()
    }

    /// Makes room for `n` stanzas. The session stays on each outcome.
    pub fn reserve(&mut self, n: u32) -> Result<(), NoMemory>
        ensures ok { OnOk result (n ≤ self.new.spare) }
        ensures session { self.new.session ≡ self.old.session }
    {
        self.outbox.reserve(n)
    }

    /// Counts one more stanza of the server as handled, modulo 2^32. It takes no memory.
    pub fn count_handled(&mut self)
        ensures session { self.new.session ≡ with_waiting self.old.session (counted_in self.old.session.waiting) }
        ensures spare { self.new.spare ≡ self.old.spare }
    {
        self.outbox.count_handled();
    }

    /// Puts a stanza that isn't sent now, since the session has no connection: it waits for a resumption. It moves the
    /// bytes, takes no memory, and lowers the room by at most 1.
    pub fn queue_reserved(&mut self, bytes: Bytes, is_submission: bool)
        requires few { length self.old.session.waiting.queue < MOST_UNACKNOWLEDGED }
        requires spare { 1 ≤ self.old.spare }
        ensures session { self.new.session ≡ with_waiting self.old.session (queued self.old.session.waiting bytes.items is_submission) }
        ensures spare { self.old.spare ≤ self.new.spare + 1 }
    {
        self.outbox.put_reserved(bytes, is_submission);
    }

    /// Puts a stanza, and appends it to what is sent now. It takes no memory, and lowers the room by at most 1, and that of
    /// `out` by at most the stanza's length.
    pub fn put_reserved(&mut self, bytes: Bytes, is_submission: bool, out: &mut Bytes)
        requires few { length self.old.session.waiting.queue < MOST_UNACKNOWLEDGED }
        requires spare { 1 ≤ self.old.spare }
        requires room { length bytes.items ≤ out.old.spare }
        ensures session { self.new.session ≡ with_waiting self.old.session (queued self.old.session.waiting bytes.items is_submission) }
        ensures spare { self.old.spare ≤ self.new.spare + 1 }
        ensures out { out.new.items ≡ out.old.items ++ bytes.items }
        ensures room { out.old.spare ≤ out.new.spare + length bytes.items }
    {
        out.append_reserved(bytes.as_slice());
        self.outbox.put_reserved(bytes, is_submission);
    }

    /// Counts a stanza of the server as handled, and puts an answer to it, in this order. Where as many stanzas wait as may,
    /// it only counts, and answers false. A refusal leaves all as it was.
    pub fn answer(&mut self, bytes: Bytes, out: &mut Bytes) -> Result<bool, NoMemory>
        ensures put { IfOk result (λ put. put ≡ not (is_full self.old.session.waiting)) }
        ensures session { OnOk result (self.new.session ≡ with_waiting self.old.session (answered self.old.session.waiting bytes.items)) }
        ensures out { IfOk result (λ put. out.new.items ≡ (if put then out.old.items ++ bytes.items else out.old.items)) }
        ensures err { OnErr result (self.new.session ≡ self.old.session) }
        ensures err_out { OnErr result (out.new.items ≡ out.old.items) }
    {
        self.outbox.reserve(1)?;
        out.reserve(bytes.as_slice().len())?;
        self.count_handled();
        if self.is_full() {
            return Ok(false);
        }
        self.put_reserved(bytes, false, out);
        Ok(true)
    }

    /// Puts a submission. Where the session is attached, it appends it to what is sent now, and `request` behind it. A
    /// refusal leaves all as it was.
    pub fn submit(
        &mut self,
        bytes: Bytes,
        request: &[u8],
        is_attached: bool,
        out: &mut Bytes,
    ) -> Result<(), NoMemory>
        requires { length self.old.session.waiting.queue < MOST_UNACKNOWLEDGED }
        ensures session { OnOk result (self.new.session ≡ with_waiting self.old.session (queued self.old.session.waiting bytes.items true)) }
        ensures out { OnOk result (out.new.items ≡ (if is_attached then (out.old.items ++ bytes.items) ++ request.now else out.old.items)) }
        ensures err { OnErr result (self.new.session ≡ self.old.session) }
        ensures err_out { OnErr result (out.new.items ≡ out.old.items) }
    {
        self.outbox.reserve(1)?;
        if !is_attached {
            self.outbox.put_reserved(bytes, true);
            return Ok(());
        }
        out.reserve(bytes.as_slice().len().saturating_add(request.len()))?;
        self.put_reserved(bytes, true, out);
        out.append_reserved(request);
        Ok(())
    }

    /// What `ack` answers to a count that is too high, and `None` exactly where it takes the count. Nothing changes.
    pub fn is_too_high(&self, h: u32) -> Option<TooHigh>
        ensures some { IfSome result (λ e. (is_too_high self.now.session.waiting h ≡ true) × (e ≡ too_high self.now.session.waiting h)) }
        ensures none { IfNone result (is_too_high self.now.session.waiting h ≡ false) }
    {
        self.outbox.is_too_high(h)
    }

    /// Takes the count `h` of handled stanzas that the server states (XEP-0198 section 4): the stanzas up to it wait no
    /// more, and the answer is how many they were, and how many submissions among them. `TooHigh` comes exactly where `h`
    /// is further ahead of the acknowledged count, modulo 2^32, than stanzas wait; then nothing changes. It takes no
    /// memory.
    pub fn ack(&mut self, h: u32) -> Result<Acknowledged, TooHigh>
        ensures ok { IfOk result (λ a. (is_too_high self.old.session.waiting h ≡ false) × (a ≡ record { stanzas = ahead h self.old.session.waiting.acked; submissions = submissions_to self.old.session.waiting h })) }
        ensures too_high { IfErr result (λ e. (is_too_high self.old.session.waiting h ≡ true) × (e ≡ too_high self.old.session.waiting h)) }
        ensures session { OnOk result (self.new.session ≡ with_waiting self.old.session (acked self.old.session.waiting h)) }
        ensures err { OnErr result (self.new.session ≡ self.old.session) }
    {
        self.outbox.ack(h)
    }

    /// Appends what a resumption with the count `h` sends again (XEP-0198 section 5): the bytes of the stanzas that wait
    /// but those up to that count, in order. It goes through the stanzas once to count and once to append. A refusal
    /// appends nothing.
    pub fn append_resent(&self, h: u32, out: &mut Bytes) -> Result<(), NoMemory>
        ensures ok { OnOk result (out.new.items ≡ out.old.items ++ concat (resent self.now.session.waiting h)) }
        ensures err { OnErr result (out.new.items ≡ out.old.items) }
    {
        self.outbox.append_resent(h, out)
    }
}
