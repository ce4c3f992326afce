//! The stanzas of a session that the server has not acknowledged (XEP-0198, section 4).
ghost use Rattle.std.specs.Prelude.{◌≡◌, ◌+◌, ◌<◌, ◌≤◌, ◌++◌, drop, false, length, take, true, IfErr, IfNone, IfOk, IfSome, OnErr, OnOk};
ghost use Rattle.std.specs.List.{concat};
ghost use Rattle.sm_acks.specs.Counters.{ahead};
ghost use Rattle.sm_outbox.specs.Waiting.{acked, count_true, counted, counted_in, is_full, is_too_high, nothing_waits, queued, resent, submissions_to, too_high};

use base_io::{Bytes, NoMemory};
use sm_acks::{AckEnd, MOST_UNACKNOWLEDGED, Pool, TooHigh};
use std::alloc::Global;
use std::collections::VecDeque;
use std::marker::Model;

/// What a count acknowledged: so many stanzas, and so many submissions among them.
#[derive(Clone, Copy, Debug, PartialEq, Eq)]
pub struct Acknowledged {
    pub stanzas: u32,
    pub submissions: usize,
}

/// The stanzas that the server has not acknowledged, the oldest first, with the counts of both directions (XEP-0198
/// section 4). Contracts see what waits as plain lists, and the number `spare` of further stanzas that fit without more
/// memory.
///
/// Room is made first, by `reserve`. No other call that changes something takes memory, and none lowers the room but
/// `put_reserved`, by at most 1.
#[derive(Drop)]
pub struct Outbox {
    end: AckEnd,
    pool: Pool,
    kinds: VecDeque<bool>,
}

impl Model for Outbox {
    ghost use Rattle.sm_outbox.specs.Kept.{IsHoused, OutboxView, room_of};
    ghost use Rattle.sm_acks.specs.Queues.{list_of};

    ghost Value = { OutboxView };

    ghost view = { λ o. record {
      waiting = record { acked = o.end.acked; handled = o.end.handled; queue = list_of o.end.queue o.pool; submissions = o.kinds.items };
      spare = room_of o.pool o.kinds;
    } };

    ghost invariant = { λ o. IsHoused o.end o.pool o.kinds };
}

// 1 for a submission.
fn counted(kind: Option<bool>) -> usize
    ensures { result ≡ counted kind }
{
    match kind {
        Some(true) => 1,
        Some(false) | None => 0,
    }
}

// Takes the first kinds off, and answers how many of them were submissions.
fn take_kinds(kinds: &mut VecDeque<bool>, count: u32) -> usize
    requires { count ≤ length kinds.old.items }
    ensures submissions { result ≡ count_true (take count kinds.old.items) }
    ensures kinds { kinds.new.items ≡ drop count kinds.old.items }
{
    let mut submissions = 0;
    for _ in 0..count {
        submissions += counted(kinds.pop_front());
    }
    submissions
}

impl Outbox {
    /// No stanza, and both counts 0.
    pub fn new(alloc: Global) -> Result<Outbox, NoMemory>
        ensures { IfOk result (λ o. o.waiting ≡ nothing_waits) }
    {
        let mut pool = Pool::new(alloc);
        let queue = pool.make_queue()?;
        Ok(Outbox {
            end: AckEnd::new(queue),
            pool,
            kinds: VecDeque::new(alloc),
        })
    }

    /// How many stanzas of the server were handled, modulo 2^32 (XEP-0198 section 4).
    pub fn handled(&self) -> u32
        ensures { result ≡ self.now.waiting.handled }
    {
        self.end.handled()
    }

    /// How many stanzas are acknowledged, modulo 2^32 (XEP-0198 section 4).
    pub fn acked(&self) -> u32
        ensures { result ≡ self.now.waiting.acked }
    {
        self.end.acked()
    }

    /// How many stanzas wait: at most 10,000, and of each it is kept whether it is a submission.
    pub fn len(&self) -> u64
        ensures value { result ≡ length self.now.waiting.queue }
        ensures most { result ≤ MOST_UNACKNOWLEDGED }
        ensures both { length self.now.waiting.submissions ≡ length self.now.waiting.queue }
    {
        self.pool.len(self.end.queue())
    }

    /// Whether as many stanzas wait as may.
    pub fn is_full(&self) -> bool
        ensures value { result ≡ is_full self.now.waiting }
        ensures more { result ≡ false → length self.now.waiting.queue < MOST_UNACKNOWLEDGED }
    {
        self.len() == MOST_UNACKNOWLEDGED
    }

    /// Makes room for `n` stanzas. What waits stays on each outcome.
    pub fn reserve(&mut self, n: u32) -> Result<(), NoMemory>
        ensures ok { OnOk result (n ≤ self.new.spare) }
        ensures waiting { self.new.waiting ≡ self.old.waiting }
    {
        self.pool.reserve(n)?;
        self.kinds.reserve(n as usize)?;
        Ok(())
    }

    /// Counts one more stanza of the server as handled, modulo 2^32. It takes no memory.
    pub fn count_handled(&mut self)
        ensures waiting { self.new.waiting ≡ counted_in self.old.waiting }
        ensures spare { self.new.spare ≡ self.old.spare }
    {
        self.end.count_handled();
    }

    /// Puts a stanza behind the others. It moves the bytes, takes no memory, and lowers the room by at most 1.
    pub fn put_reserved(&mut self, bytes: Bytes, is_submission: bool)
        requires few { length self.old.waiting.queue < MOST_UNACKNOWLEDGED }
        requires spare { 1 ≤ self.old.spare }
        ensures waiting { self.new.waiting ≡ queued self.old.waiting bytes.items is_submission }
        ensures spare { self.old.spare ≤ self.new.spare + 1 }
    {
        self.end.put_reserved(&mut self.pool, bytes);
        match self.kinds.push_back(is_submission) {
            Ok(()) => {}
            Err(_) => unreachable!(),
        }
    }

    /// What `ack` answers to a count that is too high, and `None` exactly where it takes the count. Nothing changes.
    pub fn is_too_high(&self, h: u32) -> Option<TooHigh>
        ensures some { IfSome result (λ e. (is_too_high self.now.waiting h ≡ true) × (e ≡ too_high self.now.waiting h)) }
        ensures none { IfNone result (is_too_high self.now.waiting h ≡ false) }
    {
        self.end.is_too_high(&self.pool, h)
    }

    /// Takes the count `h` of handled stanzas that the server states (XEP-0198 section 4): the stanzas up to it wait no
    /// more, and the answer is how many they were, and how many submissions among them. `TooHigh` comes exactly where `h`
    /// is further ahead of the acknowledged count, modulo 2^32, than stanzas wait; then nothing changes. It takes no
    /// memory.
    pub fn ack(&mut self, h: u32) -> Result<Acknowledged, TooHigh>
        ensures ok { IfOk result (λ a. (is_too_high self.old.waiting h ≡ false) × (a ≡ record { stanzas = ahead h self.old.waiting.acked; submissions = submissions_to self.old.waiting h })) }
        ensures too_high { IfErr result (λ e. (is_too_high self.old.waiting h ≡ true) × (e ≡ too_high self.old.waiting h)) }
        ensures waiting { OnOk result (self.new.waiting ≡ acked self.old.waiting h) }
        ensures err { OnErr result (self.new.waiting ≡ self.old.waiting) }
    {
        let stanzas = self.end.ack(&mut self.pool, h)?;
        let submissions = take_kinds(&mut self.kinds, stanzas);
        Ok(Acknowledged {
            stanzas,
            submissions,
        })
    }

    /// Appends what a resumption with the count `h` sends again (XEP-0198 section 5): the bytes of the stanzas that wait
    /// but those up to that count, in order. It goes through the stanzas once to count and once to append. A refusal
    /// appends nothing.
    pub fn append_resent(&self, h: u32, out: &mut Bytes) -> Result<(), NoMemory>
        ensures ok { OnOk result (out.new.items ≡ out.old.items ++ concat (resent self.now.waiting h)) }
        ensures err { OnErr result (out.new.items ≡ out.old.items) }
    {
        let handled = u64::from(h.wrapping_sub(self.end.acked()));
        self.pool.append_from(self.end.queue(), handled, out)
    }
}
