//! Sessions that are resumed (XEP-0198, section 5).
ghost use Rattle.std.specs.Prelude.{◌≡◌, ◌≤◌, None, Some, IfOk, IfSome, IsSome, OnErr, OnOk};
ghost use Rattle.sm_acks.specs.Counters.{ahead};
ghost use Rattle.sm_acks.specs.Queues.{stanzas_in};
ghost use Rattle.sm_live.specs.Sessions.{after_resume, resent, resume_answer, session_at, session_of, session_resumed};

use crate::live::Live;
use base_io::{Bytes, ListOf, NoMemory};
use sm_resumption::{ResumeFault, ResumeOk};
use std::alloc::Global;

// How many stanzas more are handled where the count `h` is stated than were acknowledged before, modulo 2^32.
fn handled_more(h: u32, acked: u32) -> u64
    ensures { result ≡ ahead h acked }
{
    u64::from(h.wrapping_sub(acked))
}

impl Live {
    /// What `resume` would answer. Nothing changes.
    pub fn would_resume(&self, previd: &str, account: u32, h: u32) -> Result<ResumeOk, ResumeFault>
        ensures { result ≡ resume_answer h (session_resumed previd.now account self.now.sessions) }
    {
        self.table.would_resume(&self.pool, previd, account, h)
    }

    /// Resumes a session on another connection (XEP-0198 section 5), in the seat that was reserved for the account: the
    /// session that `previd` names for the account, whose peer states that it handled `h` stanzas. Its stanzas up to that
    /// count wait no more, and all else of it stays as it was. The answer tells the connection that it had, where it was
    /// not parked. It takes no memory.
    ///
    /// `UnknownPrevid` comes exactly where no session that can be resumed has the previd and the account; then nothing
    /// changes. Behind it `TooHigh` comes exactly where `h` is further ahead of the acknowledged count, modulo 2^32, than
    /// stanzas wait; then the session ends. On a refusal the seat stays.
    pub fn resume(
        &mut self,
        previd: &str,
        account: u32,
        h: u32,
        conn: u64,
    ) -> Result<ResumeOk, ResumeFault>
        requires reservation { self.old.reservation ≡ Some account }
        requires conn { session_at conn self.old.sessions ≡ None }
        ensures answer { result ≡ resume_answer h (session_resumed previd.now account self.old.sessions) }
        ensures sessions { self.new.sessions ≡ after_resume h conn (session_resumed previd.now account self.old.sessions) self.old.sessions }
        ensures next { self.new.next ≡ self.old.next }
        ensures room { self.old.room ≤ self.new.room }
        ensures reservation { OnOk result (self.new.reservation ≡ None) }
        ensures kept { OnErr result (self.new.reservation ≡ self.old.reservation) }
        ensures queues { self.new.queues ≡ self.old.queues }
    {
        self.table.keeps_rule();
        let reservation = match self.reservation {
            Some(reservation) => reservation,
            None => unreachable!(),
        };
        let answer = self.table.resume(&mut self.pool, previd, account, h, conn, reservation.queue);
        if answer.is_ok() {
            self.reservation = None;
        }
        answer
    }

    /// Copies of what a resumption with the count `h` sends again: of a session's stanzas that wait but those up to that
    /// count, in order. It goes through the stanzas once.
    pub fn resent(&self, alloc: Global, number: u64, h: u32) -> Result<ListOf<Bytes>, NoMemory>
        requires lives { IsSome (session_of number self.now.sessions) }
        ensures { IfOk result (λ stanzas. IfSome (session_of number self.now.sessions) (λ s. stanzas_in stanzas.items ≡ resent h s)) }
    {
        let end = match self.table.ack_end(number) {
            Some(end) => end,
            None => unreachable!(),
        };
        let handled = handled_more(h, end.acked());
        self.pool.stanzas_from(alloc, end.queue(), handled)
    }
}
