//! Sessions that are resumed (XEP-0198, section 5).
//!
//! `resume` doesn't call `would_resume`: it looks for the session once.
ghost use Rattle.std.specs.Prelude.{◌≡◌, ◌≢◌, ℕ, ◌%◌, ◌<◌, ◌≤◌, ◌^◌, ◌↔◌, ◌⊎◌, length, Ok, None, Some, IsErr, IsSome, IfSome, IfNone, List, true};
ghost use Rattle.std.specs.Option.{option_map};
ghost use Rattle.sm_resumption.specs.Housed.{IsFree, IsHoused};
ghost use Rattle.sm_resumption.specs.Moves.{PoolResumed, number_of, resume_answer, resume_ok, resumed, row_resumed, rows_resumed, too_high_of};
ghost use Rattle.sm_acks.specs.Delivery.{Acknowledge, Direction, IsSender, Moves, Reached, Resume};
ghost use Rattle.sm_acks.specs.Queues.{PoolView};
ghost use Rattle.sm_resumption.specs.Deliveries.{OthersStand};
ghost use Rattle.sm_resumption.specs.Laws.{ComesBackWhole};
ghost use Rattle.sm_resumption.specs.declared.session.Row.{Row};
ghost use Rattle.sm_resumption.specs.Rows.{IsTable, row_at, row_of};

use crate::answers::{ResumeFault, ResumeOk};
use crate::table::Sessions;
use base_lemmas::read_hex16;
use sm_acks::{Pool, QueueId, TooHigh};

impl Sessions {
    // What a resumption tells of the session that a previd names for an account, which can be resumed.
    fn resumable(&self, previd: &str, account: u32) -> Option<ResumeOk>
        ensures told { result ≡ option_map resume_ok (row_resumed previd.now account self.now.rows) }
        ensures table { IsTable self.now.rows self.now.next }
    {
        // The table's rule has it that no number is too great for a `previd`.
        self.keeps_rule();
        let number = read_hex16(previd)?;
        let row = self.row(number)?;
        if row.shown.account == account && row.shown.resumable {
            Some(ResumeOk {
                number,
                handled: row.end.handled(),
                former: row.shown.conn,
            })
        } else {
            None
        }
    }

    /// The number of the session that a `previd` names for an account, and that can be resumed. `None` where there is
    /// none.
    pub fn named(&self, previd: &str, account: u32) -> Option<u64>
        ensures { result ≡ option_map number_of (row_resumed previd.now account self.now.rows) }
    {
        Some(self.resumable(previd, account)?.number)
    }

    /// What `resume` would answer. Nothing changes.
    pub fn would_resume(
        &self,
        pool: &Pool,
        previd: &str,
        account: u32,
        h: u32,
    ) -> Result<ResumeOk, ResumeFault>
        requires { IsHoused self.now.rows pool.now }
        ensures { result ≡ resume_answer h (row_resumed previd.now account self.now.rows) pool.now }
    {
        match self.resumable(previd, account) {
            Some(told) => match self.too_high(pool, told.number, h) {
                Some(TooHigh { h, send_count }) => Err(ResumeFault::TooHigh {
                    h,
                    send_count,
                    former: told.former,
                }),
                None => Ok(told),
            },
            None => Err(ResumeFault::UnknownPrevid),
        }
    }

    // Whether a count that a session's peer states is too high.
    fn too_high(&self, pool: &Pool, number: u64, h: u32) -> Option<TooHigh>
        requires lives { IsSome (row_of number self.now.rows) }
        requires housed { IsHoused self.now.rows pool.now }
        ensures { IfSome (row_of number self.now.rows) (λ r. result ≡ too_high_of h r pool.now) }
    {
        match self.row(number) {
            Some(row) => row.end.is_too_high(pool, h),
            None => unreachable!(),
        }
    }

    /// Resumes a session on another connection (XEP-0198 section 5): the session that `previd` names for the account,
    /// whose peer states that it handled `h` stanzas. Its stanzas up to that count leave its queue, the others go into
    /// the empty queue `queue`, which is the session's from then on, and all else of it stays as it was. The answer tells
    /// the connection that it had, where it was not parked. It takes no memory.
    ///
    /// `UnknownPrevid` comes exactly where no session that can be resumed has the previd and the account; then nothing
    /// changes. Behind it `TooHigh` comes exactly where `h` is further ahead of the acknowledged count, modulo 2^32, than
    /// the queue is long; then the session ends.
    pub fn resume(
        &mut self,
        pool: &mut Pool,
        previd: &str,
        account: u32,
        h: u32,
        conn: u64,
        queue: QueueId,
    ) -> Result<ResumeOk, ResumeFault>
        requires housed { IsHoused self.old.rows pool.old }
        requires conn { row_at conn self.old.rows ≡ None }
        requires queue { IsFree queue self.old.rows pool.old }
        ensures answer { result ≡ resume_answer h (row_resumed previd.now account self.old.rows) pool.old }
        ensures rows { self.new.rows ≡ rows_resumed h conn queue (row_resumed previd.now account self.old.rows) pool.old self.old.rows }
        ensures next { self.new.next ≡ self.old.next }
        ensures reservation { self.new.reservation ≡ self.old.reservation }
        ensures kept { self.old.spare ≤ self.new.spare }
        ensures pool { PoolResumed h queue (row_resumed previd.now account self.old.rows) pool.old pool.new }
        ensures made { pool.new.made ≡ pool.old.made }
        ensures room { pool.old.spare ≤ pool.new.spare }
        ensures housed { IsHoused self.new.rows pool.new }
        // It is the move of the direction by which its sending end hears how many stanzas were handled. A resumption that
        // comes late, with a count that was stated before, acknowledges that count.
        ensures resumes { IfSome (row_resumed previd.now account self.old.rows) (λ r. (d next : Direction (List ℕ)) → Reached d → IsSender r.end pool.old d →
            Moves Resume d next → h ≡ length d.got % 2 ^ 32 → (result ≡ Ok (resume_ok r)) × IsSender (resumed h conn queue r).end pool.new next) }
        ensures late { IfSome (row_resumed previd.now account self.old.rows) (λ r. (n : ℕ) (d next : Direction (List ℕ)) → Reached d → IsSender r.end pool.old d →
            Moves (Acknowledge n) d next → h ≡ n % 2 ^ 32 → (result ≡ Ok (resume_ok r)) × IsSender (resumed h conn queue r).end pool.new next) }
        // Where fewer than 2^32 stanzas were put, a count is too high exactly where it is below the last one that was
        // acknowledged, or above the number of those that were put.
        ensures exact { IfSome (row_resumed previd.now account self.old.rows) (λ r. (d : Direction (List ℕ)) → IsSender r.end pool.old d → length d.put < 2 ^ 32 → IsErr result ↔ ((h < d.acked) ⊎ (length d.put < h))) }
        ensures others { OthersStand (row_resumed previd.now account self.old.rows) self.old.rows self.new.rows pool.old pool.new }
    {
        match self.resumable(previd, account) {
            Some(told) => self.resume_told(pool, told, h, conn, queue),
            None => Err(ResumeFault::UnknownPrevid),
        }
    }

    // Resumes a session of which this is told.
    fn resume_told(
        &mut self,
        pool: &mut Pool,
        told: ResumeOk,
        h: u32,
        conn: u64,
        queue: QueueId,
    ) -> Result<ResumeOk, ResumeFault>
        requires lives { IsSome (row_of told.number self.old.rows) }
        requires told { IfSome (row_of told.number self.old.rows) (λ r. told ≡ resume_ok r) }
        requires housed { IsHoused self.old.rows pool.old }
        requires conn { row_at conn self.old.rows ≡ None }
        requires queue { IsFree queue self.old.rows pool.old }
        ensures answer { result ≡ resume_answer h (row_of told.number self.old.rows) pool.old }
        ensures rows { self.new.rows ≡ rows_resumed h conn queue (row_of told.number self.old.rows) pool.old self.old.rows }
        ensures next { self.new.next ≡ self.old.next }
        ensures reservation { self.new.reservation ≡ self.old.reservation }
        ensures kept { self.old.spare ≤ self.new.spare }
        ensures pool { PoolResumed h queue (row_of told.number self.old.rows) pool.old pool.new }
        ensures made { pool.new.made ≡ pool.old.made }
        ensures room { pool.old.spare ≤ pool.new.spare }
        ensures exact { IfSome (row_of told.number self.old.rows) (λ r. (d : Direction (List ℕ)) → IsSender r.end pool.old d → length d.put < 2 ^ 32 → IsErr result ↔ ((h < d.acked) ⊎ (length d.put < h))) }
        ensures housed { IsHoused self.new.rows pool.new }
    {
        match self.ack(pool, told.number, h) {
            Ok(_) => {
                self.attach_row(pool, told.number, conn, queue);
                Ok(told)
            }
            Err(TooHigh { h, send_count }) => {
                let _ = self.end(pool, told.number);
                Err(ResumeFault::TooHigh {
                    h,
                    send_count,
                    former: told.former,
                })
            }
        }
    }
}

/// A law: a session that can be resumed, and is parked and right after it resumed with the count that is acknowledged,
/// comes back with all its stanzas, in order.
pub fn parked_comes_back_whole()
    ensures { (rows : List Row) (next conn now queue : ℕ) (r : Row) (old new : PoolView) → IsTable rows next → row_at conn rows ≡ Some r → r.shown.resumable ≡ true → ComesBackWhole now queue r rows old new }
{}
