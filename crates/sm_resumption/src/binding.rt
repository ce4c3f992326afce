//! Sessions begin and end (RFC 6120, section 7; XEP-0198, sections 3 and 5).
ghost use Rattle.std.specs.Prelude.{◌≡◌, ◌≢◌, ℕ, ◌+◌, ◌-◌, ◌<◌, ◌≤◌, ◌^◌, ◌∷◌, [], ◌++◌, None, Some, IsSome, IfSome, IsErr, OnOk, OnErr, ◌↔◌, filter, false, not, true};
ghost use Rattle.std.specs.Option.{option_map};
ghost use Rattle.sm_acks.specs.Queues.{PoolView};
ghost use Rattle.sm_resumption.specs.Housed.{Drops, IsFree, IsHoused};
ghost use Rattle.sm_resumption.specs.Moves.{DropsExpired, enabled, ended_of, fresh_row, is_expired, lost, lost_as, parked, rows_parked};
ghost use Rattle.sm_acks.specs.Delivery.{IsReceiver, IsSender, beginning};
ghost use Rattle.sm_resumption.specs.Changes.{ChangesRow};
ghost use Rattle.sm_resumption.specs.Deliveries.{OthersStand, Stands};
ghost use Rattle.sm_resumption.specs.declared.session.Row.{Row};
ghost use Rattle.sm_resumption.specs.Rows.{IsTable, less, row_at, row_named, row_of, without};

use crate::answers::{AlreadyEnabled, Bound, Ended, Lost};
use crate::change::Change;
use crate::session::SessionView;
use crate::table::Sessions;
use base_io::Text;
use sm_acks::{Pool, QueueId};

impl Sessions {
    /// Ends a session: it leaves the table, and its queue and the stanzas in it are dropped from the pool. `None` where
    /// no session has the number; then nothing changes. It takes no memory.
    pub fn end(&mut self, pool: &mut Pool, number: u64) -> Option<Ended>
        requires { IsHoused self.old.rows pool.old }
        ensures ended { result ≡ option_map ended_of (row_of number self.old.rows) }
        ensures rows { self.new.rows ≡ without number self.old.rows }
        ensures next { self.new.next ≡ self.old.next }
        ensures reservation { self.new.reservation ≡ self.old.reservation }
        ensures kept { self.old.spare ≤ self.new.spare }
        ensures pool { Drops (row_of number self.old.rows) pool.old pool.new }
        ensures made { pool.new.made ≡ pool.old.made }
        ensures room { pool.old.spare ≤ pool.new.spare }
        ensures housed { IsHoused self.new.rows pool.new }
        ensures others { OthersStand (row_of number self.old.rows) self.old.rows self.new.rows pool.old pool.new }
    {
        let row = self.remove_row(number)?;
        pool.drop_queue(row.end.queue());
        Some(Ended {
            number: row.shown.number,
            conn: row.shown.conn,
        })
    }

    // Ends the session of an account with a resource, where there is one.
    fn end_named(&mut self, pool: &mut Pool, account: u32, resource: &str) -> Option<Ended>
        requires { IsHoused self.old.rows pool.old }
        ensures ended { result ≡ option_map ended_of (row_named account resource.now self.old.rows) }
        ensures rows { self.new.rows ≡ less (row_named account resource.now self.old.rows) self.old.rows }
        ensures next { self.new.next ≡ self.old.next }
        ensures reservation { self.new.reservation ≡ self.old.reservation }
        ensures kept { self.old.spare ≤ self.new.spare }
        ensures pool { Drops (row_named account resource.now self.old.rows) pool.old pool.new }
        ensures made { pool.new.made ≡ pool.old.made }
        ensures room { pool.old.spare ≤ pool.new.spare }
        ensures housed { IsHoused self.new.rows pool.new }
        ensures others { OthersStand (row_named account resource.now self.old.rows) self.old.rows self.new.rows pool.old pool.new }
        ensures table { IsTable self.old.rows self.old.next }
    {
        match self.by_name(account, resource) {
            Some(number) => self.end(pool, number),
            None => None,
        }
    }

    /// Makes a session of an account with a resource, on a connection (RFC 6120 section 7). An older session of the same
    /// account and resource, attached or parked, ends first (section 7.7.2.2), and is told. The new session gets the
    /// next number, which rises by 1, and an empty queue of the pool. It moves the resource, and takes no memory.
    pub fn bind(
        &mut self,
        pool: &mut Pool,
        account: u32,
        resource: Text,
        conn: u64,
        queue: QueueId,
    ) -> Bound
        requires spare { 1 ≤ self.old.spare }
        requires reservation { self.old.reservation ≡ account }
        requires next { self.old.next < 2 ^ 64 - 1 }
        requires housed { IsHoused self.old.rows pool.old }
        requires conn { row_at conn self.old.rows ≡ None }
        requires queue { IsFree queue self.old.rows pool.old }
        ensures number { result.number ≡ self.old.next }
        ensures ended { result.ended ≡ option_map ended_of (row_named account resource self.old.rows) }
        ensures rows { self.new.rows ≡ less (row_named account resource self.old.rows) self.old.rows ++ fresh_row self.old.next account resource conn queue ∷ [] }
        ensures next { self.new.next ≡ self.old.next + 1 }
        ensures reservation { self.new.reservation ≡ account }
        ensures spare { self.old.spare ≤ self.new.spare + 1 }
        ensures pool { Drops (row_named account resource self.old.rows) pool.old pool.new }
        ensures made { pool.new.made ≡ pool.old.made }
        ensures room { pool.old.spare ≤ pool.new.spare }
        ensures housed { IsHoused self.new.rows pool.new }
        // The new session stands for two directions on which nothing happened.
        ensures begins { IsSender (fresh_row self.old.next account resource conn queue).end pool.new beginning × IsReceiver (fresh_row self.old.next account resource conn queue).end beginning }
        ensures others { OthersStand (row_named account resource self.old.rows) self.old.rows self.new.rows pool.old pool.new }
    {
        let ended = self.end_named(pool, account, resource.as_str());
        let number = self.push_row(account, resource, conn, queue);
        Bound { number, ended }
    }

    /// Counts a session's stanzas from now on, and lets it be resumed where `resume` says so (XEP-0198 section 3).
    /// `AlreadyEnabled` comes exactly where they are counted already; then nothing changes.
    pub fn enable(&mut self, number: u64, resume: bool) -> Result<(), AlreadyEnabled>
        requires { IsSome (row_of number self.old.rows) }
        ensures already { IfSome (row_of number self.old.rows) (λ r. IsErr result ↔ (r.shown.counted ≡ true)) }
        ensures ok { OnOk result (ChangesRow number (enabled resume) self.old self.new) }
        ensures err { OnErr result (self.new ≡ self.old) }
    {
        if self.told(number).counted {
            return Err(AlreadyEnabled);
        }
        self.change(number, Change::Enabled(resume));
        Ok(())
    }

    // What is told of a session that is there.
    fn told(&self, number: u64) -> &SessionView
        requires { IsSome (row_of number self.now.rows) }
        ensures { IfSome (row_of number self.now.rows) (λ r. result.now ≡ r.shown) }
    {
        match self.row(number) {
            Some(row) => &row.shown,
            None => unreachable!(),
        }
    }

    /// Parks the session of a connection that was lost, at the moment `now` in milliseconds since 1970: a session that
    /// can be resumed stays without a connection, with its queue, and any other ends. The answer says which, and is `None`
    /// where the connection has no session; then nothing changes. It takes no memory.
    pub fn park(&mut self, pool: &mut Pool, conn: u64, now: u64) -> Option<Lost>
        requires { IsHoused self.old.rows pool.old }
        ensures answer { result ≡ option_map lost_as (row_at conn self.old.rows) }
        ensures rows { self.new.rows ≡ rows_parked now (row_at conn self.old.rows) self.old.rows }
        ensures next { self.new.next ≡ self.old.next }
        ensures reservation { self.new.reservation ≡ self.old.reservation }
        ensures kept { self.old.spare ≤ self.new.spare }
        ensures pool { Drops (lost (row_at conn self.old.rows)) pool.old pool.new }
        ensures made { pool.new.made ≡ pool.old.made }
        ensures room { pool.old.spare ≤ pool.new.spare }
        ensures housed { IsHoused self.new.rows pool.new }
        // A session that is parked stands for the same directions.
        ensures stays { IfSome (row_at conn self.old.rows) (λ r. r.shown.resumable ≡ true → Stands r (parked now r) pool.old pool.new) }
        ensures others { OthersStand (row_at conn self.old.rows) self.old.rows self.new.rows pool.old pool.new }
    {
        let number = self.by_conn(conn)?;
        if self.told(number).resumable {
            self.park_row(number, now);
            Some(Lost::Parked(number))
        } else {
            let _ = self.end(pool, number);
            Some(Lost::Ended(number))
        }
    }

    /// Ends each session that has been parked for `RESUMABLE_FOR` milliseconds or longer at the moment `now`. It takes no
    /// memory.
    pub fn expire(&mut self, pool: &mut Pool, now: u64)
        requires { IsHoused self.old.rows pool.old }
        ensures rows { self.new.rows ≡ filter (λ r. not (is_expired now r)) self.old.rows }
        ensures next { self.new.next ≡ self.old.next }
        ensures reservation { self.new.reservation ≡ self.old.reservation }
        ensures kept { self.old.spare ≤ self.new.spare }
        ensures pool { DropsExpired now self.old.rows pool.old pool.new }
        ensures made { pool.new.made ≡ pool.old.made }
        ensures room { pool.old.spare ≤ pool.new.spare }
        ensures housed { IsHoused self.new.rows pool.new }
        ensures others { (n : ℕ) (r : Row) → row_of n self.old.rows ≡ Some r → is_expired now r ≡ false → (row_of n self.new.rows ≡ Some r) × Stands r r pool.old pool.new }
    {
        'ending: loop {
            match self.expired(now) {
                Some(number) => {
                    let _ = self.end(pool, number);
                }
                None => return,
            }
        }
    }
}
