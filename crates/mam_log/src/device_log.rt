//! What a device keeps of its account's archive.
//!
//! The end of a page and the beginning of the next are one call (`fin_then_begin`): where memory is wanting between
//! two calls, the page would be over and nothing asked for.
ghost use Rattle.std.specs.Prelude.{◌≡◌, ◌≢◌, ℕ, ◌≤◌, ◌⊎◌, List, [], ◌∷◌, ◌++◌, Ok, Err, Some, None, IsSome, IsErrOf, IfErr, IfOk, IfSome, AllPairs, OnOk, OnErr, IsSomeAnd, MatchOption, length, ◌↔◌};
ghost use Rattle.std.specs.Option.{option_and_then, option_copied, option_map};
ghost use Rattle.mam_log.specs.Breaks.{breaks_of};
ghost use Rattle.mam_log.specs.LogCalls.{after_hold, begun_again, may_hold, restart_answer, with_restart};
ghost use Rattle.mam_log.specs.LogPages.{ids_of, last_id};
ghost use Rattle.mam_log.specs.Tilings.{AreUnlogged, IsTiling};
ghost use Rattle.mam_log.specs.Views.{after_fin, after_refusal, fin_answer, page_for, with_begun, with_result};

use crate::closing::{judge, make_room, take_over};
use crate::faults::{BeginFault, RestartFault, ResultFault};
use crate::fin::{FinFault, PageOutcome};
use crate::held::Held;
use crate::id_order::has_id;
use crate::log_entry::{LogEntries, LogEntry};
use crate::open_page::{Page, borrowed, copied, last_id, take_page};
use crate::tile::{Tile, Tiles};
use base_io::{ListOf, NoMemory, Numbers, Text};
use mam_pages::{Fin, MOST_RESULTS};
use std::alloc::Global;
use std::marker::Model;

/// A device's log: the entries that it took of its account's archive page by page, in order, what is kept of each
/// page, and the page that is under way (XEP-0313). Beside the entries it has their places in the order of their ids,
/// 8 bytes each. An id that is above all others, as each new one of an archive is, is found to be new by one
/// comparison. Any other is searched for, and moves the places of the ids above it.
#[derive(Drop)]
pub struct Log {
    entries: LogEntries,
    tiles: Tiles,
    breaks: Numbers,
    page: Option<Page>,
    order: Vec<usize>,
    held: Held,
}

impl Model for Log {
    ghost use Rattle.mam_log.specs.Views.{LogView};
    ghost use Rattle.mam_log.specs.Tilings.{IsSound};

    ghost Value = { LogView };

    ghost view = { λ l. record { entries = l.entries.items; tiles = l.tiles.items; page = l.page; held = l.held } };

    ghost invariant = { λ l. IsSound l.order.items l.entries.items l.tiles.items l.breaks.items l.page l.held };
}

impl Log {
    /// A log with no entry, no page under way and no message held. It takes no memory.
    pub fn new(alloc: Global) -> Log
        ensures { result ≡ record { entries = []; tiles = []; page = None; held = [] } }
    {
        Log {
            entries: ListOf::new(alloc),
            tiles: ListOf::new(alloc),
            breaks: ListOf::new(alloc),
            page: None,
            order: Vec::new(alloc),
            held: Held::new(alloc),
        }
    }

    /// Begins a page of at most `max` results behind the last entry, under its query's id. `Underway` comes where
    /// a page is open already; an error leaves the log as it was.
    pub fn begin(&mut self, alloc: Global, queryid: Text, max: u32) -> Result<(), BeginFault>
        requires { (1 ≤ max) × (max ≤ MOST_RESULTS) }
        ensures ok { OnOk result (self.new ≡ with_begun self.old queryid max) }
        ensures underway { IsErrOf result BeginFault.Underway ↔ IsSome self.old.page }
        ensures err { OnErr result (self.new ≡ self.old) }
    {
        if self.page.is_some() {
            return Err(BeginFault::Underway);
        }
        let after = copied(alloc, last_id(self.entries.as_slice()))?;
        self.page = Some(Page {
            queryid,
            max,
            after,
            results: ListOf::new(alloc),
        });
        Ok(())
    }

    /// Adds a result to the page of a query. `Stranger` comes where no open page has this query id, and `Overrun`
    /// where the page has as many results as were asked for; an error drops the entry and leaves the log as it
    /// was.
    pub fn result(&mut self, queryid: &str, entry: LogEntry) -> Result<(), ResultFault>
        ensures stranger { IsErrOf result ResultFault.Stranger ↔ (page_for queryid.now self.old.page ≡ None) }
        ensures overrun { IsErrOf result ResultFault.Overrun ↔ IsSomeAnd (page_for queryid.now self.old.page) (λ page. page.max ≤ length page.results) }
        ensures ok { OnOk result (self.new ≡ with_result self.old entry) }
        ensures err { OnErr result (self.new ≡ self.old) }
    {
        match &mut self.page {
            Some(page) => page.push(queryid, entry),
            None => Err(ResultFault::Stranger),
        }
    }

    /// Ends the page of a query. `Ok` moves its results to the end of the entries. `Stranger` comes where no open
    /// page has this query id, and leaves the log as it was, as `NoMemory` does. Each other error ends the page
    /// and drops its results: `Mismatch` where the last result told is not the last one that came, `Repeats` where
    /// an id stands twice in the page or is in the log, and `NoAdvance` where an empty page is not the last one.
    pub fn fin(&mut self, alloc: Global, queryid: &str, fin: &Fin) -> Result<PageOutcome, FinFault>
        ensures exact { (result ≡ Err FinFault.NoMemory) ⊎ (result ≡ fin_answer self.old queryid.now fin.now) }
        ensures ok { OnOk result (self.new ≡ after_fin self.old fin.now) }
        ensures refused { IfErr result (λ fault. self.new ≡ after_refusal fault self.old) }
    {
        let Some(page) = take_page(&mut self.page, queryid) else {
            return Err(FinFault::Stranger);
        };
        if make_room(
            &mut self.entries,
            &mut self.order,
            &mut self.tiles,
            &mut self.breaks,
            page.results.as_slice().len(),
        )
        .is_err()
        {
            self.page = Some(page);
            return Err(FinFault::NoMemory);
        }
        match judge(
            alloc,
            self.entries.as_slice(),
            self.order.as_slice(),
            &page,
            fin,
        ) {
            Ok(ending) => {
                self.held.let_go(page.results.as_slice());
                take_over(
                    &mut self.entries,
                    &mut self.order,
                    &mut self.tiles,
                    &mut self.breaks,
                    page,
                    fin,
                    ending.rising,
                );
                Ok(ending.outcome)
            }
            Err(FinFault::NoMemory) => {
                self.page = Some(page);
                Err(FinFault::NoMemory)
            }
            Err(fault) => Err(fault),
        }
    }

    /// Whether a message with this id may be held.
    fn may_hold(&self, id: &str) -> bool
        ensures { result ≡ may_hold self.now id.now }
    {
        !has_id(self.order.as_slice(), self.entries.as_slice(), id) && self.held.has_room(id)
    }

    /// Holds a message that came live behind the others, until a page brings its id. `false` comes where the id is in the
    /// log or held, or `MOST_HELD` messages are held; it drops the message and leaves the log as it was, as an error does.
    pub fn hold(&mut self, alloc: Global, live: LogEntry) -> Result<bool, NoMemory>
        ensures answer { IfOk result (λ is_held. is_held ≡ may_hold self.old live.id) }
        ensures ok { OnOk result (self.new ≡ after_hold self.old live) }
        ensures err { OnErr result (self.new ≡ self.old) }
    {
        if !self.may_hold(live.id.as_str()) {
            return Ok(false);
        }
        self.held.push(alloc, live)?;
        Ok(true)
    }

    /// Asks anew for the page of a query, whose place the archive no longer has: its results are dropped, and it has a
    /// fresh query id, no place, and as many results at most. `Stranger` comes where no open page has this query id, then
    /// `NoPlace` where it has no place already; an error leaves the log as it was. It takes no memory.
    pub fn restart(&mut self, alloc: Global, queryid: &str, fresh: Text) -> Result<(), RestartFault>
        ensures answer { result ≡ restart_answer (page_for queryid.now self.old.page) }
        ensures ok { OnOk result (self.new ≡ with_restart self.old fresh) }
        ensures err { OnErr result (self.new ≡ self.old) }
    {
        let Some(page) = take_page(&mut self.page, queryid) else {
            return Err(RestartFault::Stranger);
        };
        if page.after.is_none() {
            self.page = Some(page);
            return Err(RestartFault::NoPlace);
        }
        self.page = Some(page.anew(alloc, fresh));
        Ok(())
    }

    /// Discards the open page. It takes no memory.
    pub fn break_off(&mut self)
        ensures { self.new ≡ record self.old { page = None } }
    {
        self.page = None;
    }

    /// Ends the page of a query as `fin` does, and behind a page that is not the last begins the next one under `next`, with
    /// as many results at most. Each error is that of `fin`, and leaves what it leaves.
    pub fn fin_then_begin(
        &mut self,
        alloc: Global,
        queryid: &str,
        fin: &Fin,
        next: Text,
    ) -> Result<PageOutcome, FinFault>
        ensures exact { (result ≡ Err FinFault.NoMemory) ⊎ (result ≡ fin_answer self.old queryid.now fin.now) }
        ensures complete { result ≡ Ok PageOutcome.Complete → self.new ≡ after_fin self.old fin.now }
        ensures more { result ≡ Ok PageOutcome.More → self.new ≡ begun_again (after_fin self.old fin.now) next self.old.page }
        ensures refused { IfErr result (λ fault. self.new ≡ after_refusal fault self.old) }
    {
        let max = match &self.page {
            Some(page) => page.max,
            None => return Err(FinFault::Stranger),
        };
        let after = copied(alloc, borrowed(&fin.last))?;
        match self.fin(alloc, queryid, fin) {
            Ok(PageOutcome::More) => {
                self.page = Some(Page {
                    queryid: next,
                    max,
                    after,
                    results: ListOf::new(alloc),
                });
                Ok(PageOutcome::More)
            }
            other => other,
        }
    }

    /// The entries that were taken over, in order.
    pub fn entries(&self) -> &[LogEntry]
        ensures { result.now ≡ self.now.entries }
    {
        self.entries.as_slice()
    }

    /// What is kept of the pages that were taken over, in order. The entries and the tiles are those of pages that
    /// follow on one another, in which no id stands twice.
    pub fn tiles(&self) -> &[Tile]
        ensures value { result.now ≡ self.now.tiles }
        ensures tiling { IsTiling self.now.entries self.now.tiles }
    {
        self.tiles.as_slice()
    }

    /// Where the log breaks, ascending: how many entries stand before each page that was asked for anew and has an
    /// entry, of those that stand behind entries. It takes no memory.
    pub fn breaks(&self) -> &[u64]
        ensures { result.now ≡ breaks_of self.now.tiles }
    {
        self.breaks.as_slice()
    }

    /// The messages that are held, in the order in which they came. Their ids differ, and none is in the log.
    pub fn held(&self) -> &[LogEntry]
        ensures value { result.now ≡ self.now.held }
        ensures apart { AllPairs (λ a b. a ≢ b) (ids_of self.now.held) }
        ensures unlogged { AreUnlogged self.now.entries self.now.held }
    {
        self.held.as_slice()
    }

    /// The open page's query id. It is `None` exactly where no page is open.
    pub fn underway(&self) -> Option<&str>
        ensures { option_copied result ≡ option_map (λ page. page.queryid) self.now.page }
    {
        match &self.page {
            Some(page) => Some(page.queryid.as_str()),
            None => None,
        }
    }

    /// How many results the open page may have. It is `None` exactly where no page is open.
    pub fn most(&self) -> Option<u32>
        ensures { result ≡ option_map (λ page. page.max) self.now.page }
    {
        match &self.page {
            Some(page) => Some(page.max),
            None => None,
        }
    }

    /// The id behind which the open page was asked for. It is `None` where that is the first page, and where none is open.
    pub fn position(&self) -> Option<&str>
        ensures { option_copied result ≡ option_and_then (λ page. page.after) self.now.page }
    {
        match &self.page {
            Some(page) => borrowed(&page.after),
            None => None,
        }
    }

    /// How many results the open page has, or 0. It takes no memory.
    pub fn got(&self) -> u64
        ensures count { MatchOption self.now.page (result ≡ 0) (λ page. result ≡ length page.results) }
        ensures bound { IfSome self.now.page (λ page. (result ≤ page.max) × (page.max ≤ MOST_RESULTS)) }
    {
        match &self.page {
            Some(page) => page.results.as_slice().len() as u64,
            None => 0,
        }
    }

    /// The entries and the tiles, moved out. An open page's results are dropped.
    pub fn into_parts(self) -> (LogEntries, Tiles)
        ensures entries { result.0.items ≡ self.entries }
        ensures tiles { result.1.items ≡ self.tiles }
    {
        let Log { entries, tiles, .. } = self;
        (entries, tiles)
    }
}
