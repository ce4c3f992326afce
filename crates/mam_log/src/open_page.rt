//! A page that was asked for and has not ended.
//!
//! `Log::result` takes what comes up to `max`; what is wrong with a page is judged at its end, by `fin`, in the order
//! stranger, mismatch, repeated id, no advance.
ghost use Rattle.std.specs.Prelude.{◌≡◌, ◌+◌, ◌≤◌, true, false, [], ◌∷◌, ◌++◌, Some, None, IfOk, OnOk, OnErr, IsErrOf, MatchOption, length, ◌↔◌};
ghost use Rattle.std.specs.Option.{option_copied};
ghost use Rattle.std.specs.Str.{bytes_eq};
ghost use Rattle.mam_log.specs.LogCalls.{restarted};
ghost use Rattle.mam_log.specs.LogPages.{last_id};
ghost use Rattle.mam_log.specs.Views.{page_for, same_id};

use crate::faults::ResultFault;
use crate::log_entry::{LogEntries, LogEntry};
use base_io::{ListOf, NoMemory, Text};
use std::alloc::Global;
use std::marker::Model;

/// A page that was asked for: its query's id, how many results it may have, the id behind which it was asked
/// for, and its results so far.
#[derive(Drop)]
pub(crate) struct Page {
    pub(crate) queryid: Text,
    pub(crate) max: u32,
    pub(crate) after: Option<Text>,
    pub(crate) results: LogEntries,
}

impl Model for Page {
    ghost use Rattle.mam_log.specs.Views.{OpenPage};

    ghost Value = { OpenPage };

    ghost view = { λ p. record { queryid = p.queryid; max = p.max; after = p.after; results = p.results.items } };
}

impl Page {
    /// Whether this is the page of a query.
    pub(crate) fn has_id(&self, queryid: &str) -> bool
        ensures { result ≡ bytes_eq self.now.queryid queryid.now }
    {
        self.queryid.as_str() == queryid
    }

    /// The page asked for anew: under a fresh query id, and without a place or a result.
    pub(crate) fn anew(self, alloc: Global, fresh: Text) -> Page
        ensures { result ≡ restarted fresh self }
    {
        Page {
            queryid: fresh,
            max: self.max,
            after: None,
            results: ListOf::new(alloc),
        }
    }

    /// Adds a result at the end. A refusal drops it and leaves the page as it was.
    pub(crate) fn push(&mut self, queryid: &str, entry: LogEntry) -> Result<(), ResultFault>
        ensures stranger { IsErrOf result ResultFault.Stranger ↔ (bytes_eq self.old.queryid queryid.now ≡ false) }
        ensures overrun { IsErrOf result ResultFault.Overrun ↔ ((bytes_eq self.old.queryid queryid.now ≡ true) × (self.old.max ≤ length self.old.results)) }
        ensures ok { OnOk result (self.new ≡ record self.old { results = self.old.results ++ entry ∷ [] }) }
        ensures err { OnErr result (self.new ≡ self.old) }
    {
        if !self.has_id(queryid) {
            return Err(ResultFault::Stranger);
        }
        if self.results.as_slice().len() >= self.max as usize {
            return Err(ResultFault::Overrun);
        }
        self.results.push(entry)?;
        Ok(())
    }
}

/// Takes the open page out, where it is that of a query.
pub(crate) fn take_page(page: &mut Option<Page>, queryid: &str) -> Option<Page>
    ensures taken { result ≡ page_for queryid.now page.old }
    ensures left { MatchOption result (page.new ≡ page.old) (λ _. page.new ≡ None) }
{
    let named = match page {
        Some(open) => open.has_id(queryid),
        None => false,
    };
    if named { page.take() } else { None }
}

/// The id of the last entry.
pub(crate) fn last_id(entries: &[LogEntry]) -> Option<&str>
    ensures { option_copied result ≡ last_id entries.now }
{
    match entries.split_last() {
        Some((last, _)) => Some(last.id.as_str()),
        None => None,
    }
}

/// An id that may be absent, without a copy.
pub(crate) fn borrowed(id: &Option<Text>) -> Option<&str>
    ensures { option_copied result ≡ id.now }
{
    match id {
        Some(id) => Some(id.as_str()),
        None => None,
    }
}

/// A copy of an id that may be absent.
pub(crate) fn copied(alloc: Global, id: Option<&str>) -> Result<Option<Text>, NoMemory>
    ensures { IfOk result (λ copy. copy ≡ option_copied id.entry) }
{
    match id {
        Some(id) => Ok(Some(Text::from_str(alloc, id)?)),
        None => Ok(None),
    }
}

/// Whether both are absent, or are the same id.
pub(crate) fn same_id(a: Option<&str>, b: Option<&str>) -> bool
    ensures { result ≡ same_id (option_copied a.entry) (option_copied b.entry) }
{
    match (a, b) {
        (None, None) => true,
        (Some(a), Some(b)) => a == b,
        (None, Some(_)) => false,
        (Some(_), None) => false,
    }
}
