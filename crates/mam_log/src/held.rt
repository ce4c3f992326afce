//! The messages that came live, held until a page brings them.
//!
//! What a log holds is kept in the order in which it came, with a set of its ids.
ghost use Rattle.std.specs.Prelude.{◌≡◌, ◌≢◌, ℕ, ◌≤◌, Bool, false, not, ◌&&◌, nat_lt, List, [], ◌∷◌, ◌++◌, Ok, Err, OnOk, OnErr, length, drop, filter, AllPairs, vec_len};
ghost use Rattle.std.specs.BTreeSet.{btree_set_len, contains_text};
ghost use Rattle.mam_log.specs.HeldIds.{IsIndexOf};
ghost use Rattle.mam_log.specs.LogPages.{ids_of};
ghost use Rattle.mam_log.specs.Views.{is_among, unheld};

use crate::log_entry::LogEntry;
use base_io::NoMemory;
use std::alloc::Global;
use std::collections::BTreeSet;
use std::marker::Model;

/// How many messages a log holds at most.
pub const MOST_HELD: usize = 10_000;

/// Messages, each under an id of its own, in the order in which they came. Those before `start` have left. They are
/// dropped once they are more than half of the list, so that a message that leaves from the front, as each does that an
/// archive brings in order, moves no other.
#[derive(Drop)]
pub(crate) struct Held {
    items: Vec<LogEntry>,
    start: usize,
    ids: BTreeSet<String>,
}

impl Model for Held {
    ghost use Rattle.std.specs.Prelude.{◌≤◌, List, length, drop};
    ghost use Rattle.mam_log.specs.HeldIds.{IsIndexOf};
    ghost use Rattle.mam_log.specs.declared.log_entry.LogEntry.{LogEntry};

    ghost Value = { List LogEntry };

    ghost view = { λ h. drop h.start h.items.items };

    ghost invariant = { λ h. (h.start ≤ length h.items.items) × IsIndexOf h.ids (drop h.start h.items.items) };
}

/// Takes out the ids of a page's results.
fn remove_ids(ids: &mut BTreeSet<String>, results: &[LogEntry])
    ensures { (held : List LogEntry) → IsIndexOf ids.old held → IsIndexOf ids.new (unheld (ids_of results.now) held) }
{
    for entry in results {
        ids.remove(entry.id.as_str());
    }
}

/// The first place from this one on whose id the set has.
fn first_known(items: &[LogEntry], start: usize, ids: &BTreeSet<String>) -> usize
    requires { start ≤ length items.now }
    ensures bound { result ≤ length items.now }
    ensures left { filter (λ e. contains_text ids.now e.id) (drop result items.now) ≡ filter (λ e. contains_text ids.now e.id) (drop start items.now) }
{
    let mut at = start;
    while at < items.len() && !ids.contains(items[at].id.as_str()) {
        at += 1;
    }
    at
}

/// Lets the messages before a place go.
fn drop_front(items: &mut Vec<LogEntry>, count: usize)
    requires { count ≤ length items.old.items }
    ensures { items.new.items ≡ drop count items.old.items }
{
    drop(items.drain(..count));
}

/// Keeps the messages from a place on whose ids the set has.
fn compact(items: &mut Vec<LogEntry>, start: usize, ids: &BTreeSet<String>)
    requires { start ≤ length items.old.items }
    ensures { items.new.items ≡ filter (λ e. contains_text ids.now e.id) (drop start items.old.items) }
{
    drop_front(items, start);
    items.retain(|item| ids.contains(item.id.as_str()));
}

/// Lets those go whose ids the set no longer has, and answers where the others begin.
fn settle(items: &mut Vec<LogEntry>, start: usize, ids: &BTreeSet<String>) -> usize
    requires start { start ≤ length items.old.items }
    requires count { btree_set_len ids.now ≡ length (filter (λ e. contains_text ids.now e.id) (drop start items.old.items)) }
    ensures bound { result ≤ length items.new.items }
    ensures left { drop result items.new.items ≡ filter (λ e. contains_text ids.now e.id) (drop start items.old.items) }
{
    let first = first_known(items.as_slice(), start, ids);
    if items.len() - first == ids.len() && first <= items.len() / 2 {
        return first;
    }
    compact(items, first, ids);
    0
}

impl Held {
    /// No message. It takes no memory.
    pub(crate) fn new(alloc: Global) -> Held
        ensures { result ≡ [] }
    {
        Held {
            items: Vec::new(alloc),
            start: 0,
            ids: BTreeSet::new(alloc),
        }
    }

    /// The messages, in the order in which they came.
    pub(crate) fn as_slice(&self) -> &[LogEntry]
        ensures value { result.now ≡ self.now }
        ensures apart { AllPairs (λ a b. a ≢ b) (ids_of self.now) }
    {
        &self.items.as_slice()[self.start..]
    }

    /// Whether a message with this id can join: none has the id, and there is place.
    pub(crate) fn has_room(&self, id: &str) -> bool
        ensures { result ≡ (not (is_among id.now (ids_of self.now)) && nat_lt (length self.now) MOST_HELD) }
    {
        !self.ids.contains(id) && self.ids.len() < MOST_HELD
    }

    /// Adds a message at the end. A refusal drops it and leaves the others as they were.
    pub(crate) fn push(&mut self, alloc: Global, live: LogEntry) -> Result<(), NoMemory>
        requires { is_among live.id (ids_of self.old) ≡ false }
        ensures ok { OnOk result (self.new ≡ self.old ++ live ∷ []) }
        ensures err { OnErr result (self.new ≡ self.old) }
    {
        let id = String::from_str(alloc, live.id.as_str())?;
        self.items.reserve(1)?;
        self.ids.insert(id)?;
        match self.items.push(live) {
            Ok(()) => Ok(()),
            Err(_) => unreachable!(),
        }
    }

    /// Lets those go whose ids a page's results have. It takes no memory.
    pub(crate) fn let_go(&mut self, results: &[LogEntry])
        ensures { self.new ≡ unheld (ids_of results.now) self.old }
    {
        if self.as_slice().is_empty() {
            return;
        }
        remove_ids(&mut self.ids, results);
        self.start = settle(&mut self.items, self.start, &self.ids);
    }
}
