//! An account's archive (XEP-0313).
//!
//! An archive keeps its newest entries from the start, and the direct run hands in a `keep` that no archive passes
//! (`IsWhole`).
ghost use Rattle.std.specs.Prelude.{◌≡◌, ◌+◌, ◌-◌, ◌<◌, ◌≤◌, ◌↔◌, ◌⊎◌, ◌∷◌, [], ◌++◌, length, map, drop, slice_get, IfSome, IfNone, IsNone, IfOk, IsErrOf, OnOk, IsTrue};
ghost use Rattle.std.specs.Option.{option_copied};
ghost use Rattle.std.specs.VecDeque.{deque_len, deque_capacity};
ghost use Rattle.mam_archive.specs.Chained.{IsChained};
ghost use Rattle.mam_archive.specs.Entries.{AreKept, AreNumbered, entry_numbered, newest, numbered};
ghost use Rattle.mam_archive.specs.Peers.{chain_ends, first_of, index_of, next_of, peer_of, previous_of};
ghost use Rattle.mam_archive.specs.Rooms.{room_of};

use crate::chains::{Chain, Links};
use crate::entry::{Entries, Entry};
use base_io::{NoMemory, Text};
use std::alloc::Global;
use std::collections::VecDeque;
use std::error::Error;
use std::fmt;
use std::marker::Model;

/// The greatest number that an archive gives.
pub const GREATEST_NUMBER: u64 = 4_294_967_295;

/// An account's archive: the account's bare address, the entries that it keeps in order, which are its newest, and
/// the chains of their peers. Entries have the numbers 1, 2, 3 and so on, whatever is kept of them.
#[derive(Drop)]
pub struct Archive {
    owner: Text,
    keep: u32,
    last: u64,
    entries: VecDeque<Entry>,
    links: Links,
}

impl Model for Archive {
    ghost use Rattle.std.specs.Prelude.{◌+◌, ◌-◌, length, map, min};
    ghost use Rattle.std.specs.VecDeque.{deque_len, deque_capacity};
    ghost use Rattle.mam_archive.specs.Chained.{IsChained};
    ghost use Rattle.mam_archive.specs.Entries.{AreKept, ArchiveView};
    ghost use Rattle.mam_archive.specs.Peers.{peer_of};
    ghost use Rattle.mam_archive.specs.Rooms.{room_of};

    ghost Value = { ArchiveView };

    ghost view = { λ a. record {
      owner = a.owner;
      keep = a.keep;
      last = a.last;
      entries = a.entries.items;
      spare = min (deque_capacity a.entries - deque_len a.entries) (room_of a.links);
    } };

    ghost invariant = { λ a. AreKept a.keep a.last a.entries.items ×
        IsChained (a.last + 1 - length a.entries.items) (map (peer_of a.owner) a.entries.items) a.links.links.items a.links.chains.items };
}

/// Why an archive has no room for an entry.
#[derive(Clone, Copy, Debug, PartialEq, Eq)]
pub enum ArchiveFault {
    /// The greatest number was given.
    Full,
    /// Memory ran out.
    NoMemory,
}

impl fmt::Display for ArchiveFault {
    fn fmt<W: fmt::Write>(&self, f: &mut fmt::Formatter<W>) -> fmt::Result {
        f.write_str(match self {
            ArchiveFault::Full => "the archive is full",
            ArchiveFault::NoMemory => "out of memory",
        })
    }
}

impl Error for ArchiveFault {}

impl From<NoMemory> for ArchiveFault {
    ghost use Rattle.std.specs.Prelude.{◌≡◌};
    ghost use Rattle.mam_archive.specs.declared.archive.ArchiveFault.TheVariants.{NoMemory};

    ghost from_gives = { λ _ fault. fault ≡ NoMemory };

    fn from(_e: NoMemory) -> ArchiveFault {
        ArchiveFault::NoMemory
    }
}

/// Drops the first entry.
fn drop_oldest(entries: &mut VecDeque<Entry>)
    ensures entries { entries.new.items ≡ drop 1 entries.old.items }
    ensures spare { deque_capacity entries.old - deque_len entries.old ≤ deque_capacity entries.new - deque_len entries.new }
{
    let _oldest = entries.pop_front();
}

/// Drops the oldest entry where as many are there as are kept, to make place for the one with the next number.
fn make_place(owner: &str, entries: &mut VecDeque<Entry>, links: &mut Links, keep: u32, next: u64)
    requires kept { AreKept keep (next - 1) entries.old.items }
    requires next { 1 ≤ next }
    requires linked { IsChained (next - length entries.old.items) (map (peer_of owner.now) entries.old.items) links.old.links.items links.old.chains.items }
    ensures entries { entries.new.items ≡ newest (keep - 1) entries.old.items }
    ensures linked { IsChained (next - length entries.new.items) (map (peer_of owner.now) entries.new.items) links.new.links.items links.new.chains.items }
    ensures spare { deque_capacity entries.old - deque_len entries.old ≤ deque_capacity entries.new - deque_len entries.new }
    ensures room { room_of links.old ≤ room_of links.new }
{
    let count = entries.len() as u64;
    if count == u64::from(keep) {
        links.unlink_first(owner, entries, next - count);
        drop_oldest(entries);
    }
}

/// Makes room for one entry more and its links.
fn make_room(entries: &mut VecDeque<Entry>, links: &mut Links) -> Result<(), NoMemory>
    ensures entries { entries.new.items ≡ entries.old.items }
    ensures links { links.new.links.items ≡ links.old.links.items }
    ensures chains { links.new.chains.items ≡ links.old.chains.items }
    ensures spare { OnOk result ((1 ≤ deque_capacity entries.new - deque_len entries.new) × (1 ≤ room_of links.new)) }
    ensures kept { deque_capacity entries.old - deque_len entries.old ≤ deque_capacity entries.new - deque_len entries.new }
    ensures room { room_of links.old ≤ room_of links.new }
{
    entries.reserve(1)?;
    links.reserve()
}

/// Drops the oldest entries where more than `keep` stand.
fn drop_past(entries: &mut VecDeque<Entry>, keep: u32)
    ensures { entries.new.items ≡ newest keep entries.old.items }
{
    while entries.len() > keep as usize {
        let _oldest = entries.pop_front();
    }
}

/// Entries in order, the first of which has this number, and their links.
#[derive(Drop)]
struct Linked {
    entries: VecDeque<Entry>,
    links: Links,
}

/// Links entries in order, the first of which has this number.
fn link_all(alloc: Global, owner: &str, first: u64, items: Vec<Entry>) -> Result<Linked, NoMemory>
    requires positive { 1 ≤ first }
    requires few { first + length items.items ≤ GREATEST_NUMBER + 1 }
    ensures entries { IfOk result (λ l. l.entries.items ≡ items.items) }
    ensures linked { IfOk result (λ l. IsChained first (map (peer_of owner.now) items.items) l.links.links.items l.links.chains.items) }
{
    let mut entries = VecDeque::new(alloc);
    let mut links = Links::new(alloc);
    for entry in items {
        make_room(&mut entries, &mut links)?;
        let number = first + entries.len() as u64;
        links.link(owner, &entries, first, entry.peer(owner), number);
        entries.push_back_reserved(entry);
    }
    Ok(Linked { entries, links })
}

impl Archive {
    /// The archive of an account from entries that were kept, the last of which has the number `last`: of these the
    /// newest `keep`.
    pub fn restore(
        alloc: Global,
        owner: Text,
        keep: u32,
        last: u64,
        entries: Entries,
    ) -> Result<Archive, NoMemory>
        requires keep { 1 ≤ keep }
        requires numbers { AreNumbered last entries.items }
        requires within { length entries.items ≤ last }
        requires most { last ≤ GREATEST_NUMBER }
        requires none { length entries.items ≡ 0 → last ≡ 0 }
        ensures owner { IfOk result (λ a. a.owner ≡ owner) }
        ensures keep { IfOk result (λ a. a.keep ≡ keep) }
        ensures last { IfOk result (λ a. a.last ≡ last) }
        ensures entries { IfOk result (λ a. a.entries ≡ newest keep entries.items) }
    {
        let mut kept = VecDeque::from_vec(entries.into_items());
        drop_past(&mut kept, keep);
        let first = last + 1 - kept.len() as u64;
        let Linked { entries, links } = link_all(alloc, owner.as_str(), first, kept.into_vec())?;
        Ok(Archive {
            owner,
            keep,
            last,
            entries,
            links,
        })
    }

    /// An archive without entries, which keeps its newest `keep`. It takes no memory.
    pub fn new(alloc: Global, owner: Text, keep: u32) -> Archive
        requires keep { 1 ≤ keep }
        ensures owner { result.owner ≡ owner }
        ensures keep { result.keep ≡ keep }
        ensures last { result.last ≡ 0 }
        ensures entries { result.entries ≡ [] }
    {
        Archive {
            owner,
            keep,
            last: 0,
            entries: VecDeque::new(alloc),
            links: Links::new(alloc),
        }
    }

    /// The account's bare address.
    pub fn owner(&self) -> &str
        ensures { result.now ≡ self.now.owner }
    {
        self.owner.as_str()
    }

    /// The greatest number given, which the last entry has, or 0 where no entry came yet.
    pub fn last(&self) -> u64
        ensures last { result ≡ self.now.last }
        ensures kept { AreKept self.now.keep self.now.last self.now.entries }
    {
        self.last
    }

    /// The number of the first entry that is kept, or 1 where no entry came yet.
    pub fn first(&self) -> u64
        ensures first { result ≡ self.now.last + 1 - length self.now.entries }
        ensures kept { AreKept self.now.keep self.now.last self.now.entries }
    {
        self.last + 1 - self.entries.len() as u64
    }

    /// How many entries are kept.
    pub fn len(&self) -> u64
        ensures entries { result ≡ length self.now.entries }
        ensures kept { AreKept self.now.keep self.now.last self.now.entries }
    {
        self.entries.len() as u64
    }

    /// Whether no entry is kept, which is so until the first one came.
    pub fn is_empty(&self) -> bool
        ensures { IsTrue result ↔ (self.now.entries ≡ []) }
    {
        self.entries.is_empty()
    }

    /// The place of a number among the kept entries.
    fn position(&self, number: u64) -> Option<usize>
        ensures some { IfSome result (λ at. (at < length self.now.entries) × (number + length self.now.entries ≡ self.now.last + 1 + at)) }
        ensures none { IfNone result ((number + length self.now.entries ≤ self.now.last) ⊎ (self.now.last < number)) }
        ensures kept { AreKept self.now.keep self.now.last self.now.entries }
    {
        let first = self.first();
        if number > self.last {
            return None;
        }
        let at = number.checked_sub(first)?;
        Some(at as usize)
    }

    /// The entry with a number. `None` where no kept entry has it: it was dropped, it is 0, or it is above `last`.
    pub fn get(&self, number: u64) -> Option<&Entry>
        ensures entry { option_copied result ≡ entry_numbered number self.now.entries }
        ensures found { IfSome result (λ e. slice_get self.now.entries (number + length self.now.entries - 1 - self.now.last) ≡ Some e.now) }
        ensures none { IsNone result ↔ ((number + length self.now.entries ≤ self.now.last) ⊎ (self.now.last < number)) }
    {
        self.entries.get(self.position(number)?)
    }

    /// The least number of a kept entry with this peer. `None` where there is none.
    pub fn first_of(&self, peer: &str) -> Option<u64>
        ensures { result ≡ first_of self.now.owner peer.now self.now.entries }
    {
        self.links
            .first_of(self.owner.as_str(), &self.entries, self.first(), peer)
    }

    /// The least number above this one of a kept entry with the same peer as the entry with this number. `None` where
    /// there is none, or no kept entry has this number.
    pub fn next_of(&self, number: u64) -> Option<u64>
        ensures { result ≡ next_of self.now.owner number self.now.entries }
    {
        self.links.next_at(self.position(number)?)
    }

    /// The first and the last number of the kept entries with this peer, and how many there are. `None` where there is
    /// none. It takes no memory, and one search by peer.
    pub fn chain(&self, peer: &str) -> Option<Chain>
        ensures { result ≡ chain_ends self.now.owner peer.now self.now.entries }
    {
        self.links
            .chain(self.owner.as_str(), &self.entries, self.first(), peer)
    }

    /// The greatest number below this one of a kept entry with the same peer as the entry with this number. `None`
    /// where there is none, or no kept entry has this number. It takes no memory, and no search.
    pub fn previous_of(&self, number: u64) -> Option<u64>
        ensures { result ≡ previous_of self.now.owner number self.now.entries }
    {
        self.links.previous_at(self.first(), self.position(number)?)
    }

    /// How many kept entries with the same peer stand before the entry with this number, which is its place in its
    /// chain, from 0. `None` where no kept entry has this number. It takes no memory, and one search by peer.
    pub fn index_of(&self, number: u64) -> Option<u64>
        ensures { result ≡ index_of self.now.owner number self.now.entries }
    {
        let at = self.position(number)?;
        Some(
            self.links
                .index_at(self.owner.as_str(), &self.entries, self.first(), at),
        )
    }

    /// Makes room for one entry more. `Full` comes exactly where the greatest number was given. On each outcome the
    /// entries and the room that was there stay.
    pub fn reserve(&mut self) -> Result<(), ArchiveFault>
        ensures spare { OnOk result (1 ≤ self.new.spare) }
        ensures room { OnOk result (self.new.last < GREATEST_NUMBER) }
        ensures full { IsErrOf result ArchiveFault.Full ↔ (self.old.last ≡ GREATEST_NUMBER) }
        ensures owner { self.new.owner ≡ self.old.owner }
        ensures keep { self.new.keep ≡ self.old.keep }
        ensures last { self.new.last ≡ self.old.last }
        ensures entries { self.new.entries ≡ self.old.entries }
        ensures kept { self.old.spare ≤ self.new.spare }
    {
        if self.last == GREATEST_NUMBER {
            return Err(ArchiveFault::Full);
        }
        make_room(&mut self.entries, &mut self.links)?;
        Ok(())
    }

    /// Adds an entry at the end, under the next number, which is the answer, and drops the oldest one where more than
    /// `keep` would stand. It takes no memory, and lowers the room by at most 1.
    pub fn append_reserved(&mut self, mut entry: Entry) -> u64
        requires spare { 1 ≤ self.old.spare }
        requires room { self.old.last < GREATEST_NUMBER }
        ensures number { result ≡ self.old.last + 1 }
        ensures last { self.new.last ≡ result }
        ensures entries { self.new.entries ≡ newest self.old.keep (self.old.entries ++ numbered result entry ∷ []) }
        ensures owner { self.new.owner ≡ self.old.owner }
        ensures keep { self.new.keep ≡ self.old.keep }
        ensures spare { self.old.spare ≤ self.new.spare + 1 }
    {
        let number = self.last + 1;
        entry.renumber(number);
        make_place(
            self.owner.as_str(),
            &mut self.entries,
            &mut self.links,
            self.keep,
            number,
        );
        let first = number - self.entries.len() as u64;
        let owner = self.owner.as_str();
        self.links
            .link(owner, &self.entries, first, entry.peer(owner), number);
        self.entries.push_back_reserved(entry);
        self.last = number;
        number
    }

    /// The kept entries, taken out of the archive in order.
    pub fn into_entries(self) -> Vec<Entry>
        ensures { result.items ≡ self.entries }
    {
        self.entries.into_vec()
    }
}
