//! The chains of an archive: for each peer the numbers of its first and last entry, and beside each entry the numbers
//! of the next and of the previous one with the same peer, and its ordinal. A chain's peer is read off its first entry,
//! so that no text is copied.
//!
//! The links of an archive's entries stand beside them: beside each entry the numbers of the next and the previous
//! one with the same peer, or 0, and how many came before it in its chain. Dropping the oldest entry never leaves a
//! chain without one.
ghost use Rattle.std.specs.Prelude.{◌≡◌, ℕ, ◌+◌, ◌-◌, ◌<◌, ◌≤◌, List, [], ◌∷◌, ◌++◌, Some, map, take, drop, set, length, slice_get, IfOk, IfErr, OnOk};
ghost use Rattle.std.specs.List.{insert};
ghost use Rattle.mam_archive.specs.Chained.{AreChains, IsChained, IsGap, chain_or, count_of, extended, least_with_peer, kept_number, link_or, moved_on, some_chain, some_number};
ghost use Rattle.mam_archive.specs.Rooms.{room_of};
ghost use Rattle.mam_archive.specs.Peers.{peer_of};

use crate::entry::Entry;
use base_io::NoMemory;
use std::alloc::Global;
use std::cmp::Ordering;
use std::collections::VecDeque;

/// The numbers of the first and of the last entry with a peer, and how many there are.
#[derive(Clone, Copy)]
pub struct Chain {
    pub first: u64,
    pub last: u64,
    pub count: u64,
}

/// The numbers of the first and of the last entry of a peer.
#[derive(Clone, Copy)]
pub(crate) struct Ends {
    pub(crate) first: u64,
    pub(crate) last: u64,
}

/// What stands beside an entry: the number of the next one with the same peer, or 0, that of the previous one, or 0,
/// which may be of a dropped entry, and how many came before it in its chain, dropped ones too.
#[derive(Clone, Copy)]
pub(crate) struct Link {
    next: u64,
    previous: u64,
    ordinal: u64,
}

/// What an archive has beside its entries: the link of each, and the chains in the order of their peers.
#[derive(Drop)]
pub(crate) struct Links {
    links: VecDeque<Link>,
    chains: Vec<Ends>,
}

impl Links {
    /// The links of no entry. It takes no memory.
    pub(crate) fn new(alloc: Global) -> Links
        ensures links { result.links.items ≡ [] }
        ensures chains { result.chains.items ≡ [] }
    {
        Links {
            links: VecDeque::new(alloc),
            chains: Vec::new(alloc),
        }
    }

    /// Makes room for the links of one entry more, and never lowers it.
    pub(crate) fn reserve(&mut self) -> Result<(), NoMemory>
        ensures links { self.new.links.items ≡ self.old.links.items }
        ensures chains { self.new.chains.items ≡ self.old.chains.items }
        ensures room { OnOk result (1 ≤ room_of self.new) }
        ensures kept { room_of self.old ≤ room_of self.new }
    {
        self.links.reserve(1)?;
        self.chains.reserve(1)?;
        Ok(())
    }

    /// The peer of the chain at a place.
    fn peer_at<'a>(
        &self,
        owner: &str,
        entries: &'a VecDeque<Entry>,
        first: u64,
        at: usize,
    ) -> &'a str
        requires linked { IsChained first (map (peer_of owner.now) entries.now.items) self.now.links.items self.now.chains.items }
        requires there { at < length self.now.chains.items }
        ensures { (keys : List (List ℕ)) → AreChains keys first (map (peer_of owner.now) entries.now.items) self.now.chains.items →
            slice_get keys at ≡ Some result.now }
    {
        let position = self.chains[at].first - first;
        entries[position as usize].peer(owner)
    }

    /// The place of a peer's chain, or else the place where it would stand.
    pub(crate) fn search(
        &self,
        owner: &str,
        entries: &VecDeque<Entry>,
        first: u64,
        peer: &str,
    ) -> Result<usize, usize>
        requires linked { IsChained first (map (peer_of owner.now) entries.now.items) self.now.links.items self.now.chains.items }
        ensures within { IfOk result (λ at. at < length self.now.chains.items) }
        ensures found { IfOk result (λ at. (keys : List (List ℕ)) →
            AreChains keys first (map (peer_of owner.now) entries.now.items) self.now.chains.items → slice_get keys at ≡ Some peer.now) }
        ensures bound { IfErr result (λ at. at ≤ length self.now.chains.items) }
        ensures absent { IfErr result (λ at. (keys : List (List ℕ)) →
            AreChains keys first (map (peer_of owner.now) entries.now.items) self.now.chains.items → IsGap keys peer.now at) }
    {
        let mut low = 0;
        let mut high = self.chains.len();
        while low < high {
            let middle = low + (high - low) / 2;
            match self.peer_at(owner, entries, first, middle).cmp(peer) {
                Ordering::Less => low = middle + 1,
                Ordering::Equal => return Ok(middle),
                Ordering::Greater => high = middle,
            }
        }
        Err(low)
    }

    /// The number of a peer's first entry.
    pub(crate) fn first_of(
        &self,
        owner: &str,
        entries: &VecDeque<Entry>,
        first: u64,
        peer: &str,
    ) -> Option<u64>
        requires linked { IsChained first (map (peer_of owner.now) entries.now.items) self.now.links.items self.now.chains.items }
        requires positive { 1 ≤ first }
        ensures { result ≡ some_number (least_with_peer peer.now first (map (peer_of owner.now) entries.now.items)) }
    {
        match self.search(owner, entries, first, peer) {
            Ok(at) => Some(self.chains[at].first),
            Err(_) => None,
        }
    }

    /// The numbers of the first and of the last entry of a peer, and how many there are.
    pub(crate) fn chain(
        &self,
        owner: &str,
        entries: &VecDeque<Entry>,
        first: u64,
        peer: &str,
    ) -> Option<Chain>
        requires linked { IsChained first (map (peer_of owner.now) entries.now.items) self.now.links.items self.now.chains.items }
        ensures { result ≡ some_chain peer.now first (map (peer_of owner.now) entries.now.items) }
    {
        match self.search(owner, entries, first, peer) {
            Ok(at) => {
                let ends = self.chains[at];
                let before = self.links[(ends.first - first) as usize].ordinal;
                Some(Chain {
                    first: ends.first,
                    last: ends.last,
                    count: self.links[(ends.last - first) as usize].ordinal - before + 1,
                })
            }
            Err(_) => None,
        }
    }

    /// The number of the next entry with the peer of the entry at a place.
    pub(crate) fn next_at(&self, at: usize) -> Option<u64>
        requires { at < length self.now.links.items }
        ensures { result ≡ some_number (link_or self.now.links.items at).next }
    {
        match self.links[at].next {
            0 => None,
            number => Some(number),
        }
    }

    /// The number of the previous entry with the peer of the entry at a place, where it is not below the first.
    pub(crate) fn previous_at(&self, first: u64, at: usize) -> Option<u64>
        requires { at < length self.now.links.items }
        ensures { result ≡ kept_number first (link_or self.now.links.items at).previous }
    {
        let number = self.links[at].previous;
        if number < first { None } else { Some(number) }
    }

    /// How many of the entries before the one at a place have its peer.
    pub(crate) fn index_at(
        &self,
        owner: &str,
        entries: &VecDeque<Entry>,
        first: u64,
        at: usize,
    ) -> u64
        requires linked { IsChained first (map (peer_of owner.now) entries.now.items) self.now.links.items self.now.chains.items }
        requires there { at < length entries.now.items }
        ensures { (peer : List ℕ) → slice_get (map (peer_of owner.now) entries.now.items) at ≡ Some peer →
            result ≡ count_of peer (take at (map (peer_of owner.now) entries.now.items)) }
    {
        let Ok(chain) = self.search(owner, entries, first, entries[at].peer(owner)) else {
            unreachable!()
        };
        let start = (self.chains[chain].first - first) as usize;
        self.links[at].ordinal - self.links[start].ordinal
    }

    /// Links an entry with this peer and number, which is to follow the entries. It takes no memory.
    pub(crate) fn link(
        &mut self,
        owner: &str,
        entries: &VecDeque<Entry>,
        first: u64,
        peer: &str,
        number: u64,
    )
        requires linked { IsChained first (map (peer_of owner.now) entries.now.items) self.old.links.items self.old.chains.items }
        requires number { number ≡ first + length entries.now.items }
        requires room { 1 ≤ room_of self.old }
        ensures linked { IsChained first (map (peer_of owner.now) entries.now.items ++ peer.now ∷ []) self.new.links.items self.new.chains.items }
        ensures room { room_of self.old ≤ room_of self.new + 1 }
    {
        match self.search(owner, entries, first, peer) {
            Ok(at) => self.extend(first, at, number),
            Err(at) => self.begin(at, number),
        }
    }

    /// Puts an entry's number and link at the end of the chain at a place.
    fn extend(&mut self, first: u64, at: usize, number: u64)
        requires there { at < length self.old.chains.items }
        requires position { (first ≤ (chain_or self.old.chains.items at).last) × ((chain_or self.old.chains.items at).last < first + length self.old.links.items) }
        requires ordinal { (link_or self.old.links.items ((chain_or self.old.chains.items at).last - first)).ordinal < number }
        requires room { 1 ≤ room_of self.old }
        ensures links { self.new.links.items ≡ extended ((chain_or self.old.chains.items at).last - first) (chain_or self.old.chains.items at).last number self.old.links.items }
        ensures chains { self.new.chains.items ≡ set self.old.chains.items at (record { first = (chain_or self.old.chains.items at).first; last = number }) }
        ensures room { room_of self.old ≤ room_of self.new + 1 }
    {
        let last = self.chains[at].last;
        let position = (last - first) as usize;
        let ordinal = self.links[position].ordinal + 1;
        self.links[position].next = number;
        self.chains[at].last = number;
        self.links.push_back_reserved(Link {
            next: 0,
            previous: last,
            ordinal,
        });
    }

    /// Puts a chain of one entry at a place, and the link of that entry at the end.
    fn begin(&mut self, at: usize, number: u64)
        requires there { at ≤ length self.old.chains.items }
        requires room { 1 ≤ room_of self.old }
        ensures links { self.new.links.items ≡ self.old.links.items ++ record { next = 0; previous = 0; ordinal = 0 } ∷ [] }
        ensures chains { self.new.chains.items ≡ insert self.old.chains.items at (record { first = number; last = number }) }
        ensures room { room_of self.old ≤ room_of self.new + 1 }
    {
        let ends = Ends {
            first: number,
            last: number,
        };
        match self.chains.insert(at, ends) {
            Ok(()) => {}
            Err(_) => unreachable!(),
        }
        self.links.push_back_reserved(Link {
            next: 0,
            previous: 0,
            ordinal: 0,
        });
    }

    /// Unlinks the first of the entries: its chain moves on to the next, or goes where there is none.
    pub(crate) fn unlink_first(&mut self, owner: &str, entries: &VecDeque<Entry>, first: u64)
        requires linked { IsChained first (map (peer_of owner.now) entries.now.items) self.old.links.items self.old.chains.items }
        requires some { 0 < length entries.now.items }
        requires positive { 1 ≤ first }
        ensures linked { IsChained (first + 1) (drop 1 (map (peer_of owner.now) entries.now.items)) self.new.links.items self.new.chains.items }
        ensures room { room_of self.old ≤ room_of self.new }
    {
        let Ok(at) = self.search(owner, entries, first, entries[0].peer(owner)) else {
            unreachable!()
        };
        self.move_on(at);
    }

    /// Drops the first link, and moves the chain at a place on to it, or removes the chain where the link was to none.
    fn move_on(&mut self, at: usize)
        requires there { at < length self.old.chains.items }
        requires some { 0 < length self.old.links.items }
        ensures links { self.new.links.items ≡ drop 1 self.old.links.items }
        ensures chains { self.new.chains.items ≡ moved_on (link_or self.old.links.items 0).next at self.old.chains.items }
        ensures room { room_of self.old ≤ room_of self.new }
    {
        match self.links.pop_front() {
            Some(Link { next: 0, .. }) => {
                self.chains.remove(at);
            }
            Some(Link { next, .. }) => {
                self.chains[at] = Ends {
                    first: next,
                    last: self.chains[at].last,
                };
            }
            None => unreachable!(),
        }
    }
}
