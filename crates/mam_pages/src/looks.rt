//! The calls by which a page is found.
//!
//! `Look` has calls by which a chain isn't walked (`chain`, `index_of`, `previous_of`, `is_with`): a page of one
//! conversation costs no more as an archive grows. `owner` is no look: an entry's addresses alone don't tell who the
//! other party is.
ghost use Rattle.std.specs.Prelude.{◌≡◌, ℕ, Option};
ghost use Rattle.std.specs.Borrow.{sem};
ghost use Rattle.std.specs.Io.BufRead.{Rests};
ghost use Rattle.std.specs.Option.{option_copied};
ghost use Rattle.mam_archive.specs.Entries.{entry_numbered};
ghost use Rattle.base_io.specs.Counts.{counted};
ghost use Rattle.mam_pages.specs.Kept.{AreConsecutive, Kept, first_number, last_number};
ghost use Rattle.mam_archive.specs.Peers.{chain_ends, first_of, index_of, next_of, previous_of};
ghost use Rattle.mam_pages.specs.Looks.{is_number_with};

use mam_archive::{Chain, Entry};

/// What a page is found with: the calls by which an archive is looked at. Contracts alone see two things of it: the
/// `archive` for which it stands, which no call changes, and the number of `looks`, which stays at 2^64 - 1 once
/// there. No call takes memory.
pub trait Look {
    ghost archive: { Self → Kept };

    ghost looks: { Self → ℕ };

    /// The bare address of the account whose archive it is. This is no look.
    fn owner(&self) -> &str
        ensures { result.now ≡ (archive self.now).owner };

    /// The number of the first entry, or 1 where there is none. This is no look.
    fn first(&self) -> u64
        ensures first { result ≡ first_number (archive self.now).entries }
        ensures consecutive { AreConsecutive (archive self.now).entries };

    /// The number of the last entry, or 0 where there is none. This is no look.
    fn last(&self) -> u64
        ensures { result ≡ last_number (archive self.now).entries };

    /// The entry with a number, and `None` where no entry has it. This is a look.
    fn get(&mut self, number: u64) -> Option<&Entry>
        ensures* after_borrow { sem 𝓛 (Rests Self.row self.entry (λ new. (archive new ≡ archive self.old) × (looks new ≡ counted (looks self.old)))) }
        ensures entry { option_copied result ≡ entry_numbered number (archive self.old).entries };

    /// The least number of an entry with that peer, and `None` where there is none. This is a look.
    fn first_of(&mut self, peer: &str) -> Option<u64>
        ensures number { result ≡ first_of (archive self.old).owner peer.now (archive self.old).entries }
        ensures archive { archive self.new ≡ archive self.old }
        ensures looks { looks self.new ≡ counted (looks self.old) };

    /// The least number above this one of an entry with the same peer as the entry with this one, and `None` where
    /// there is none, or no entry has this one. This is a look.
    fn next_of(&mut self, number: u64) -> Option<u64>
        ensures number { result ≡ next_of (archive self.old).owner number (archive self.old).entries }
        ensures archive { archive self.new ≡ archive self.old }
        ensures looks { looks self.new ≡ counted (looks self.old) };

    /// The numbers of the first and of the last entry with that peer, and how many there are, and `None` where there is
    /// none. This is a look.
    fn chain(&mut self, peer: &str) -> Option<Chain>
        ensures ends { result ≡ chain_ends (archive self.old).owner peer.now (archive self.old).entries }
        ensures archive { archive self.new ≡ archive self.old }
        ensures looks { looks self.new ≡ counted (looks self.old) };

    /// The greatest number below this one of an entry with the same peer as the entry with this one, and `None` where
    /// there is none, or no entry has this one. This is a look.
    fn previous_of(&mut self, number: u64) -> Option<u64>
        ensures number { result ≡ previous_of (archive self.old).owner number (archive self.old).entries }
        ensures archive { archive self.new ≡ archive self.old }
        ensures looks { looks self.new ≡ counted (looks self.old) };

    /// How many entries with the same peer stand before the entry with a number, and `None` where no entry has it. This
    /// is a look.
    fn index_of(&mut self, number: u64) -> Option<u64>
        ensures index { result ≡ index_of (archive self.old).owner number (archive self.old).entries }
        ensures archive { archive self.new ≡ archive self.old }
        ensures looks { looks self.new ≡ counted (looks self.old) };

    /// Whether there is an entry with a number and it is with that peer. This is a look.
    fn is_with(&mut self, number: u64, peer: &str) -> bool
        ensures answer { result ≡ is_number_with (archive self.old) peer.now number }
        ensures archive { archive self.new ≡ archive self.old }
        ensures looks { looks self.new ≡ counted (looks self.old) };
}
