//! The numbers that a page has so far.
//!
//! A window's size stands beside the bound on a page (`SLOTS`, `MOST_RESULTS`): one is the length of an array, the
//! other what queries are held to. That a page fits is proved.
ghost use Rattle.std.specs.Prelude.{◌≡◌, ◌+◌, ◌≤◌, [], ◌∷◌, ◌++◌, take, drop, length, IfOk};
ghost use Rattle.mam_archive.specs.Entries.{newest};

use base_io::{ListOf, NoMemory, Numbers};
use std::alloc::Global;
use std::marker::Model;

/// The most numbers that a window may have.
pub(crate) const SLOTS: usize = 100;

/// The first or the last of the numbers that were put in. Once the slots are full, the oldest number stands at `at`.
#[derive(Drop)]
pub(crate) struct Window {
    slots: [u64; SLOTS],
    most: usize,
    filled: usize,
    at: usize,
}

impl Model for Window {
    ghost use Rattle.std.specs.Prelude.{◌≡◌, ◌<◌, ◌≤◌, ◌++◌, take, drop};
    ghost use Rattle.mam_pages.specs.Windows.{WindowView};

    ghost Value = { WindowView };

    ghost view = { λ w. record { most = w.most; numbers = drop w.at (take w.filled w.slots) ++ take w.at w.slots } };

    ghost invariant = { λ w. (w.most ≤ 100) × (w.filled ≤ w.most) × (w.at ≤ w.filled) × (0 < w.at → (w.filled ≡ w.most) × (w.at < w.most)) };
}

impl Window {
    /// A window of so many numbers, without one.
    pub(crate) fn new(most: usize) -> Window
        requires { most ≤ 100 }
        ensures most { result.most ≡ most }
        ensures numbers { result.numbers ≡ [] }
    {
        Window {
            slots: [0; SLOTS],
            most,
            filled: 0,
            at: 0,
        }
    }

    /// How many numbers it has.
    pub(crate) fn len(&self) -> usize
        ensures len { result ≡ length self.now.numbers }
        ensures most { length self.now.numbers ≤ self.now.most }
    {
        self.filled
    }

    /// Puts in a number, where there is room.
    pub(crate) fn put_first(&mut self, number: u64)
        ensures most { self.new.most ≡ self.old.most }
        ensures numbers { self.new.numbers ≡ take self.old.most (self.old.numbers ++ number ∷ []) }
    {
        if self.filled < self.most {
            self.slots[self.filled] = number;
            self.filled += 1;
        }
    }

    /// Puts in a number, in place of the oldest where there is no room.
    pub(crate) fn put_last(&mut self, number: u64)
        ensures most { self.new.most ≡ self.old.most }
        ensures numbers { self.new.numbers ≡ newest self.old.most (self.old.numbers ++ number ∷ []) }
    {
        if self.filled < self.most {
            self.slots[self.filled] = number;
            self.filled += 1;
        } else if self.most > 0 {
            self.slots[self.at] = number;
            self.at = (self.at + 1) % self.most;
        }
    }

    /// The numbers in order, in a list of their own.
    pub(crate) fn numbers(&self, alloc: Global) -> Result<Numbers, NoMemory>
        ensures { IfOk result (λ numbers. numbers.items ≡ self.now.numbers) }
    {
        let mut numbers = ListOf::new(alloc);
        numbers.reserve(self.filled)?;
        push_all(&mut numbers, &self.slots[self.at..self.filled]);
        push_all(&mut numbers, &self.slots[..self.at]);
        Ok(numbers)
    }
}

/// Adds numbers at the end of a list that has room for them.
pub(crate) fn push_all(numbers: &mut Numbers, more: &[u64])
    requires { length more.now ≤ numbers.old.spare }
    ensures items { numbers.new.items ≡ numbers.old.items ++ more.now }
    ensures spare { numbers.old.spare ≤ numbers.new.spare + length more.now }
{
    for number in more {
        numbers.push_reserved(*number);
    }
}
