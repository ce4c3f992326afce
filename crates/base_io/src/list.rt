//! Lists whose calls answer want of memory.
//!
//! Lists are one generic type. `ListOf<T>` of `base_io` stands under the names `Numbers`, `Names`, `Lines`, `Items`
//! and so on. Contracts see it, and `Bytes`, as a record of the items and of `spare`, the number of further items
//! that fit without more memory: `spare` has to be visible where a call needs room, and `≡` compares all of a value.
//! So an equal list is equal items.
//!
//! What a call adds it says of `spare` where room was reserved. After a call that takes memory itself, as `push`,
//! nothing is said of it: who needs room again reserves it again.
//!
//! A copy of a list goes by a trait, `Copied`, since an alias can't be given a method in another crate.
//!
//! A list that has no room takes just what is reserved first, since most lists get all their items at once; from then
//! on it doubles. A child of an element takes room for itself alone.
ghost use Rattle.std.specs.Prelude.{◌≡◌, ◌+◌, ◌≤◌, [], ◌∷◌, ◌++◌, IfOk, IsOk, OnOk, OnErr};

use crate::fault::NoMemory;
use crate::text::Text;
use std::alloc::Global;
use std::marker::Model;

/// A list that owns its items. Contracts see it as the list of the items and the number `spare` of further
/// items that fit without more memory.
#[derive(Drop)]
pub struct ListOf<T> {
    items: Vec<T>,
}

/// Numbers, in order.
pub type Numbers = ListOf<u64>;

/// Texts, in order.
pub type Names = ListOf<Text>;

impl<T> Model for ListOf<T> {
    ghost use Rattle.std.specs.Prelude.{◌-◌, vec_len, vec_capacity};
    ghost use Rattle.base_io.specs.Listed.{Listed};

    ghost Value = { Listed T };

    ghost view = { λ s. record { items = s.items.items; spare = vec_capacity s.items - vec_len s.items } };
}

impl<T> ListOf<T> {
    /// The empty list. It takes no memory.
    pub fn new(alloc: Global) -> ListOf<T>
        ensures { result.items ≡ [] }
    {
        ListOf {
            items: Vec::new(alloc),
        }
    }

    /// The items, without a copy.
    pub fn as_slice(&self) -> &[T]
        ensures { result.now ≡ self.now.items }
    {
        self.items.as_slice()
    }

    /// Makes `spare` at least `n`, and never lowers it. A list that has no room takes just so much: most lists get all
    /// their items at once.
    pub fn reserve(&mut self, n: usize) -> Result<(), NoMemory>
        ensures ok { OnOk result (n ≤ self.new.spare) }
        ensures items { self.new.items ≡ self.old.items }
        ensures kept { self.old.spare ≤ self.new.spare }
    {
        if self.items.capacity() == 0 {
            self.items.reserve_exact(n)?;
        } else {
            self.items.reserve(n)?;
        }
        Ok(())
    }

    /// Adds an item at the end and takes no memory. It lowers `spare` by at most 1.
    pub fn push_reserved(&mut self, item: T)
        requires { 1 ≤ self.old.spare }
        ensures items { self.new.items ≡ self.old.items ++ item ∷ [] }
        ensures spare { self.old.spare ≤ self.new.spare + 1 }
    {
        match self.items.push(item) {
            Ok(()) => {}
            Err(_) => unreachable!(),
        }
    }

    /// The items, taken out of the list in order.
    pub fn into_items(self) -> Vec<T>
        ensures { result.items ≡ self.items }
    {
        self.items
    }
}

impl<T: Drop> ListOf<T> {
    /// Adds an item at the end. A refusal drops the item and leaves the list as it was.
    pub fn push(&mut self, item: T) -> Result<(), NoMemory>
        ensures ok { OnOk result (self.new.items ≡ self.old.items ++ item ∷ []) }
        ensures err { OnErr result (self.new.items ≡ self.old.items) }
        ensures room { 1 ≤ self.old.spare → IsOk result }
    {
        self.items.push(item)?;
        Ok(())
    }
}

impl<T> From<Vec<T>> for ListOf<T> {
    ghost from_gives = { λ items list. list.items ≡ items.items };

    fn from(items: Vec<T>) -> ListOf<T> {
        ListOf { items }
    }
}

/// What can be copied into memory of its own.
pub trait Copied: Sized {
    /// An equal value.
    fn copied(&self, alloc: Global) -> Result<Self, NoMemory>
        ensures { IfOk result (λ copy. copy ≡ self.now) };
}

impl Copied for u64 {
    fn copied(&self, _alloc: Global) -> Result<u64, NoMemory> {
        Ok(*self)
    }
}

impl<T: Copied + Drop> ListOf<T> {
    /// An equal list.
    pub fn copy(&self, alloc: Global) -> Result<ListOf<T>, NoMemory>
        ensures { IfOk result (λ copy. copy.items ≡ self.now.items) }
    {
        let mut copy = ListOf::new(alloc);
        copy.reserve(self.items.len())?;
        for item in self.items.as_slice() {
            copy.push(item.copied(alloc)?)?;
        }
        Ok(copy)
    }
}
