//! Names that are found by an ordered index.
//!
//! An index of names holds each name twice, in order and as a key: a map can't borrow its keys from a list beside it.
ghost use Rattle.std.specs.Prelude.{◌≡◌, ◌<◌, false, [], ◌∷◌, ◌++◌, length, OnOk, OnErr, IfSome, IfNone, IsTrue, ◌↔◌};
ghost use Rattle.std.specs.List.{slice_get};
ghost use Rattle.base_io.specs.Names.{is_among, position_of};

use crate::fault::NoMemory;
use crate::list::Names;
use crate::text::Text;
use std::alloc::Global;
use std::collections::BTreeMap;
use std::marker::Model;

/// Names, none of them twice, each with its place from 0. Contracts see the names in the order in which they were
/// added.
#[derive(Drop)]
pub struct NameIndex {
    positions: BTreeMap<String, usize>,
    names: Names,
}

impl Model for NameIndex {
    ghost use Rattle.std.specs.Prelude.{◌≡◌, ℕ, List};
    ghost use Rattle.std.specs.BTreeMap.{get_by_text};
    ghost use Rattle.base_io.specs.Names.{position_of};

    ghost Value = { List (List ℕ) };

    ghost view = { λ s. s.names.items };

    ghost invariant = { λ s. (name : List ℕ) → get_by_text s.positions name ≡ position_of name s.names.items };
}

impl NameIndex {
    /// No names. It takes no memory.
    pub fn new(alloc: Global) -> NameIndex
        ensures { result ≡ [] }
    {
        NameIndex {
            positions: BTreeMap::new(alloc),
            names: Names::new(alloc),
        }
    }

    /// Adds a name behind the others. A refusal leaves them as they were.
    pub fn add(&mut self, alloc: Global, name: &str) -> Result<(), NoMemory>
        requires { is_among name.now self.old ≡ false }
        ensures ok { OnOk result (self.new ≡ self.old ++ name.now ∷ []) }
        ensures err { OnErr result (self.new ≡ self.old) }
    {
        self.names.reserve(1)?;
        let kept = Text::from_str(alloc, name)?;
        let key = String::from_str(alloc, name)?;
        let position = self.names.as_slice().len();
        self.positions.insert(key, position)?;
        self.names.push_reserved(kept);
        Ok(())
    }

    /// The place of a name, from 0. It is found in a time that grows with the logarithm of their number.
    pub fn find(&self, name: &str) -> Option<usize>
        ensures position { result ≡ position_of name.now self.now }
        ensures there { IfSome result (λ i. (i < length self.now) × (slice_get self.now i ≡ Some name.now)) }
        ensures nowhere { IfNone result (is_among name.now self.now ≡ false) }
    {
        self.positions.get(name).copied()
    }

    /// Whether a name was added.
    pub fn contains(&self, name: &str) -> bool
        ensures { result ≡ is_among name.now self.now }
    {
        self.find(name).is_some()
    }

    /// How many names there are.
    pub fn len(&self) -> usize
        ensures { result ≡ length self.now }
    {
        self.names.as_slice().len()
    }

    /// Whether there is none.
    pub fn is_empty(&self) -> bool
        ensures { IsTrue result ↔ (self.now ≡ []) }
    {
        self.names.as_slice().is_empty()
    }
}
