//! Outputs for one connection are joined into parcels: few of them wait for its writer, and each is written at once.
//!
//! Were each output a parcel, a client that resumes behind 300 stanzas, or asks for three pages at once, would be cut off for
//! what it is owed at one event. An output isn't cut, so that each parcel has one at least: as many wait as there are parcels.
ghost use Rattle.std.specs.Prelude.{◌≡◌, ◌≤◌, ◌+◌, ◌++◌, ◌∷◌, [], ℕ, List, length, OnErr, OnOk, true, false};
ghost use Rattle.net_writers.specs.Parcels.{AreWithin, IsOf};

use base_io::{Bytes, NoMemory};
use std::alloc::Global;
use std::mem;

/// Outputs are joined up to so many bytes. One that is longer is a parcel by itself.
pub const MOST_BYTES_JOINED: usize = 65_536;

/// Parcels in order: those to which nothing more is joined, and the last, which has no bytes where there is none.
#[derive(Drop)]
pub struct Parcels {
    pub whole: Vec<Bytes>,
    pub last: Bytes,
}

// Whether these are no bytes.
#[tactic(auto, using(crate::proofs::JoinedParcels::no_bytes))]
pub(crate) fn is_empty(bytes: &Bytes) -> bool
    ensures none { result ≡ true → bytes.now.items ≡ [] }
    ensures some { result ≡ false → 1 ≤ length bytes.now.items }
{
    bytes.as_slice().len() == 0
}

// Whether so many bytes and so many may be one parcel.
fn are_few(a: usize, b: usize) -> bool
    ensures few { result ≡ true → a + b ≤ MOST_BYTES_JOINED }
    ensures many { result ≡ false → MOST_BYTES_JOINED + 1 ≤ a + b }
{
    a <= MOST_BYTES_JOINED && b <= MOST_BYTES_JOINED && a + b <= MOST_BYTES_JOINED
}

impl Parcels {
    /// No parcels. It takes no memory.
    #[tactic(auto, using(crate::proofs::JoinedParcels::no_parcels, crate::proofs::JoinedParcels::none_within))]
    pub fn new(alloc: Global) -> Parcels
        ensures none { IsOf [] 0 result }
        ensures within { (most : ℕ) → AreWithin most result }
    {
        let whole = Vec::new(alloc);
        let last = Bytes::new(alloc);
        Parcels { whole, last }
    }

    // The last parcel is whole, and these bytes are the next.
    fn begin(&mut self, bytes: Bytes) -> Result<(), NoMemory>
        ensures whole { OnOk result (self.new.whole.items ≡ self.old.whole.items ++ self.old.last ∷ []) }
        ensures last { OnOk result (self.new.last ≡ bytes) }
        ensures err { OnErr result ((self.new.whole.items ≡ self.old.whole.items) × (self.new.last ≡ self.old.last)) }
    {
        self.whole.reserve(1)?;
        let full = mem::replace(&mut self.last, bytes);
        self.whole.push_reserved(full);
        Ok(())
    }

    /// Adds the bytes of an output: to the last parcel where both have `MOST_BYTES_JOINED` bytes at most, else as the next
    /// parcel. After `NoMemory` the parcels are as they were.
    pub fn add(&mut self, bytes: Bytes) -> Result<(), NoMemory>
        ensures ok { OnOk result ((before : List ℕ) (count : ℕ) → IsOf before count self.old → IsOf (before ++ bytes.items) (count + 1) self.new) }
        ensures within { OnOk result ((most : ℕ) → MOST_BYTES_JOINED ≤ most → length bytes.items ≤ most → AreWithin most self.old → AreWithin most self.new) }
        ensures joined { length self.old.last.items + length bytes.items ≤ MOST_BYTES_JOINED → self.new.whole.items ≡ self.old.whole.items }
        ensures err { OnErr result ((self.new.whole.items ≡ self.old.whole.items) × (self.new.last.items ≡ self.old.last.items)) }
    {
        if is_empty(&self.last) {
            self.last = bytes;
            return Ok(());
        }
        if are_few(self.last.as_slice().len(), bytes.as_slice().len()) {
            return self.last.append(bytes.as_slice());
        }
        self.begin(bytes)
    }
}
