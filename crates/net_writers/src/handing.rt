//! What one event puts for a connection is handed over to its writer.
ghost use Rattle.std.specs.Prelude.{◌≡◌, ◌⊎◌, ◌+◌, ◌++◌, [], true, false, ℕ, List, length};
ghost use Rattle.net_writers.specs.Lanes.{IsLane};
ghost use Rattle.net_writers.specs.Parcels.{IsOf, joined};

use crate::lane::Lane;
use crate::parcels::{Parcels, is_empty};
use base_io::Bytes;
use net_traits::Outgoing;
use std::sync::Wait;

impl<R: Wait + Drop, O: Outgoing + Drop> Lane<R, O> {
    // Hands over parcels, one after another.
    fn put_all<W: Wait>(&mut self, rt: &W, parcels: Vec<Bytes>)
        requires lane { (bytes : List ℕ) × (count : ℕ) × IsLane bytes count self.old }
        requires open { self.old.shut ≡ false }
        ensures lane { (bytes : List ℕ) (count : ℕ) → IsLane bytes count self.old → IsLane (bytes ++ joined parcels.items) (count + length parcels.items) self.new }
        ensures shut { self.new.shut ≡ false }
        ensures worker { self.new.worker ≡ self.old.worker }
    {
        for parcel in parcels {
            self.put(rt, parcel);
        }
    }

    // Hands over all parcels of an event.
    fn put_parcels<W: Wait>(&mut self, rt: &W, parcels: Parcels)
        requires lane { (bytes : List ℕ) × (count : ℕ) × IsLane bytes count self.old }
        requires open { self.old.shut ≡ false }
        ensures lane { (bytes : List ℕ) (count : ℕ) (more : List ℕ) (n : ℕ) → IsOf more n parcels → IsLane bytes count self.old → IsLane (bytes ++ more) (count + n) self.new }
        ensures shut { self.new.shut ≡ false }
        ensures worker { self.new.worker ≡ self.old.worker }
    {
        let Parcels { whole, last } = parcels;
        self.put_all(rt, whole);
        if is_empty(&last) {
            return;
        }
        self.put(rt, last);
    }

    // Hands them over where the connection was not shut.
    fn put_open<W: Wait>(&mut self, rt: &W, parcels: Parcels)
        requires lane { (bytes : List ℕ) × (count : ℕ) × IsLane bytes count self.old }
        ensures lane { (bytes : List ℕ) (count : ℕ) (more : List ℕ) (n : ℕ) → IsOf more n parcels → (self.old.shut ≡ true → more ≡ []) → IsLane bytes count self.old → IsLane (bytes ++ more) (count + n) self.new }
        ensures still { (bytes : List ℕ) × (count : ℕ) × IsLane bytes count self.new }
        ensures shut { self.new.shut ≡ self.old.shut }
        ensures worker { self.new.worker ≡ self.old.worker }
    {
        if self.shut {
            return;
        }
        self.put_parcels(rt, parcels);
    }

    /// Hands over what one event puts for the connection: parcels, and then, where `shut` is so, that it is shut. A connection
    /// that was shut before gets nothing. It doesn't wait for room, and takes no memory.
    pub fn hand_over<W: Wait>(&mut self, rt: &W, parcels: Parcels, shut: bool)
        requires lane { (bytes : List ℕ) × (count : ℕ) × IsLane bytes count self.old }
        ensures lane { (bytes : List ℕ) (count : ℕ) (more : List ℕ) (n : ℕ) → IsOf more n parcels → (self.old.shut ≡ true → more ≡ []) → IsLane bytes count self.old → IsLane (bytes ++ more) (count + n) self.new }
        ensures shut { self.new.shut ≡ true → (self.old.shut ≡ true) ⊎ (shut ≡ true) }
        ensures shuts { shut ≡ true → self.new.shut ≡ true }
        ensures stays { self.old.shut ≡ true → self.new.shut ≡ true }
        ensures worker { self.new.worker ≡ self.old.worker }
    {
        self.put_open(rt, parcels);
        if !shut {
            return;
        }
        self.shut(rt);
    }
}
