//! Laws of the machine that a framer is, which its users need.
//!
//! A stream is a relation that grows at its end (`StreamTo`). The grammar's laws hold for each list of bytes, and
//! those on the machine within the limits. A count of bytes stops at 2^64 - 1, so that the law that what is read is
//! within the limits has the range of `Limits.bytes` as a premise.
ghost use Rattle.std.specs.Prelude.{◌≡◌, ℕ, List, ◌++◌, [], None, Some};
ghost use Rattle.xml_framer.specs.Machine.{run};
ghost use Rattle.xml_framer.specs.Readings.{fault_of, items_after, items_of, part_at};
ghost use Rattle.xml_framer.specs.States.{State, Turn, turn};
ghost use Rattle.xml_framer.specs.declared.fault.Fault.{Fault};
ghost use Rattle.xml_framer.specs.declared.items.Item.{Item};
ghost use Rattle.xml_framer.specs.declared.limits.Limits.{Limits};

/// A law: how bytes are cut into pieces doesn't matter. The state and the items behind two pieces, one after the other,
/// are those behind both in one. Nor do the items matter that were given before: they stay in front.
pub fn any_pieces()
    ensures pieces { (t : Turn) (a b : List ℕ) → run t (a ++ b) ≡ run (run t a) b }
    ensures following { (s : State) (items : List Item) (bs : List ℕ) → run (turn s items) bs ≡ turn (run (turn s []) bs).state (items ++ (run (turn s []) bs).items) }
{}

/// A law: behind a fault nothing changes, neither the state nor the items, whatever bytes come.
pub fn a_fault_stays()
    ensures { (t : Turn) (bs : List ℕ) (f : Fault) → t.state.fault ≡ Some f → run t bs ≡ t }
{}

/// A law: what bytes give stays when more come. Before the first byte there is nothing. The items of a piece stand behind
/// those of the bytes before it, and two pieces add what both add as one. Behind a fault nothing is added, and the fault
/// stays.
pub fn bytes_only_add()
    ensures nothing { (limits : Limits) → (items_of limits [] ≡ []) × (fault_of limits [] ≡ None) × (part_at limits [] ≡ None) }
    ensures items { (limits : Limits) (bytes piece : List ℕ) → items_of limits (bytes ++ piece) ≡ items_of limits bytes ++ items_after limits bytes piece }
    ensures pieces { (limits : Limits) (bytes a b : List ℕ) → items_after limits bytes (a ++ b) ≡ items_after limits bytes a ++ items_after limits (bytes ++ a) b }
    ensures fault { (limits : Limits) (bytes piece : List ℕ) (f : Fault) → fault_of limits bytes ≡ Some f → (fault_of limits (bytes ++ piece) ≡ Some f) × (items_after limits bytes piece ≡ []) }
{}
