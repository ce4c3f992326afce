//! What takes the events of connections.
//!
//! The owner hands events to a `Taker`, a trait: so the proof of the merge knows no server. A taker tells by `keeps`
//! what is so of it between two events; the owner proves that it stays so. Moment and random bytes are arguments.
ghost use Rattle.std.specs.Prelude.{◌≡◌, ◌≤◌, ◌+◌, ℕ, List, [], ◌∷◌, ◌++◌, if◌then◌else◌, length, true, false, IfOk, OnOk};
ghost use Rattle.base_io.specs.Counts.{Rose};
ghost use Rattle.net_traits.specs.ToldSince.{ToldSince};
ghost use Rattle.net_owner.specs.Events.{Connect, Event, Gave, Gone, event, shown};
ghost use Rattle.net_owner.specs.Halves.{AreFirst, IsBlank};

use crate::item::Piece;
use base_io::NoMemory;
use net_traits::{Clock, Entropy, Outgoing};

/// What takes the events of connections, one after another. `O` is where the bytes of a connection go. Contracts alone see
/// five things of it: `events`, those that it took, in order; `numbers`, those of the halves that it was given, in order;
/// `keeps`, what is so of it between two events, where these moments were told and these random bytes drawn for it since it
/// began; `fixed`, bytes that no call changes; and `shut`, that all halves that it was given are closed.
pub trait Taker<O: Outgoing> {
    ghost events: { Self → List Event };

    ghost numbers: { Self → List ℕ };

    ghost keeps: { Self → List ℕ → List ℕ → Type 0 };

    ghost fixed: { Self → List ℕ };

    ghost shut: { Self → Type 0 };

    /// Connection `k` begins, of which nothing was taken before, as of no later one, and random bytes are drawn for it. It is
    /// refused where that fails, and `false` is answered: then that is no event, and its half was closed.
    fn connect<C: Clock, E: Entropy>(
        &mut self,
        clock: &mut C,
        entropy: &mut E,
        k: u64,
        half: O,
    ) -> Result<bool, NoMemory>
        requires fresh { (j : ℕ) → k ≤ j → shown j (events self.old) ≡ [] }
        requires position { k ≡ length (numbers self.old) + 1 }
        requires blank { IsBlank (O.told half) }
        requires right { (moments drawn : List ℕ) × keeps self.old moments drawn }
        ensures came { IfOk result (λ came. events self.new ≡ (if came then events self.old ++ event k Connect ∷ [] else events self.old)) }
        ensures half { IfOk result (λ came. numbers self.new ≡ (if came then numbers self.old ++ (O.told half).number ∷ [] else numbers self.old)) }
        ensures halves { AreFirst (numbers self.old) (numbers self.new) }
        ensures right { (told drawn : List ℕ) → ToldSince told drawn (C.told clock.old) (E.drawn entropy.old) (keeps self.old)
            → OnOk result (ToldSince told drawn (C.told clock.new) (E.drawn entropy.new) (keeps self.new)) }
        ensures refused { IfOk result (λ came. came ≡ false → Rose (E.faults entropy.old) (E.faults entropy.new)) }
        ensures quiet { IfOk result (λ came. came ≡ true → E.faults entropy.new ≡ E.faults entropy.old) }
        ensures fixed { fixed self.new ≡ fixed self.old };

    /// A piece came on connection `k`.
    fn piece<C: Clock>(&mut self, clock: &mut C, k: u64, piece: Piece) -> Result<(), NoMemory>
        requires position { (1 ≤ k) × (k ≤ length (numbers self.old)) }
        ensures gave { OnOk result (events self.new ≡ events self.old ++ event k (Gave piece.bytes.items) ∷ []) }
        ensures halves { numbers self.new ≡ numbers self.old }
        ensures right { (told drawn now : List ℕ) → ToldSince told drawn (C.told clock.old) now (keeps self.old) → OnOk result (ToldSince told drawn (C.told clock.new) now (keeps self.new)) }
        ensures fixed { fixed self.new ≡ fixed self.old };

    /// Connection `k` is gone. Its half was closed.
    fn gone<C: Clock>(&mut self, clock: &mut C, k: u64) -> Result<(), NoMemory>
        requires position { (1 ≤ k) × (k ≤ length (numbers self.old)) }
        ensures gone { OnOk result (events self.new ≡ events self.old ++ event k Gone ∷ []) }
        ensures halves { numbers self.new ≡ numbers self.old }
        ensures right { (told drawn now : List ℕ) → ToldSince told drawn (C.told clock.old) now (keeps self.old) → OnOk result (ToldSince told drawn (C.told clock.new) now (keeps self.new)) }
        ensures fixed { fixed self.new ≡ fixed self.old };

    /// Closes all halves.
    fn close_all(&mut self)
        ensures halves { numbers self.new ≡ numbers self.old }
        ensures shut { shut self.new };
}
