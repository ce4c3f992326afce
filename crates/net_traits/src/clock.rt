//! Clocks.
ghost use Rattle.std.specs.Prelude.{List, ℕ, ◌≡◌, ◌≤◌, [], ◌∷◌, ◌++◌};

/// The last moment that a clock answers, in milliseconds since 1970: a stamp has four digits for the year (XEP-0082,
/// section 3.2).
pub const LAST_MOMENT_TOLD: u64 = 253_402_207_200_000;

/// A clock. Contracts alone see `told`, the moments that it answered so far, in order.
pub trait Clock {
    ghost told: { Self → List ℕ };

    /// The moment, in milliseconds since 1970.
    fn now_ms(&mut self) -> u64
        ensures told { told self.new ≡ told self.old ++ result ∷ [] }
        ensures last { result ≤ LAST_MOMENT_TOLD };
}
