//! Clocks in memory.
ghost use Rattle.std.specs.Prelude.{◌≡◌, ◌≤◌, [], ◌∷◌, ◌++◌};
ghost use Rattle.net_memory.specs.InMemory.{new_clock};

use base_log::Log;
use net_traits::{Clock, LAST_MOMENT_TOLD};
use std::marker::Model;

/// A clock that stands still: each moment that it answered is its own.
#[derive(Drop)]
pub struct MemoryClock {
    moment: u64,
    log: Log,
}

impl Model for MemoryClock {
    ghost use Rattle.net_memory.specs.InMemory.{IsStill, MemoryClockView};

    ghost Value = { MemoryClockView };

    ghost view = { λ s. record { moment = s.moment; told = s.log.items } };

    ghost invariant = { λ s. IsStill s.moment s.log.items };
}

impl MemoryClock {
    /// A clock that answers this moment, in milliseconds since 1970. It has answered nothing yet.
    #[tactic(auto, using(crate::proofs::Tellings::still_none))]
    pub fn new(moment: u64) -> MemoryClock
        requires { moment ≤ LAST_MOMENT_TOLD }
        ensures { result ≡ new_clock moment }
    {
        MemoryClock {
            moment,
            log: Log::new(),
        }
    }
}

impl Clock for MemoryClock {
    ghost told = { λ s. s.told };

    #[tactic(auto, using(crate::proofs::Tellings::still_more))]
    fn now_ms(&mut self) -> u64
        ensures told { self.new.told ≡ self.old.told ++ result ∷ [] }
        ensures last { result ≤ LAST_MOMENT_TOLD }
        ensures moment { result ≡ self.old.moment }
        ensures kept { self.new.moment ≡ self.old.moment }
    {
        self.log.note_number(self.moment);
        self.moment
    }
}
