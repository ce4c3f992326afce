//! Random bytes that are known ahead.
ghost use Rattle.std.specs.Prelude.{◌≡◌, ◌↔◌, ◌++◌, IsErr, OnErr, OnOk, Contains};
ghost use Rattle.base_io.specs.Counts.{HasCause};
ghost use Rattle.net_memory.specs.InMemory.{called, new_entropy};

use crate::calls::Calls;
use base_io::{Failed, Numbers};
use base_log::Log;
use net_traits::Entropy;
use std::marker::Model;

/// What gives the same bytes at each call: what was drawn are these, so many times. Chosen calls fail.
#[derive(Drop)]
pub struct MemoryEntropy {
    bytes: [u8; 24],
    calls: Calls,
    faults: u64,
    log: Log,
}

impl Model for MemoryEntropy {
    ghost use Rattle.net_memory.specs.InMemory.{AreRepeated, MemoryEntropyView};

    ghost Value = { MemoryEntropyView };

    ghost view = { λ s. record { bytes = s.bytes; calls = s.calls; faults = s.faults; drawn = s.log.items } };

    ghost invariant = { λ s. AreRepeated s.bytes s.log.items };
}

impl MemoryEntropy {
    /// What gives these bytes. The calls whose numbers, from 1, are in `fails` answer `Failed`.
    #[tactic(auto, using(crate::proofs::Tellings::repeated_none))]
    pub fn new(bytes: [u8; 24], fails: Numbers) -> MemoryEntropy
        ensures { result ≡ new_entropy bytes fails.items }
    {
        MemoryEntropy {
            bytes,
            calls: Calls::new(fails),
            faults: 0,
            log: Log::new(),
        }
    }
}

impl Entropy for MemoryEntropy {
    ghost drawn = { λ s. s.drawn };

    ghost faults = { λ s. s.faults };

    fn fill(&mut self, out: &mut [u8; 24]) -> Result<(), Failed>
        ensures drawn { OnOk result (self.new.drawn ≡ self.old.drawn ++ out.new) }
        ensures none { OnErr result (self.new.drawn ≡ self.old.drawn) }
        ensures bytes { OnOk result (out.new ≡ self.old.bytes) }
        ensures kept { self.new.bytes ≡ self.old.bytes }
        ensures cause { HasCause self.old.faults self.new.faults result }
        ensures chosen { IsErr result ↔ Contains self.old.calls.fails self.new.calls.made }
        ensures calls { self.new.calls ≡ called self.old.calls }
    {
        if self.calls.next_fails() {
            self.faults = self.faults.saturating_add(1);
            return Err(Failed);
        }
        *out = self.bytes;
        self.log.note(out.as_slice());
        Ok(())
    }
}
