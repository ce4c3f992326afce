//! The system's random bytes.
ghost use Rattle.std.specs.Prelude.{◌≡◌, []};

use base_io::Failed;
use base_log::Log;
use net_traits::Entropy;
use std::random::RandomSource;

/// The system's random bytes. It tells those that it gave. Each error of the system is a fault.
#[derive(Drop)]
pub struct SystemEntropy<'a, R> {
    source: &'a R,
    faults: u64,
    log: Log,
}

impl<'a, R: RandomSource> SystemEntropy<'a, R> {
    /// What draws from the system. Nothing was drawn yet.
    pub fn new(source: &'a R) -> SystemEntropy<'a, R>
        ensures drawn { ⟦<SystemEntropy<'a, R> as Entropy>⟧.drawn result ≡ [] }
        ensures faults { ⟦<SystemEntropy<'a, R> as Entropy>⟧.faults result ≡ 0 }
    {
        SystemEntropy {
            source,
            faults: 0,
            log: Log::new(),
        }
    }
}

impl<'a, R: RandomSource> Entropy for SystemEntropy<'a, R> {
    ghost drawn = { λ s. s.log.items };

    ghost faults = { λ s. s.faults };

    fn fill(&mut self, out: &mut [u8; 24]) -> Result<(), Failed> {
        match self.source.fill_bytes(out.as_mut_slice()) {
            Ok(()) => {
                self.log.note(out.as_slice());
                Ok(())
            }
            Err(_) => {
                self.faults = self.faults.saturating_add(1);
                Err(Failed)
            }
        }
    }
}
