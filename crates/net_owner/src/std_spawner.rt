//! Spawners over the system's threads.
ghost use Rattle.std.specs.Prelude.{◌≡◌};

use crate::spawner::Spawner;
use base_io::Failed;
use std::thread::Threads;

/// Starts a thread of the system for each job. Each refusal of the system is a fault.
#[derive(Drop)]
pub struct StdSpawner<R> {
    rt: R,
    faults: u64,
    started: u64,
}

impl<R: Threads> StdSpawner<R> {
    /// What starts threads by `rt`.
    pub fn new(rt: R) -> StdSpawner<R>
        ensures faults { ⟦<StdSpawner<R> as Spawner>⟧.faults result ≡ 0 }
        ensures started { ⟦<StdSpawner<R> as Spawner>⟧.started result ≡ 0 }
    {
        StdSpawner {
            rt,
            faults: 0,
            started: 0,
        }
    }
}

impl<R: Threads> Spawner for StdSpawner<R> {
    type Runtime = R;

    ghost faults = { λ s. s.faults };

    ghost started = { λ s. s.started };

    fn runtime(&self) -> &R {
        &self.rt
    }

    fn ask(&mut self) -> Result<(), Failed> {
        Ok(())
    }

    fn count(&mut self) {
        self.faults = self.faults.saturating_add(1);
    }

    fn count_started(&mut self) {
        self.started = self.started.saturating_add(1);
    }
}
