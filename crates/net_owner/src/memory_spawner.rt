//! Spawners of which chosen calls fail.
ghost use Rattle.std.specs.Prelude.{◌≡◌, ◌≤◌, ◌↔◌, IsErr, Contains};
ghost use Rattle.base_io.specs.Counts.{HasCause, Rose, counted};
ghost use Rattle.net_owner.specs.Starts.{new_starts};

use crate::spawner::Spawner;
use base_io::{Failed, Numbers};
use std::marker::Model;
use std::thread::Threads;

/// Starts a thread of the system for each job. Chosen calls fail, and so does each that the system refuses.
#[derive(Drop)]
pub struct MemorySpawner<R> {
    rt: R,
    made: u64,
    fails: Numbers,
    faults: u64,
    started: u64,
}

impl<R> Model for MemorySpawner<R> {
    ghost use Rattle.net_owner.specs.Starts.{StartsView};

    ghost Value = { StartsView };

    ghost view = { λ s. record { made = s.made; fails = s.fails.items; faults = s.faults; started = s.started } };
}

impl<R: Threads> MemorySpawner<R> {
    /// What starts threads by `rt`. The calls of `start` whose numbers, from 1, are in `fails` answer `Failed`.
    pub fn new(rt: R, fails: Numbers) -> MemorySpawner<R>
        ensures { result ≡ new_starts fails.items }
    {
        MemorySpawner {
            rt,
            made: 0,
            fails,
            faults: 0,
            started: 0,
        }
    }
}

impl<R: Threads> Spawner for MemorySpawner<R> {
    type Runtime = R;

    ghost faults = { λ s. s.faults };

    ghost started = { λ s. s.started };

    fn runtime(&self) -> &R {
        &self.rt
    }

    fn ask(&mut self) -> Result<(), Failed>
        ensures cause { HasCause self.old.faults self.new.faults result }
        ensures made { self.new.made ≡ counted self.old.made }
        ensures fails { self.new.fails ≡ self.old.fails }
        ensures started { self.new.started ≡ self.old.started }
        ensures chosen { IsErr result ↔ Contains self.old.fails self.new.made }
    {
        self.made = self.made.saturating_add(1);
        if self.fails.as_slice().contains(&self.made) {
            self.faults = self.faults.saturating_add(1);
            return Err(Failed);
        }
        Ok(())
    }

    fn count(&mut self)
        ensures rose { Rose self.old.faults self.new.faults }
        ensures later { self.old.faults ≤ self.new.faults }
        ensures started { self.new.started ≡ self.old.started }
        ensures made { self.new.made ≡ self.old.made }
        ensures fails { self.new.fails ≡ self.old.fails }
    {
        self.faults = self.faults.saturating_add(1);
    }

    fn count_started(&mut self)
        ensures started { self.new.started ≡ counted self.old.started }
        ensures faults { self.new.faults ≡ self.old.faults }
        ensures made { self.new.made ≡ self.old.made }
        ensures fails { self.new.fails ≡ self.old.fails }
    {
        self.started = self.started.saturating_add(1);
    }
}
