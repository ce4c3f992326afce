//! Which calls of something in memory fail.
ghost use Rattle.std.specs.Prelude.{◌≡◌, ◌↔◌, IsTrue, Contains};
ghost use Rattle.net_memory.specs.InMemory.{called, not_called};

use base_io::Numbers;
use std::marker::Model;

/// The calls made so far, and which of them are to fail. Their number stays at 2^64 - 1 once there.
#[derive(Drop)]
pub(crate) struct Calls {
    made: u64,
    fails: Numbers,
}

impl Model for Calls {
    ghost use Rattle.net_memory.specs.InMemory.{CallsView};

    ghost Value = { CallsView };

    ghost view = { λ s. record { made = s.made; fails = s.fails.items } };
}

impl Calls {
    /// No call was made yet. Those whose numbers, from 1, are in `fails` are to fail.
    pub(crate) fn new(fails: Numbers) -> Calls
        ensures { result ≡ not_called fails.items }
    {
        Calls { made: 0, fails }
    }

    /// Counts a call, and answers whether it is to fail.
    pub(crate) fn next_fails(&mut self) -> bool
        ensures which { IsTrue result ↔ Contains self.old.fails self.new.made }
        ensures counts { self.new ≡ called self.old }
    {
        self.made = self.made.saturating_add(1);
        self.fails.as_slice().contains(&self.made)
    }
}
