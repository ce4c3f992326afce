//! Which calls of a source or a sink in memory fail.
//!
//! Source and sink in memory count each call once, by clauses, and keep `step` and `fails`: what fails when is a
//! test's to choose.
ghost use Rattle.std.specs.Prelude.{◌≡◌, ◌≤◌, ◌↔◌, IsTrue, Contains, if◌then◌else◌};
ghost use Rattle.base_io.specs.InMemory.{not_called, called, failed};

use crate::list::Numbers;
use std::marker::Model;

/// The calls made so far, which of them are to fail, and how many did. Both counts stay at 2^64 - 1 once there.
#[derive(Drop)]
pub(crate) struct FailingCalls {
    calls: u64,
    fails: Numbers,
    faults: u64,
}

impl Model for FailingCalls {
    ghost use Rattle.base_io.specs.InMemory.{FailingCallsView};

    ghost Value = { FailingCallsView };

    ghost view = { λ s. record { calls = s.calls; fails = s.fails.items; faults = s.faults } };
}

impl FailingCalls {
    /// No call was made yet. Those whose numbers, from 1, are in `fails` are to fail.
    pub(crate) fn new(fails: Numbers) -> FailingCalls
        ensures { result ≡ not_called fails.items }
    {
        FailingCalls {
            calls: 0,
            fails,
            faults: 0,
        }
    }

    /// Counts a call, and answers whether it fails. If so, it is counted as a fault too.
    pub(crate) fn next_fails(&mut self) -> bool
        ensures which { IsTrue result ↔ Contains self.old.fails self.new.calls }
        ensures later { self.old.faults ≤ self.new.faults }
        ensures counts { self.new ≡ (if result then failed (called self.old) else called self.old) }
    {
        self.calls = self.calls.saturating_add(1);
        let fails = self.fails.as_slice().contains(&self.calls);
        if fails {
            self.count_fault();
        }
        fails
    }

    /// Counts a fault.
    pub(crate) fn count_fault(&mut self)
        ensures later { self.old.faults ≤ self.new.faults }
        ensures faults { self.new ≡ failed self.old }
    {
        self.faults = self.faults.saturating_add(1);
    }
}
