//! Sinks in memory.
ghost use Rattle.std.specs.Prelude.{◌≡◌, ◌<◌, ◌≤◌, [], length, min, None, Some, IfOk, IsErr, OnOk, OnErr, Contains};
ghost use Rattle.std.specs.Io.{WritesAtMost};
ghost use Rattle.std.specs.Io.KnownBytes.{WriteAppends};
ghost use Rattle.base_io.specs.Counts.{HasCause};
ghost use Rattle.base_io.specs.InMemory.{not_called, called, failed};

use crate::bytes::Bytes;
use crate::failing_calls::FailingCalls;
use crate::fault::Failed;
use crate::list::Numbers;
use crate::sink::Sink;
use std::alloc::Global;
use std::marker::Model;

/// A sink that keeps what it takes in memory, and tells it. It takes a bounded number of bytes a call, and
/// chosen calls fail: what a writer does with short and failing writes can be tried on it.
#[derive(Drop)]
pub struct MemorySink {
    kept: Bytes,
    step: usize,
    failing: FailingCalls,
}

impl Model for MemorySink {
    ghost use Rattle.std.specs.Prelude.{◌≤◌};
    ghost use Rattle.base_io.specs.InMemory.{MemorySinkView};

    ghost Value = { MemorySinkView };

    ghost view = { λ s. record { written = s.kept.items; step = s.step; failing = s.failing } };

    ghost invariant = { λ s. 1 ≤ s.step };
}

impl MemorySink {
    /// A sink that took nothing yet, and takes at most `step` bytes a call. The calls whose numbers, from 1,
    /// are in `fails` answer `Failed` and take nothing, and so does a call that finds no memory for its
    /// bytes.
    pub fn new(alloc: Global, step: usize, fails: Numbers) -> MemorySink
        requires { 1 ≤ step }
        ensures { result ≡ record { written = []; step = step; failing = not_called fails.items } }
    {
        MemorySink {
            kept: Bytes::new(alloc),
            step,
            failing: FailingCalls::new(fails),
        }
    }

    /// The bytes that it took so far, without a copy.
    pub fn written(&self) -> &[u8]
        ensures { result.now ≡ self.now.written }
    {
        self.kept.as_slice()
    }
}

impl Sink for MemorySink {
    ghost written = { λ s. Some s.written };

    ghost faults = { λ s. s.failing.faults };

    fn write(&mut self, bytes: &[u8]) -> Result<usize, Failed>
        ensures bound { WritesAtMost result bytes.now }
        ensures bytes { WriteAppends (Some self.old.written) (Some self.new.written) result bytes.now }
        ensures some { IfOk result (λ n. 0 < length bytes.now → 0 < n) }
        ensures cause { HasCause self.old.failing.faults self.new.failing.faults result }
        ensures exact { IfOk result (λ n. n ≡ min (length bytes.now) self.old.step) }
        ensures ok { OnOk result (self.new.failing ≡ called self.old.failing) }
        ensures err { OnErr result (self.new.failing ≡ failed (called self.old.failing)) }
        ensures chosen { Contains self.old.failing.fails self.new.failing.calls → IsErr result }
        ensures step { self.new.step ≡ self.old.step }
    {
        if self.failing.next_fails() {
            return Err(Failed);
        }
        let n = bytes.len().min(self.step);
        match self.kept.append(&bytes[..n]) {
            Ok(()) => Ok(n),
            Err(_) => {
                self.failing.count_fault();
                Err(Failed)
            }
        }
    }
}

/// A sink that takes all that it is given. It keeps nothing and tells nothing, and no call fails.
#[derive(Clone, Copy, Debug, Default)]
pub struct SureSink;

impl SureSink {
    /// The sink.
    pub fn new() -> SureSink
        ensures written { ⟦<SureSink as Sink>⟧.written result ≡ None }
        ensures faults { ⟦<SureSink as Sink>⟧.faults result ≡ 0 }
    {
        SureSink
    }
}

impl Sink for SureSink {
    ghost written = { λ _. None };

    ghost faults = { λ _. 0 };

    fn write(&mut self, bytes: &[u8]) -> Result<usize, Failed> {
        Ok(bytes.len())
    }
}
