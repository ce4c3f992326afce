//! Sources over bytes in memory.
ghost use Rattle.std.specs.Prelude.{◌≡◌, ◌≤◌, ◌↔◌, [], Some, IfOk, IsErr, OnOk, OnErr, Contains};
ghost use Rattle.std.specs.Io.{ReadsAtMost};
ghost use Rattle.std.specs.Io.KnownBytes.{ReadConsumes, WriteAppends};
ghost use Rattle.base_io.specs.Counts.{HasCause};
ghost use Rattle.base_io.specs.InMemory.{not_called, called, failed};

use crate::bytes::Bytes;
use crate::failing_calls::FailingCalls;
use crate::fault::Failed;
use crate::list::Numbers;
use crate::source::Source;
use crate::unread::Unread;
use base_log::Log;
use std::marker::Model;

/// A source over bytes in memory, which tells them. It gives a bounded number of bytes a call, and chosen
/// calls fail: what a reader does with short and failing reads can be tried on it.
#[derive(Drop)]
pub struct MemorySource {
    unread: Unread,
    step: usize,
    failing: FailingCalls,
    log: Log,
}

impl Model for MemorySource {
    ghost use Rattle.std.specs.Prelude.{◌≤◌};
    ghost use Rattle.base_io.specs.InMemory.{MemorySourceView};

    ghost Value = { MemorySourceView };

    ghost view = { λ s. record { given = s.log.items; left = s.unread; step = s.step; failing = s.failing } };

    ghost invariant = { λ s. 1 ≤ s.step };
}

impl MemorySource {
    /// A source that has `bytes` to give, at most `step` of them a call. The calls whose numbers, from 1, are
    /// in `fails` answer `Failed` and give nothing.
    pub fn new(bytes: Bytes, step: usize, fails: Numbers) -> MemorySource
        requires { 1 ≤ step }
        ensures { result ≡ record { given = []; left = bytes.items; step = step; failing = not_called fails.items } }
    {
        MemorySource {
            unread: Unread::new(bytes),
            step,
            failing: FailingCalls::new(fails),
            log: Log::new(),
        }
    }
}

impl Source for MemorySource {
    ghost given = { λ s. s.given };

    ghost left = { λ s. Some s.left };

    ghost faults = { λ s. s.failing.faults };

    fn read(&mut self, buf: &mut [u8]) -> Result<usize, Failed>
        ensures bound { ReadsAtMost result buf.new }
        ensures given { WriteAppends (Some self.old.given) (Some self.new.given) result buf.new }
        ensures bytes { ReadConsumes (Some self.old.left) (Some self.new.left) result buf.new }
        ensures cause { HasCause self.old.failing.faults self.new.failing.faults result }
        ensures most { IfOk result (λ n. n ≤ self.old.step) }
        ensures ok { OnOk result (self.new.failing ≡ called self.old.failing) }
        ensures err { OnErr result (self.new.failing ≡ failed (called self.old.failing)) }
        ensures chosen { IsErr result ↔ Contains self.old.failing.fails self.new.failing.calls }
        ensures step { self.new.step ≡ self.old.step }
    {
        if self.failing.next_fails() {
            return Err(Failed);
        }
        let n = self.unread.give(self.step, buf);
        self.log.note(&buf[..n]);
        Ok(n)
    }
}

/// A source over bytes in memory, which tells them. No call fails.
#[derive(Drop)]
pub struct SureSource {
    unread: Unread,
    log: Log,
}

impl SureSource {
    /// A source that has `bytes` to give.
    pub fn new(bytes: Bytes) -> SureSource
        ensures given { ⟦<SureSource as Source>⟧.given result ≡ [] }
        ensures left { ⟦<SureSource as Source>⟧.left result ≡ Some bytes.items }
        ensures faults { ⟦<SureSource as Source>⟧.faults result ≡ 0 }
    {
        SureSource {
            unread: Unread::new(bytes),
            log: Log::new(),
        }
    }
}

impl Source for SureSource {
    ghost given = { λ s. s.log.items };

    ghost left = { λ s. Some s.unread };

    ghost faults = { λ _. 0 };

    fn read(&mut self, buf: &mut [u8]) -> Result<usize, Failed> {
        let n = self.unread.give(usize::MAX, buf);
        self.log.note(&buf[..n]);
        Ok(n)
    }
}
