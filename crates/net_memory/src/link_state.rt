//! What a link in memory has to give, and what was done with it.
ghost use Rattle.std.specs.Prelude.{◌≡◌, ◌<◌, ◌≤◌, ◌↔◌, length, min, Some, None, IfOk, IsErr, Contains};
ghost use Rattle.std.specs.Io.{ReadsAtMost, WritesAtMost};
ghost use Rattle.std.specs.Io.KnownBytes.{ReadConsumes, WriteAppends};
ghost use Rattle.base_io.specs.Counts.{HasCause};
ghost use Rattle.net_traits.specs.Links.{ReadsStay, WritesStay, counted_if, is_end};
ghost use Rattle.net_memory.specs.InMemory.{called, new_link};

use crate::calls::Calls;
use crate::unread::Unread;
use base_io::{Bytes, Failed, Numbers};
use std::alloc::Global;
use std::marker::Model;

/// What a link in memory has to give, and what was done with it.
#[derive(Drop)]
pub struct LinkState {
    unread: Unread,
    taken: Bytes,
    step: usize,
    calls: Calls,
    read_faults: u64,
    write_faults: u64,
    ends: u64,
}

impl Model for LinkState {
    ghost use Rattle.std.specs.Prelude.{◌≤◌, Some};
    ghost use Rattle.net_memory.specs.InMemory.{MemoryLinkView};

    ghost Value = { MemoryLinkView };

    ghost view = { λ s. record {
      told = record { read = Some s.unread.given; written = Some s.taken.items; read_faults = s.read_faults; write_faults = s.write_faults; ends = s.ends };
      left = s.unread.left;
      step = s.step;
      calls = s.calls;
    } };

    ghost invariant = { λ s. 1 ≤ s.step };
}

impl LinkState {
    /// `bytes` are to be given. Nothing is done yet.
    pub(crate) fn new(alloc: Global, bytes: Bytes, step: usize, fails: Numbers) -> LinkState
        requires { 1 ≤ step }
        ensures { result ≡ new_link bytes.items step fails.items }
    {
        LinkState {
            unread: Unread::new(bytes),
            taken: Bytes::new(alloc),
            step,
            calls: Calls::new(fails),
            read_faults: 0,
            write_faults: 0,
            ends: 0,
        }
    }

    /// The bytes that were written to the link, without a copy.
    pub fn written(&self) -> &[u8]
        ensures { Some result.now ≡ self.now.told.written }
    {
        self.taken.as_slice()
    }

    /// The bytes that were read from the link, without a copy.
    pub fn read_so_far(&self) -> &[u8]
        ensures { Some result.now ≡ self.now.told.read }
    {
        self.unread.given()
    }

    /// How many reads failed, how many writes did, and how many reads found the end.
    pub fn counts(&self) -> (u64, u64, u64)
        ensures { result ≡ (self.now.told.read_faults, self.now.told.write_faults, self.now.told.ends) }
    {
        (self.read_faults, self.write_faults, self.ends)
    }

    /// A read of the link: the next bytes, at most `step`. It fails exactly where this call is to fail.
    pub(crate) fn read(&mut self, buf: &mut [u8]) -> Result<usize, Failed>
        ensures bound { ReadsAtMost result buf.new }
        ensures left { ReadConsumes (Some self.old.left) (Some self.new.left) result buf.new }
        ensures read { WriteAppends self.old.told.read self.new.told.read result buf.new }
        ensures silent { self.old.told.read ≡ None → self.new.told.read ≡ None }
        ensures cause { HasCause self.old.told.read_faults self.new.told.read_faults result }
        ensures ends { self.new.told.ends ≡ counted_if (is_end result buf.new) self.old.told.ends }
        ensures writes { WritesStay self.old.told self.new.told }
        ensures most { IfOk result (λ n. n ≤ self.old.step) }
        ensures chosen { IsErr result ↔ Contains self.old.calls.fails self.new.calls.made }
        ensures calls { self.new.calls ≡ called self.old.calls }
        ensures step { self.new.step ≡ self.old.step }
    {
        if self.calls.next_fails() {
            self.read_faults = self.read_faults.saturating_add(1);
            return Err(Failed);
        }
        let n = self.unread.give(self.step, buf);
        if n == 0 && !buf.is_empty() {
            self.ends = self.ends.saturating_add(1);
        }
        Ok(n)
    }

    /// A write to the link: `step` bytes are taken, or all where there are fewer. It fails where this call is to fail, and
    /// where memory for the bytes runs out.
    pub(crate) fn write(&mut self, bytes: &[u8]) -> Result<usize, Failed>
        ensures bound { WritesAtMost result bytes.now }
        ensures written { WriteAppends self.old.told.written self.new.told.written result bytes.now }
        ensures silent { self.old.told.written ≡ None → self.new.told.written ≡ None }
        ensures some { IfOk result (λ n. 0 < length bytes.now → 0 < n) }
        ensures cause { HasCause self.old.told.write_faults self.new.told.write_faults result }
        ensures reads { ReadsStay self.old.told self.new.told }
        ensures left { self.new.left ≡ self.old.left }
        ensures exact { IfOk result (λ n. n ≡ min (length bytes.now) self.old.step) }
        ensures chosen { Contains self.old.calls.fails self.new.calls.made → IsErr result }
        ensures calls { self.new.calls ≡ called self.old.calls }
        ensures step { self.new.step ≡ self.old.step }
    {
        if self.calls.next_fails() {
            self.write_faults = self.write_faults.saturating_add(1);
            return Err(Failed);
        }
        let n = bytes.len().min(self.step);
        match self.taken.append(&bytes[..n]) {
            Ok(()) => Ok(n),
            Err(_) => {
                self.write_faults = self.write_faults.saturating_add(1);
                Err(Failed)
            }
        }
    }
}
