//! Links in memory.
ghost use Rattle.std.specs.Prelude.{◌≡◌, ◌<◌, ◌≤◌, ◌↔◌, length, min, Some, None, IfOk, IsErr, Contains};
ghost use Rattle.std.specs.Io.{ReadsAtMost, WritesAtMost};
ghost use Rattle.std.specs.Io.KnownBytes.{ReadConsumes, WriteAppends};
ghost use Rattle.base_io.specs.Counts.{HasCause};
ghost use Rattle.net_traits.specs.Links.{ReadsStay, WritesStay, counted_if, has_ended, has_failed, is_end};
ghost use Rattle.net_memory.specs.InMemory.{called, new_link};

use crate::link_state::LinkState;
use crate::shelf::Shelf;
use base_io::{Bytes, Failed, ListOf, NoMemory, Numbers};
use net_traits::Link;
use std::alloc::Global;
use std::marker::Model;

/// A link over bytes in memory, which tells what is read and written. It gives and takes a bounded number of bytes a call,
/// and chosen calls fail. It has room with it for when it is given back.
#[derive(Drop)]
pub struct MemoryLink {
    pub(crate) state: LinkState,
    pub(crate) room: Box<Shelf>,
}

/// Links, in order.
pub type Links = ListOf<MemoryLink>;

impl Model for MemoryLink {
    ghost use Rattle.net_memory.specs.InMemory.{MemoryLinkView};

    ghost Value = { MemoryLinkView };

    ghost view = { λ s. s.state };
}

impl MemoryLink {
    /// A link that has `bytes` to give, at most `step` of them a call, and takes at most `step` a call. The calls whose
    /// numbers, from 1, are in `fails` answer `Failed`, and give and take nothing; reads and writes are numbered together.
    /// A write that finds no memory for its bytes fails too.
    pub fn new(
        alloc: Global,
        bytes: Bytes,
        step: usize,
        fails: Numbers,
    ) -> Result<MemoryLink, NoMemory>
        requires { 1 ≤ step }
        ensures { IfOk result (λ link. link ≡ new_link bytes.items step fails.items) }
    {
        let room = Box::new(alloc, Shelf::new())?;
        Ok(MemoryLink {
            state: LinkState::new(alloc, bytes, step, fails),
            room,
        })
    }

    // Whether a read or a write failed.
    pub(crate) fn has_failed(&self) -> bool
        ensures { result ≡ has_failed self.now.told }
    {
        let (reads, writes, _) = self.state.counts();
        reads != 0 || writes != 0
    }

    // Whether the end was found.
    pub(crate) fn has_ended(&self) -> bool
        ensures { result ≡ has_ended self.now.told }
    {
        self.state.counts().2 != 0
    }
}

impl Link for MemoryLink {
    ghost told = { λ s. s.told };

    ghost left = { λ s. Some s.left };

    fn read(&mut self, buf: &mut [u8]) -> Result<usize, Failed>
        ensures bound { ReadsAtMost result buf.new }
        ensures left { ReadConsumes (Some self.old.left) (Some self.new.left) result buf.new }
        ensures read { WriteAppends self.old.told.read self.new.told.read result buf.new }
        ensures silent { self.old.told.read ≡ None → self.new.told.read ≡ None }
        ensures cause { HasCause self.old.told.read_faults self.new.told.read_faults result }
        ensures ends { self.new.told.ends ≡ counted_if (is_end result buf.new) self.old.told.ends }
        ensures writes { WritesStay self.old.told self.new.told }
        ensures most { IfOk result (λ n. n ≤ self.old.step) }
        ensures chosen { IsErr result ↔ Contains self.old.calls.fails self.new.calls.made }
        ensures calls { self.new.calls ≡ called self.old.calls }
        ensures step { self.new.step ≡ self.old.step }
    {
        self.state.read(buf)
    }

    fn write(&mut self, bytes: &[u8]) -> Result<usize, Failed>
        ensures bound { WritesAtMost result bytes.now }
        ensures written { WriteAppends self.old.told.written self.new.told.written result bytes.now }
        ensures silent { self.old.told.written ≡ None → self.new.told.written ≡ None }
        ensures some { IfOk result (λ n. 0 < length bytes.now → 0 < n) }
        ensures cause { HasCause self.old.told.write_faults self.new.told.write_faults result }
        ensures reads { ReadsStay self.old.told self.new.told }
        ensures left { self.new.left ≡ self.old.left }
        ensures exact { IfOk result (λ n. n ≡ min (length bytes.now) self.old.step) }
        ensures chosen { Contains self.old.calls.fails self.new.calls.made → IsErr result }
        ensures calls { self.new.calls ≡ called self.old.calls }
        ensures step { self.new.step ≡ self.old.step }
    {
        self.state.write(bytes)
    }

    fn close(&mut self) {}
}
