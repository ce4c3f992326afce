//! The half of a connection on which a server's bytes go out.
ghost use Rattle.std.specs.Prelude.{◌≡◌, ◌++◌, ℕ, List, [], false, true};
ghost use Rattle.net_writers.specs.Sent.{HasSent, IsUnwritten};

use net_traits::{Outgoing, write_whole};

/// A half to which nothing more is written once a write of it failed.
#[derive(Drop)]
pub struct Sender<O> {
    pub half: O,
    pub broken: bool,
}

impl<O: Outgoing> Sender<O> {
    /// A half to which no write failed yet.
    pub fn new(half: O) -> Sender<O>
        ensures half { result.half ≡ half }
        ensures sent { IsUnwritten (O.told half) → HasSent [] result.broken (O.told result.half) }
    {
        Sender {
            half,
            broken: false,
        }
    }

    /// Writes bytes, unless a write failed before. A write that fails ends the link.
    pub fn put(&mut self, bytes: &[u8])
        ensures number { (O.told self.new.half).number ≡ (O.told self.old.half).number }
        ensures sent { (before : List ℕ) → HasSent before self.old.broken (O.told self.old.half) → HasSent (before ++ bytes.now) self.new.broken (O.told self.new.half) }
        ensures closed { O.closed self.old.half ≡ true → O.closed self.new.half ≡ true }
        ensures ended { self.old.broken ≡ false → self.new.broken ≡ true → O.closed self.new.half ≡ true }
    {
        if self.broken {
            return;
        }
        match write_whole(&mut self.half, bytes) {
            Ok(()) => {}
            Err(_) => {
                self.broken = true;
                // The reader ends too, and the session can be resumed.
                self.half.close();
            }
        }
    }

    /// Ends the link.
    pub fn close(&mut self)
        ensures told { O.told self.new.half ≡ O.told self.old.half }
        ensures broken { self.new.broken ≡ self.old.broken }
        ensures closed { O.closed self.new.half ≡ true }
    {
        self.half.close();
    }
}
