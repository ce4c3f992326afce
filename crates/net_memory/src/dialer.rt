//! Dialers in memory.
ghost use Rattle.std.specs.Prelude.{◌≡◌, ◌⊎◌, ◌∷◌, ◌++◌, [], IfOk, IsErr, is_ok, Contains};
ghost use Rattle.net_traits.specs.Links.{IsUnused, counted_if, has_ended, has_failed};
ghost use Rattle.net_traits.specs.Opens.{IsOpenCounted};
ghost use Rattle.net_memory.specs.InMemory.{AreUnused, called, new_dialer};
ghost use Rattle.net_memory.specs.Shelves.{links_of};

use crate::link::{Links, MemoryLink};
use crate::shelf::{Shelf, put};
use crate::supply::Supply;
use base_io::Numbers;
use net_traits::{Dialer, OpenFault};
use std::marker::Model;

/// A dialer that hands out links of a list, in order. Chosen calls fail, and so does a `dial` past the last link.
#[derive(Drop)]
pub struct MemoryDialer {
    supply: Supply,
    given: Shelf,
    faults: u64,
    ends: u64,
    handed: u64,
}

impl Model for MemoryDialer {
    ghost use Rattle.net_memory.specs.InMemory.{MemoryDialerView};
    ghost use Rattle.net_memory.specs.Shelves.{links_of};

    ghost Value = { MemoryDialerView };

    ghost view = { λ s. record { supply = s.supply; given = links_of s.given; faults = s.faults; ends = s.ends; handed = s.handed } };
}

impl MemoryDialer {
    /// A dialer that has these links to hand out. The calls of `dial` whose numbers, from 1, are in `fails` answer `Failed` and
    /// hand out nothing.
    pub fn new(links: Links, fails: Numbers) -> MemoryDialer
        requires { AreUnused links.items }
        ensures { result ≡ new_dialer links.items fails.items }
    {
        MemoryDialer {
            supply: Supply::new(links, fails),
            given: Shelf::new(),
            faults: 0,
            ends: 0,
            handed: 0,
        }
    }

    /// The links that were given back.
    pub fn given(&self) -> &Shelf
        ensures { links_of result.now ≡ self.now.given }
    {
        &self.given
    }
}

impl Dialer for MemoryDialer {
    type Link = MemoryLink;

    ghost faults = { λ s. s.faults };

    ghost ends = { λ s. s.ends };

    ghost handed = { λ s. s.handed };

    ghost given = { λ s. s.given };

    fn dial(&mut self, _port: u16) -> Result<MemoryLink, OpenFault>
        ensures unused { IfOk result (λ link. IsUnused link.told) }
        ensures cause { IsOpenCounted self.old.faults self.new.faults result }
        ensures handed { self.new.handed ≡ counted_if (is_ok result) self.old.handed }
        ensures ends { self.new.ends ≡ self.old.ends }
        ensures given { self.new.given ≡ self.old.given }
        ensures next { IfOk result (λ link. self.old.supply.links ≡ link ∷ self.new.supply.links) }
        ensures chosen { IsErr result → Contains self.old.supply.calls.fails self.new.supply.calls.made ⊎ (self.old.supply.links ≡ []) }
        ensures calls { self.new.supply.calls ≡ called self.old.supply.calls }
    {
        match self.supply.next() {
            Some(link) => {
                self.handed = self.handed.saturating_add(1);
                Ok(link)
            }
            None => {
                self.faults = self.faults.saturating_add(1);
                Err(OpenFault::Failed)
            }
        }
    }

    fn give_back(&mut self, link: MemoryLink)
        ensures given { self.new.given ≡ self.old.given ++ link.told ∷ [] }
        ensures faults { self.new.faults ≡ counted_if (has_failed link.told) self.old.faults }
        ensures ends { self.new.ends ≡ counted_if (has_ended link.told) self.old.ends }
        ensures handed { self.new.handed ≡ self.old.handed }
        ensures supply { self.new.supply ≡ self.old.supply }
    {
        if link.has_failed() {
            self.faults = self.faults.saturating_add(1);
        }
        if link.has_ended() {
            self.ends = self.ends.saturating_add(1);
        }
        put(&mut self.given, link.room, link.state);
    }
}
