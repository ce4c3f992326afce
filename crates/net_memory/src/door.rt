//! Doors in memory.
ghost use Rattle.std.specs.Prelude.{◌≡◌, ◌↔◌, ◌⊎◌, ◌∷◌, ◌++◌, [], IfOk, IsErr, is_ok, Contains};
ghost use Rattle.net_traits.specs.Links.{IsUnused, counted_if};
ghost use Rattle.net_traits.specs.Opens.{IsOpenCounted};
ghost use Rattle.net_memory.specs.InMemory.{AreUnused, called, new_door};
ghost use Rattle.net_memory.specs.Shelves.{links_of};

use crate::link::{Links, MemoryLink};
use crate::shelf::{Shelf, put};
use crate::supply::Supply;
use base_io::Numbers;
use net_traits::{Door, OpenFault};
use std::marker::Model;

/// A door that hands out links of a list, in order. Chosen calls fail, and so does an `accept` past the last link.
#[derive(Drop)]
pub struct MemoryDoor {
    supply: Supply,
    given: Shelf,
    faults: u64,
    handed: u64,
}

impl Model for MemoryDoor {
    ghost use Rattle.net_memory.specs.InMemory.{MemoryDoorView};
    ghost use Rattle.net_memory.specs.Shelves.{links_of};

    ghost Value = { MemoryDoorView };

    ghost view = { λ s. record { supply = s.supply; given = links_of s.given; faults = s.faults; handed = s.handed } };
}

impl MemoryDoor {
    /// A door that has these links to hand out. The calls of `listen` and `accept` whose numbers, from 1, are in `fails`
    /// answer `Failed` and hand out nothing.
    pub fn new(links: Links, fails: Numbers) -> MemoryDoor
        requires { AreUnused links.items }
        ensures { result ≡ new_door links.items fails.items }
    {
        MemoryDoor {
            supply: Supply::new(links, fails),
            given: Shelf::new(),
            faults: 0,
            handed: 0,
        }
    }

    /// The links that were given back.
    pub fn given(&self) -> &Shelf
        ensures { links_of result.now ≡ self.now.given }
    {
        &self.given
    }
}

impl Door for MemoryDoor {
    type Link = MemoryLink;

    ghost faults = { λ s. s.faults };

    ghost handed = { λ s. s.handed };

    ghost given = { λ s. s.given };

    fn listen(&mut self, _port: u16) -> Result<(), OpenFault>
        ensures cause { IsOpenCounted self.old.faults self.new.faults result }
        ensures handed { self.new.handed ≡ self.old.handed }
        ensures given { self.new.given ≡ self.old.given }
        ensures chosen { IsErr result ↔ Contains self.old.supply.calls.fails self.new.supply.calls.made }
        ensures calls { self.new.supply.calls ≡ called self.old.supply.calls }
        ensures links { self.new.supply.links ≡ self.old.supply.links }
    {
        if self.supply.next_fails() {
            self.faults = self.faults.saturating_add(1);
            return Err(OpenFault::Failed);
        }
        Ok(())
    }

    fn accept(&mut self) -> Result<MemoryLink, OpenFault>
        ensures unused { IfOk result (λ link. IsUnused link.told) }
        ensures cause { IsOpenCounted self.old.faults self.new.faults result }
        ensures handed { self.new.handed ≡ counted_if (is_ok result) self.old.handed }
        ensures given { self.new.given ≡ self.old.given }
        ensures next { IfOk result (λ link. self.old.supply.links ≡ link ∷ self.new.supply.links) }
        ensures chosen { IsErr result → Contains self.old.supply.calls.fails self.new.supply.calls.made ⊎ (self.old.supply.links ≡ []) }
        ensures calls { self.new.supply.calls ≡ called self.old.supply.calls }
    {
        match self.supply.next() {
            Some(link) => {
                self.handed = self.handed.saturating_add(1);
                Ok(link)
            }
            None => {
                self.faults = self.faults.saturating_add(1);
                Err(OpenFault::Failed)
            }
        }
    }

    fn give_back(&mut self, link: MemoryLink)
        ensures given { self.new.given ≡ self.old.given ++ link.told ∷ [] }
        ensures faults { self.new.faults ≡ self.old.faults }
        ensures handed { self.new.handed ≡ self.old.handed }
        ensures supply { self.new.supply ≡ self.old.supply }
    {
        put(&mut self.given, link.room, link.state);
    }
}
