//! Links that are to be handed out.
ghost use Rattle.std.specs.Prelude.{◌≡◌, ◌↔◌, ◌⊎◌, ◌∷◌, [], IsTrue, Contains, MatchOption};
ghost use Rattle.net_traits.specs.Links.{IsUnused};
ghost use Rattle.net_memory.specs.InMemory.{AreUnused, called, new_supply};

use crate::calls::Calls;
use crate::link::{Links, MemoryLink};
use base_io::Numbers;
use std::collections::VecDeque;
use std::marker::Model;

/// Links that are to be handed out in order, on which nothing was read or written, and which calls fail.
#[derive(Drop)]
pub(crate) struct Supply {
    links: VecDeque<MemoryLink>,
    calls: Calls,
}

impl Model for Supply {
    ghost use Rattle.net_memory.specs.InMemory.{AreUnused, SupplyView};

    ghost Value = { SupplyView };

    ghost view = { λ s. record { links = s.links.items; calls = s.calls } };

    ghost invariant = { λ s. AreUnused s.links.items };
}

impl Supply {
    /// Nothing is handed out yet.
    pub(crate) fn new(links: Links, fails: Numbers) -> Supply
        requires { AreUnused links.items }
        ensures { result ≡ new_supply links.items fails.items }
    {
        Supply {
            links: VecDeque::from_vec(links.into_items()),
            calls: Calls::new(fails),
        }
    }

    /// Counts a call, and answers whether it is to fail.
    pub(crate) fn next_fails(&mut self) -> bool
        ensures which { IsTrue result ↔ Contains self.old.calls.fails self.new.calls.made }
        ensures counts { self.new ≡ record { links = self.old.links; calls = called self.old.calls } }
    {
        self.calls.next_fails()
    }

    /// Counts a call, and answers the next link. There is none where the call is to fail, and where none is left.
    #[tactic(auto, using(crate::proofs::Supplies::first_unused))]
    pub(crate) fn next(&mut self) -> Option<MemoryLink>
        ensures next { MatchOption result (Contains self.old.calls.fails self.new.calls.made ⊎ (self.old.links ≡ [])) (λ link. (self.old.links ≡ link ∷ self.new.links) × IsUnused link.told) }
        ensures calls { self.new.calls ≡ called self.old.calls }
    {
        if self.calls.next_fails() {
            return None;
        }
        self.links.pop_front()
    }
}
