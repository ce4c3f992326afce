//! Doors in memory that hand out links in halves.
ghost use Rattle.std.specs.Prelude.{◌≡◌, [], false, IfNone, IfOk, IfSome, is_ok};
ghost use Rattle.net_memory.specs.Backs.{links_back};
ghost use Rattle.net_traits.specs.Links.{counted_if};
ghost use Rattle.net_traits.specs.Opens.{IsOpenCounted};

use crate::uncut::Uncut;
use base_io::{Failed, NoMemory, Numbers};
use net_traits::{
    Door, GivenBack, Halves, Incoming, JoinedLink, OpenFault, Outgoing, Pair, put_back,
};
use std::alloc::Global;
use std::collections::VecDeque;

/// A half that gives bytes, with room for when its link is given back.
#[derive(Drop)]
pub struct RoomedHalf<I, O> {
    half: I,
    room: Box<GivenBack<(I, O)>>,
}

impl<I: Incoming, O> Incoming for RoomedHalf<I, O> {
    ghost told = { λ s. I.told s.half };

    fn read(&mut self, buf: &mut [u8]) -> Result<usize, Failed> {
        self.half.read(buf)
    }
}

/// A door that hands out the links of a list, in order. Chosen calls fail, and so does an accept past the last link.
#[derive(Drop)]
pub struct MemoryHalvesDoor<U: Uncut + Drop> {
    alloc: Global,
    uncut: VecDeque<U>,
    made: u64,
    fails: Numbers,
    given: GivenBack<(U::Incoming, U::Outgoing)>,
    faults: u64,
    handed: u64,
}

impl<U: Uncut + Drop> MemoryHalvesDoor<U> {
    /// A door that has these links to hand out. The calls of `listen`, `accept` and `accept_halves` whose numbers, from 1, are
    /// in `fails` answer `Failed` and hand out nothing.
    pub fn new(alloc: Global, uncut: Vec<U>, fails: Numbers) -> MemoryHalvesDoor<U>
        ensures given { ⟦<MemoryHalvesDoor<U> as Door>⟧.given result ≡ [] }
        ensures faults { ⟦<MemoryHalvesDoor<U> as Door>⟧.faults result ≡ 0 }
        ensures handed { ⟦<MemoryHalvesDoor<U> as Door>⟧.handed result ≡ 0 }
    {
        MemoryHalvesDoor {
            alloc,
            uncut: VecDeque::from_vec(uncut),
            made: 0,
            fails,
            given: GivenBack::new(),
            faults: 0,
            handed: 0,
        }
    }

    /// The halves of the links that were given back.
    pub fn given(&self) -> &GivenBack<(U::Incoming, U::Outgoing)> {
        &self.given
    }

    // Counts a call, and answers whether it is to fail.
    fn next_fails(&mut self) -> bool
        ensures given { self.new.given ≡ self.old.given }
        ensures faults { self.new.faults ≡ self.old.faults }
        ensures handed { self.new.handed ≡ self.old.handed }
    {
        self.made = self.made.saturating_add(1);
        self.fails.as_slice().contains(&self.made)
    }

    // The halves of the next link. There are none past the last.
    fn next(
        &mut self,
        number: u64,
    ) -> Result<Option<Pair<RoomedHalf<U::Incoming, U::Outgoing>, U::Outgoing>>, NoMemory>
        ensures number { IfOk result (λ next. IfSome next (λ pair. (U.Incoming.told pair.incoming.half).number ≡ number)) }
        ensures open { IfOk result (λ next. IfSome next (λ pair. U.Outgoing.closed pair.outgoing ≡ false)) }
        ensures last { IfOk result (λ next. IfNone next (self.old.uncut.items ≡ [])) }
        ensures given { self.new.given ≡ self.old.given }
        ensures faults { self.new.faults ≡ self.old.faults }
        ensures handed { self.new.handed ≡ self.old.handed }
    {
        let room = Box::new(self.alloc, GivenBack::new())?;
        match self.uncut.pop_front() {
            Some(uncut) => {
                let (half, outgoing) = uncut.cut(self.alloc, number)?.apart();
                let incoming = RoomedHalf { half, room };
                Ok(Some(Pair::new(incoming, outgoing)))
            }
            None => Ok(None),
        }
    }

    // Hands out the next link.
    fn hand_out(
        &mut self,
    ) -> Result<Pair<RoomedHalf<U::Incoming, U::Outgoing>, U::Outgoing>, OpenFault>
        ensures number { IfOk result (λ pair. (U.Incoming.told pair.incoming.half).number ≡ self.new.handed) }
        ensures open { IfOk result (λ pair. U.Outgoing.closed pair.outgoing ≡ false) }
        ensures cause { IsOpenCounted self.old.faults self.new.faults result }
        ensures handed { self.new.handed ≡ counted_if (is_ok result) self.old.handed }
        ensures given { self.new.given ≡ self.old.given }
    {
        if self.next_fails() {
            self.faults = self.faults.saturating_add(1);
            return Err(OpenFault::Failed);
        }
        let number = self.handed.saturating_add(1);
        match self.next(number) {
            Ok(Some(pair)) => {
                self.handed = number;
                Ok(pair)
            }
            Ok(None) => {
                self.faults = self.faults.saturating_add(1);
                Err(OpenFault::Failed)
            }
            Err(NoMemory) => Err(OpenFault::NoMemory),
        }
    }
}

impl<U: Uncut + Drop> Door for MemoryHalvesDoor<U> {
    type Link = JoinedLink<RoomedHalf<U::Incoming, U::Outgoing>, U::Outgoing>;

    ghost faults = { λ s. s.faults };

    ghost handed = { λ s. s.handed };

    ghost given = { λ s. links_back U.Incoming.told U.Outgoing.told s.given };

    fn listen(&mut self, _port: u16) -> Result<(), OpenFault> {
        if self.next_fails() {
            self.faults = self.faults.saturating_add(1);
            return Err(OpenFault::Failed);
        }
        Ok(())
    }

    fn accept(
        &mut self,
    ) -> Result<JoinedLink<RoomedHalf<U::Incoming, U::Outgoing>, U::Outgoing>, OpenFault> {
        match self.hand_out() {
            Ok(pair) => Ok(JoinedLink::new(pair)),
            Err(fault) => Err(fault),
        }
    }

    fn give_back(&mut self, link: JoinedLink<RoomedHalf<U::Incoming, U::Outgoing>, U::Outgoing>) {
        let (incoming, outgoing) = link.apart();
        let RoomedHalf { half, room } = incoming;
        put_back(&mut self.given, room, (half, outgoing));
    }
}

impl<U: Uncut + Drop> Halves for MemoryHalvesDoor<U> {
    type Incoming = RoomedHalf<U::Incoming, U::Outgoing>;

    type Outgoing = U::Outgoing;

    fn accept_halves(
        &mut self,
    ) -> Result<Pair<RoomedHalf<U::Incoming, U::Outgoing>, U::Outgoing>, OpenFault> {
        self.hand_out()
    }

    fn give_back_halves(
        &mut self,
        incoming: RoomedHalf<U::Incoming, U::Outgoing>,
        outgoing: U::Outgoing,
    ) {
        let RoomedHalf { half, room } = incoming;
        put_back(&mut self.given, room, (half, outgoing));
    }
}
