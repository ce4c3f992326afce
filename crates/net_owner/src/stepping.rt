//! How the owner goes on from item to item.
ghost use Rattle.std.specs.Prelude.{◌≡◌, ◌≤◌, ◌<◌, ◌+◌, ◌++◌, ◌∷◌, [], true, false, length, vec_len, ℕ, Bool, List, None, IfOk, MatchOption, OnOk};
ghost use Rattle.std.specs.Vec.{vec_capacity};
ghost use Rattle.crossbeam_channel.specs.Claims.{IsSeatAt, view};
ghost use Rattle.crossbeam_channel.specs.Ends.{sends_on};
ghost use Rattle.net_traits.specs.Halves.{IsUnusedPair};
ghost use Rattle.net_traits.specs.ToldSince.{ToldSince};
ghost use Rattle.net_owner.specs.Arrivals.{has_closed};
ghost use Rattle.net_owner.specs.Events.{AreMerged};
ghost use Rattle.net_owner.specs.Halves.{IsHeld};
ghost use Rattle.net_owner.specs.Owners.{IsComing, IsGoing, IsPending};
ghost use Rattle.net_owner.specs.Positions.{HasNoReader, IsStarted, are_over, feeds, is_over};
ghost use Rattle.net_owner.specs.StartedReaders.{HasStarted, workers_of};
ghost use Rattle.net_owner.specs.Troubles.{HasMet};
ghost use Rattle.net_owner.specs.Merge.{items_of};
ghost use Rattle.net_owner.specs.Rule.{sender};
ghost use Rattle.net_owner.specs.Feeds.{number};
ghost use Rattle.net_owner.specs.declared.item.What.TheVariants.{Ended, Gave};

use crate::item::{Item, Piece, What};
use crate::owner::Owner;
use crate::position::Slot;
use crate::queue::{Receipt, Sending, hire, open, take};
use crate::reader::ReaderJob;
use crate::spawner::Spawner;
use crate::taker::Taker;
use crate::trouble::{Trouble, first};
use base_io::NoMemory;
use net_traits::{Clock, Entropy, Incoming, Outgoing, Pair};
use std::alloc::Global;
use std::sync::Wait;

/// How many items the queue has room for.
const ROOM: usize = 64;

// The index of the place of a reader that was started.
fn started<R: Wait + Drop, I: Incoming + Drop, P: Drop>(
    positions: &[Slot<R, I, P>],
    from: u64,
) -> Option<usize>
    ensures { MatchOption result (HasNoReader positions.now from) (λ i. (i + 1 ≡ from) × IsStarted positions.now i) }
{
    if from == 0 || from > positions.len() as u64 {
        return None;
    }
    let index = (from - 1) as usize;
    if positions[index].worker.is_some() {
        Some(index)
    } else {
        None
    }
}

// Whether a connection has no reader that goes on.
fn is_done<R: Wait + Drop, I: Incoming + Drop, P: Drop>(position: &Slot<R, I, P>) -> bool
    ensures { result ≡ is_over position.now }
{
    match &position.worker {
        None => true,
        Some(_) => position.ended,
    }
}

// Whether each reader that was started has ended.
#[tactic(auto, unfolding(crate::specs::Positions::are_over))]
fn all_ended<R: Wait + Drop, I: Incoming + Drop, P: Drop>(positions: &[Slot<R, I, P>]) -> bool
    ensures { result ≡ are_over positions.now }
{
    for position in positions {
        if !is_done(position) {
            return false;
        }
    }
    true
}

impl<
    R: Wait + Copy + Send + 'static,
    I: Incoming + Drop + Send + 'static,
    O: Outgoing + Drop + Send + 'static,
    T: Taker<O> + Drop,
> Owner<R, I, Pair<I, O>, T> {
    /// The owner of a new queue, with no connections; and what its acceptor needs, an end of the queue and a pass.
    pub fn new(
        rt: R,
        alloc: Global,
        taker: T,
    ) -> Result<
        (
            Owner<R, I, Pair<I, O>, T>,
            Sending<Item<Pair<I, O>>>,
            Receipt<Item<Pair<I, O>>>,
        ),
        NoMemory,
    >
        requires { T.events taker ≡ [] }
        ensures going { IfOk result (λ r. IsGoing T.events r.0) }
        ensures held { IfOk result (λ r. IsHeld I.told T.numbers r.0) }
        ensures positions { IfOk result (λ r. r.0.positions.items ≡ []) }
        ensures met { IfOk result (λ r. r.0.met ≡ None) }
        ensures taker { IfOk result (λ r. r.0.taker ≡ taker) }
        ensures acceptor { IfOk result (λ r. IsSeatAt (sends_on r.1) r.2 × (view r.2 ≡ sender 0)) }
        ensures queue { IfOk result (λ r. sends_on r.1 ≡ sends_on r.0.to) }
    {
        let (to, at, mut pass) = open::<Item<Pair<I, O>>>(alloc, ROOM)?;
        let acceptor = hire(&to, &mut pass);
        let end = to.try_clone()?;
        let owner = Owner {
            rt,
            alloc,
            to,
            at,
            pass,
            positions: Vec::new(alloc),
            taker,
            closed: false,
            met: None,
        };
        Ok((owner, end, acceptor))
    }

    // Takes the next item, and does what it asks for. It waits until there is one.
    fn step<S: Spawner, C: Clock, E: Entropy>(
        &mut self,
        spawner: &mut S,
        clock: &mut C,
        entropy: &mut E,
    ) -> Result<(), NoMemory>
        requires going { IsGoing T.events self.old }
        requires held { IsHeld I.told T.numbers self.old }
        requires many { length (T.numbers self.old.taker) ≡ length self.old.positions.items }
        requires right { (moments drawn : List ℕ) × T.keeps self.old.taker moments drawn }
        ensures going { OnOk result (IsGoing T.events self.new) }
        ensures queue { self.new.to ≡ self.old.to }
        ensures held { IsHeld I.told T.numbers self.new }
        ensures readers { HasStarted self.old.positions.items self.new.positions.items (S.started spawner.old) (S.started spawner.new) }
        ensures many { OnOk result (length (T.numbers self.new.taker) ≡ length self.new.positions.items) }
        ensures right { (told drawn : List ℕ) → ToldSince told drawn (C.told clock.old) (E.drawn entropy.old) (T.keeps self.old.taker)
            → OnOk result (ToldSince told drawn (C.told clock.new) (E.drawn entropy.new) (T.keeps self.new.taker)) }
        ensures met { (s e : ℕ) → HasMet self.old.met s e (S.faults spawner.old) (E.faults entropy.old) → OnOk result (HasMet self.new.met s e (S.faults spawner.new) (E.faults entropy.new)) }
        ensures fixed { T.fixed self.new.taker ≡ T.fixed self.old.taker }
    {
        let item = take(&self.rt, &self.at, &mut self.pass);
        self.hear(spawner, clock, entropy, item)
    }

    // Does what an item asks for.
    #[tactic(auto, using(crate::proofs::MoreReaders::as_they_were))]
    fn hear<S: Spawner, C: Clock, E: Entropy>(
        &mut self,
        spawner: &mut S,
        clock: &mut C,
        entropy: &mut E,
        item: Item<Pair<I, O>>,
    ) -> Result<(), NoMemory>
        requires going { IsPending T.events self.old item }
        requires held { IsHeld I.told T.numbers self.old }
        requires many { length (T.numbers self.old.taker) ≡ length self.old.positions.items }
        requires right { (moments drawn : List ℕ) × T.keeps self.old.taker moments drawn }
        ensures going { OnOk result (IsGoing T.events self.new) }
        ensures queue { self.new.to ≡ self.old.to }
        ensures held { IsHeld I.told T.numbers self.new }
        ensures readers { HasStarted self.old.positions.items self.new.positions.items (S.started spawner.old) (S.started spawner.new) }
        ensures many { OnOk result (length (T.numbers self.new.taker) ≡ length self.new.positions.items) }
        ensures right { (told drawn : List ℕ) → ToldSince told drawn (C.told clock.old) (E.drawn entropy.old) (T.keeps self.old.taker)
            → OnOk result (ToldSince told drawn (C.told clock.new) (E.drawn entropy.new) (T.keeps self.new.taker)) }
        ensures met { (s e : ℕ) → HasMet self.old.met s e (S.faults spawner.old) (E.faults entropy.old) → OnOk result (HasMet self.new.met s e (S.faults spawner.new) (E.faults entropy.new)) }
        ensures fixed { T.fixed self.new.taker ≡ T.fixed self.old.taker }
    {
        let Item { from, what } = item;
        match what {
            What::Gave(piece) => self.gave(clock, from, piece),
            What::Ended => self.ended(clock, from),
            What::Wanted => {
                self.mark(from);
                Err(NoMemory)
            }
            What::Came(pair) if from == 0 => self.admit(spawner, clock, entropy, pair),
            What::Closed if from == 0 => {
                self.closed = true;
                Ok(())
            }
            // These are the acceptor's alone.
            What::Came(_) | What::Closed => Ok(()),
        }
    }

    // A piece came.
    fn gave<C: Clock>(&mut self, clock: &mut C, from: u64, piece: Piece) -> Result<(), NoMemory>
        requires going { IsPending T.events self.old (record { from = from; what = Gave piece }) }
        requires held { IsHeld I.told T.numbers self.old }
        requires many { length (T.numbers self.old.taker) ≡ length self.old.positions.items }
        ensures going { OnOk result (IsGoing T.events self.new) }
        ensures queue { self.new.to ≡ self.old.to }
        ensures held { IsHeld I.told T.numbers self.new }
        ensures workers { workers_of self.new.positions.items ≡ workers_of self.old.positions.items }
        ensures many { length (T.numbers self.new.taker) ≡ length self.new.positions.items }
        ensures right { (told drawn now : List ℕ) → ToldSince told drawn (C.told clock.old) now (T.keeps self.old.taker)
            → OnOk result (ToldSince told drawn (C.told clock.new) now (T.keeps self.new.taker)) }
        ensures met { self.new.met ≡ self.old.met }
        ensures fixed { T.fixed self.new.taker ≡ T.fixed self.old.taker }
    {
        match started(self.positions.as_slice(), from) {
            None => Ok(()),
            Some(_) => self.taker.piece(clock, from, piece),
        }
    }

    // A reader has ended.
    fn ended<C: Clock>(&mut self, clock: &mut C, from: u64) -> Result<(), NoMemory>
        requires going { IsPending T.events self.old (record { from = from; what = Ended }) }
        requires held { IsHeld I.told T.numbers self.old }
        requires many { length (T.numbers self.old.taker) ≡ length self.old.positions.items }
        ensures going { OnOk result (IsGoing T.events self.new) }
        ensures queue { self.new.to ≡ self.old.to }
        ensures held { IsHeld I.told T.numbers self.new }
        ensures workers { workers_of self.new.positions.items ≡ workers_of self.old.positions.items }
        ensures many { length (T.numbers self.new.taker) ≡ length self.new.positions.items }
        ensures right { (told drawn now : List ℕ) → ToldSince told drawn (C.told clock.old) now (T.keeps self.old.taker)
            → OnOk result (ToldSince told drawn (C.told clock.new) now (T.keeps self.new.taker)) }
        ensures met { self.new.met ≡ self.old.met }
        ensures fixed { T.fixed self.new.taker ≡ T.fixed self.old.taker }
    {
        match started(self.positions.as_slice(), from) {
            None => Ok(()),
            Some(index) => {
                self.positions[index].ended = true;
                self.taker.gone(clock, from)
            }
        }
    }

    // A reader sends nothing more.
    fn mark(&mut self, from: u64)
        requires held { IsHeld I.told T.numbers self.old }
        ensures held { IsHeld I.told T.numbers self.new }
        ensures workers { workers_of self.new.positions.items ≡ workers_of self.old.positions.items }
        ensures same { (self.new.taker ≡ self.old.taker) × (self.new.to ≡ self.old.to) }
    {
        match started(self.positions.as_slice(), from) {
            None => {}
            Some(index) => self.positions[index].ended = true,
        }
    }

    // A connection came.
    #[tactic(auto, using(crate::proofs::MoreReaders::as_they_were))]
    fn admit<S: Spawner, C: Clock, E: Entropy>(
        &mut self,
        spawner: &mut S,
        clock: &mut C,
        entropy: &mut E,
        pair: Pair<I, O>,
    ) -> Result<(), NoMemory>
        requires coming { IsComing T.events self.old }
        requires held { IsHeld I.told T.numbers self.old }
        requires many { length (T.numbers self.old.taker) ≡ length self.old.positions.items }
        requires right { (moments drawn : List ℕ) × T.keeps self.old.taker moments drawn }
        ensures going { OnOk result (IsGoing T.events self.new) }
        ensures queue { self.new.to ≡ self.old.to }
        ensures held { IsHeld I.told T.numbers self.new }
        ensures readers { HasStarted self.old.positions.items self.new.positions.items (S.started spawner.old) (S.started spawner.new) }
        ensures many { OnOk result (length (T.numbers self.new.taker) ≡ length self.new.positions.items) }
        ensures right { (told drawn : List ℕ) → ToldSince told drawn (C.told clock.old) (E.drawn entropy.old) (T.keeps self.old.taker)
            → OnOk result (ToldSince told drawn (C.told clock.new) (E.drawn entropy.new) (T.keeps self.new.taker)) }
        ensures met { (s e : ℕ) → HasMet self.old.met s e (S.faults spawner.old) (E.faults entropy.old) → OnOk result (HasMet self.new.met s e (S.faults spawner.new) (E.faults entropy.new)) }
        ensures fixed { T.fixed self.new.taker ≡ T.fixed self.old.taker }
    {
        self.make_room()?;
        let (incoming, outgoing) = pair.apart();
        self.come_in(spawner, clock, entropy, incoming, outgoing)
    }

    // A worker that finds no place would not be joined, so that there is one before it is started.
    fn make_room(&mut self) -> Result<(), NoMemory>
        requires coming { IsComing T.events self.old }
        requires held { IsHeld I.told T.numbers self.old }
        ensures coming { IsComing T.events self.new }
        ensures queue { self.new.to ≡ self.old.to }
        ensures held { IsHeld I.told T.numbers self.new }
        ensures positions { self.new.positions.items ≡ self.old.positions.items }
        ensures same { (self.new.taker ≡ self.old.taker) × (self.new.met ≡ self.old.met) }
        ensures room { OnOk result (vec_len self.new.positions < vec_capacity self.new.positions) }
    {
        self.positions.reserve(1)?;
        Ok(())
    }

    // Makes a place for a connection, and starts its reader.
    #[tactic(auto, using(crate::proofs::MoreReaders::as_they_were))]
    fn come_in<S: Spawner, C: Clock, E: Entropy>(
        &mut self,
        spawner: &mut S,
        clock: &mut C,
        entropy: &mut E,
        incoming: I,
        outgoing: O,
    ) -> Result<(), NoMemory>
        requires coming { IsComing T.events self.old }
        requires held { IsHeld I.told T.numbers self.old }
        requires many { length (T.numbers self.old.taker) ≡ length self.old.positions.items }
        requires right { (moments drawn : List ℕ) × T.keeps self.old.taker moments drawn }
        requires room { vec_len self.old.positions < vec_capacity self.old.positions }
        requires pair { IsUnusedPair (I.told incoming) (O.told outgoing) }
        ensures going { OnOk result (IsGoing T.events self.new) }
        ensures queue { self.new.to ≡ self.old.to }
        ensures held { IsHeld I.told T.numbers self.new }
        ensures readers { HasStarted self.old.positions.items self.new.positions.items (S.started spawner.old) (S.started spawner.new) }
        ensures many { OnOk result (length (T.numbers self.new.taker) ≡ length self.new.positions.items) }
        ensures right { (told drawn : List ℕ) → ToldSince told drawn (C.told clock.old) (E.drawn entropy.old) (T.keeps self.old.taker)
            → OnOk result (ToldSince told drawn (C.told clock.new) (E.drawn entropy.new) (T.keeps self.new.taker)) }
        ensures met { (s e : ℕ) → HasMet self.old.met s e (S.faults spawner.old) (E.faults entropy.old) → OnOk result (HasMet self.new.met s e (S.faults spawner.new) (E.faults entropy.new)) }
        ensures fixed { T.fixed self.new.taker ≡ T.fixed self.old.taker }
    {
        let number = self.positions.as_slice().len() as u64 + 1;
        let to = self.to.try_clone()?;
        if !self.taker.connect(clock, entropy, number, outgoing)? {
            self.met = first(self.met, Trouble::Entropy);
            return Ok(());
        }
        let pass = hire(&self.to, &mut self.pass);
        let job = ReaderJob::new(self.rt, self.alloc, incoming, to, pass, number);
        match spawner.start(job) {
            Ok(worker) => {
                self.positions.push_reserved(Slot {
                    worker: Some(worker),
                    ended: false,
                });
                Ok(())
            }
            Err(_) => {
                self.met = first(self.met, Trouble::Worker);
                self.taker.gone(clock, number)?;
                self.positions.push_reserved(Slot {
                    worker: None,
                    ended: false,
                });
                Ok(())
            }
        }
    }

    /// Goes on until no more connections are taken in, and each reader that was started has ended. The events are a merge of
    /// what was taken of each reader. Where nothing went wrong outside, each connection that was taken of the acceptor has its
    /// place and its reader. What went wrong is kept in `met`, and the run goes on. Whatever the answer, no reader that was started
    /// is lost: each stands at its place, behind those that were there. What the taker keeps is of all that the clock told and of
    /// all that was drawn meanwhile.
    #[tactic(auto, using(crate::proofs::MoreReaders::as_they_were, crate::proofs::MoreReaders::started_on, net_traits::proofs::ToldSince::since_start))]
    pub fn run<S: Spawner, C: Clock, E: Entropy>(
        &mut self,
        spawner: &mut S,
        clock: &mut C,
        entropy: &mut E,
    ) -> Result<(), NoMemory>
        requires going { IsGoing T.events self.old }
        requires held { IsHeld I.told T.numbers self.old }
        requires many { length (T.numbers self.old.taker) ≡ length self.old.positions.items }
        requires right { T.keeps self.old.taker [] [] }
        requires met { self.old.met ≡ None }
        ensures going { OnOk result (IsGoing T.events self.new) }
        ensures over { OnOk result (are_over self.new.positions.items ≡ true) }
        ensures closed { OnOk result (has_closed (items_of number 0 (view self.new.pass).got) ≡ true) }
        ensures merged { OnOk result (AreMerged (T.events self.new.taker) (feeds self.new.positions.items (view self.new.pass).got)) }
        ensures queue { self.new.to ≡ self.old.to }
        ensures held { IsHeld I.told T.numbers self.new }
        ensures readers { HasStarted self.old.positions.items self.new.positions.items (S.started spawner.old) (S.started spawner.new) }
        ensures many { OnOk result (length (T.numbers self.new.taker) ≡ length self.new.positions.items) }
        ensures right { OnOk result (ToldSince (C.told clock.old) (E.drawn entropy.old) (C.told clock.new) (E.drawn entropy.new) (T.keeps self.new.taker)) }
        ensures met { OnOk result (HasMet self.new.met (S.faults spawner.old) (E.faults entropy.old) (S.faults spawner.new) (E.faults entropy.new)) }
        ensures fixed { T.fixed self.new.taker ≡ T.fixed self.old.taker }
    {
        let rt = self.rt;
        for _ in rt.forever() {
            if self.closed && all_ended(self.positions.as_slice()) {
                return Ok(());
            }
            self.step(spawner, clock, entropy)?;
        }
        unreachable!()
    }

    // An item that is no event any more.
    fn pass_by(&mut self, item: Item<Pair<I, O>>)
        requires held { IsHeld I.told T.numbers self.old }
        ensures held { IsHeld I.told T.numbers self.new }
        ensures workers { workers_of self.new.positions.items ≡ workers_of self.old.positions.items }
        ensures taker { self.new.taker ≡ self.old.taker }
    {
        let Item { from, what } = item;
        match what {
            What::Gave(_) => {}
            What::Ended | What::Wanted => self.mark(from),
            What::Closed => self.closed = true,
            What::Came(pair) => {
                let (_incoming, mut outgoing) = pair.apart();
                outgoing.close();
            }
        }
    }

    // Closes the halves of all connections.
    fn close_halves(&mut self)
        requires held { IsHeld I.told T.numbers self.old }
        ensures held { IsHeld I.told T.numbers self.new }
        ensures positions { self.new.positions ≡ self.old.positions }
        ensures shut { T.shut self.new.taker }
    {
        self.taker.close_all();
    }

    /// After want of memory: closes all halves, and takes items until no more connections are taken in, and each reader that
    /// was started has sent its last. So no worker waits for room in the queue, and all can be joined: each reader stays at its
    /// place.
    pub fn drain(&mut self)
        requires held { IsHeld I.told T.numbers self.old }
        ensures held { IsHeld I.told T.numbers self.new }
        ensures workers { workers_of self.new.positions.items ≡ workers_of self.old.positions.items }
        ensures shut { T.shut self.new.taker }
        ensures over { are_over self.new.positions.items ≡ true }
    {
        self.close_halves();
        let rt = self.rt;
        for _ in rt.forever() {
            if self.closed && all_ended(self.positions.as_slice()) {
                return;
            }
            let item = take(&self.rt, &self.at, &mut self.pass);
            self.pass_by(item);
        }
        unreachable!()
    }
}
