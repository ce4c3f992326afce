//! Connections are served at the same time.
//!
//! The door listens once the server is ready: the keys of all accounts are derived before, so that who connects is
//! answered at once. That a port can't be listened on is told behind them.
ghost use Rattle.std.specs.Prelude.{◌≡◌, ◌≢◌, ◌⊎◌, ◌<◌, ◌^◌, ◌∷◌, ◌++◌, ℕ, List, [], None, Some, Err, IfErr, IfOk, IfSome, IsErrOf, length, true};
ghost use Rattle.crossbeam_channel.specs.Claims.{IsSeatAt, view};
ghost use Rattle.crossbeam_channel.specs.Ends.{sends_on};
ghost use Rattle.base_io.specs.Counts.{Rose};
ghost use Rattle.net_hub.specs.Backs.{AreAfter, AreLeft};
ghost use Rattle.net_hub.specs.Joined.{AreMore, HasReaders};
ghost use Rattle.net_hub.specs.Served.{HasServed, IsOwn, IsRefusal, IsWritten};
ghost use Rattle.cmd_journal.specs.AccountsFiles.{accounts_text};
ghost use Rattle.net_traits.specs.Links.{LinkView};
ghost use Rattle.net_traits.specs.ToldSince.{ToldSince};
ghost use Rattle.net_owner.specs.Arrivals.{has_closed};
ghost use Rattle.net_owner.specs.Halves.{IsHeld};
ghost use Rattle.net_owner.specs.Owners.{IsGoing};
ghost use Rattle.net_owner.specs.Positions.{are_over};
ghost use Rattle.net_owner.specs.StartedReaders.{readers_in};
ghost use Rattle.net_owner.specs.Troubles.{HasMet};
ghost use Rattle.net_owner.specs.Merge.{items_of};
ghost use Rattle.net_owner.specs.Feeds.{number};
ghost use Rattle.net_hub.specs.Records.{IsKept, bares_of};
ghost use Rattle.net_hub.specs.Sendings.{numbers_of};
ghost use Rattle.net_hub.specs.GivenLinks.{AreFewer, AreGivenBack};

use crate::fault::{HubFault, of_door};
use crate::giving::give_back;
use crate::journal::journal_of;
use crate::recorder::Recorder;
use crate::settling::settle_all;
use base_io::{Bytes, NoMemory};
use net_owner::{AcceptorAnswer, AcceptorJob, Owner, Spawner, Trouble, Worker, settle_acceptor};
use net_traits::{Clock, Entropy, Halves, Incoming, Outgoing, Pair};
use std::sync::Wait;
use std::thread::Threads;

// After a fault, once no reader goes on: joins all workers, and gives the links of readers back.
#[tactic(auto, using(crate::proofs::Paired::held_paired))]
fn leave<
    R: Threads + Wait + Drop,
    I: Incoming + Drop,
    O: Outgoing + Drop,
    D: Halves<Incoming = I, Outgoing = O> + Drop,
>(
    rt: &R,
    owner: Owner<R, I, Pair<I, O>, Recorder<O>>,
    acceptor: Worker<AcceptorJob<R, D, Pair<I, O>>>,
) -> D
    requires held { IsHeld I.told (λ r. numbers_of O.told r.senders.items) owner }
    requires over { are_over owner.positions.items ≡ true }
    ensures left { (links : List LinkView) × (D.given result ≡ D.given acceptor.door ++ links) × AreLeft I.told O.told owner.positions.items owner.taker.senders.items links }
    ensures readers { AreMore (readers_in owner.positions.items) (D.given acceptor.door) (D.given result) }
{
    let AcceptorAnswer { mut door, .. } = acceptor.join(rt);
    let Owner {
        positions,
        taker,
        ..
    } = owner;
    let Recorder { senders, .. } = taker;
    give_back(rt, positions, senders, &mut door);
    door
}

// Once all readers have ended: joins all workers, gives the links back, and writes the journal, unless the door failed or wanted
// memory.
fn finish<
    R: Threads + Wait + Drop,
    I: Incoming + Drop,
    O: Outgoing + Drop,
    D: Halves<Incoming = I, Outgoing = O> + Drop,
>(
    rt: &R,
    owner: Owner<R, I, Pair<I, O>, Recorder<O>>,
    acceptor: Worker<AcceptorJob<R, D, Pair<I, O>>>,
) -> (Result<Bytes, HubFault>, D)
    requires going { IsGoing (λ r. bares_of r.events.items) owner }
    requires held { IsHeld I.told (λ r. numbers_of O.told r.senders.items) owner }
    requires many { length (numbers_of O.told owner.taker.senders.items) ≡ length owner.positions.items }
    requires over { are_over owner.positions.items ≡ true }
    requires closed { has_closed (items_of number 0 (view owner.pass).got) ≡ true }
    requires met { owner.met ≡ None }
    requires queue { sends_on acceptor.to ≡ sends_on owner.to }
    requires kept { (moments drawn : List ℕ) × IsKept O.told moments drawn owner.taker }
    ensures served { (moments drawn : List ℕ) → IsKept O.told moments drawn owner.taker
        → IfOk result.0 (λ text. IsWritten owner.taker.file acceptor.count moments drawn (D.given acceptor.door) (D.given result.1) text.items) }
    ensures all_back { AreGivenBack (D.handed acceptor.door) (D.handed result.1) (D.given acceptor.door) (D.given result.1) }
    ensures readers { AreMore (readers_in owner.positions.items) (D.given acceptor.door) (D.given result.1) }
    ensures faults { IfErr result.0 (λ e. (e ≡ HubFault.LinkFault) ⊎ (e ≡ HubFault.NoMemory)) }
    ensures failed { IsErrOf result.0 HubFault.LinkFault → Rose (D.faults acceptor.door) (D.faults result.1) × AreFewer acceptor.count (D.given acceptor.door) (D.given result.1) }
{
    let Owner {
        to,
        mut pass,
        positions,
        taker,
        ..
    } = owner;
    let Recorder {
        alloc,
        file,
        server,
        events,
        senders,
    } = taker;
    let (mut door, stopped) = settle_acceptor(rt, &to, &mut pass, acceptor);
    settle_all(rt, &to, &mut pass, positions, senders, &mut door);
    match stopped {
        Some(fault) => return (Err(of_door(fault)), door),
        None => {}
    }
    match journal_of(alloc, &file, server, events.as_slice()) {
        Ok(text) => (Ok(text), door),
        Err(NoMemory) => (Err(HubFault::NoMemory), door),
    }
}

/// Serves connections with an owner to whose queue an acceptor sends them, until that has ended and each reader too: as many at
/// the same time as the acceptor is to take in. A reader of its own reads each, and what the server puts for a connection goes
/// out on its link.
/// Answers the journal of what happened, with the archives in the end, and gives back the door with the links of the readers that
/// were started, in the order of the connections. The journal's events are a merge of what each reader read, each piece once and
/// in order. Their moments are all that the clock told meanwhile, and for each connection the bytes were drawn that its event
/// has, and no others. A connection is gone where a read fails, where its end is read, and where it gave as much as one may.
///
/// `LinkFault`, `NoWorker` and `EntropyFault` come only where the count of faults rose of the door, of the spawner and of the
/// source of random bytes: where several did, that which was met first. Want of memory of the door is want of memory here too.
/// After `LinkFault` all links that the door handed out are given back, which are fewer than the acceptor was to take in. After
/// the others, and after want of memory, all readers are joined, and their links given back. Whatever is answered, as many links are given back as there were readers: those that the
/// owner had, and as many more as the spawner counted threads in this call.
#[tactic(auto, using(crate::proofs::JoinedReaders::after_run, crate::proofs::JoinedReaders::after_drain))]
pub fn serve_started<
    R: Threads + Wait + Copy + Send + 'static,
    I: Incoming + Drop + Send + 'static,
    O: Outgoing + Drop + Send + 'static,
    D: Halves<Incoming = I, Outgoing = O> + Drop,
    C: Clock,
    E: Entropy,
    S: Spawner,
>(
    rt: &R,
    owner: Owner<R, I, Pair<I, O>, Recorder<O>>,
    acceptor: Worker<AcceptorJob<R, D, Pair<I, O>>>,
    clock: &mut C,
    entropy: &mut E,
    spawner: &mut S,
) -> (Result<Bytes, HubFault>, D)
    requires going { IsGoing (λ r. bares_of r.events.items) owner }
    requires held { IsHeld I.told (λ r. numbers_of O.told r.senders.items) owner }
    requires many { length (numbers_of O.told owner.taker.senders.items) ≡ length owner.positions.items }
    requires kept { IsKept O.told [] [] owner.taker }
    requires met { owner.met ≡ None }
    requires queue { sends_on acceptor.to ≡ sends_on owner.to }
    ensures served { IfOk result.0 (λ text. ToldSince (C.told clock.old) (E.drawn entropy.old) (C.told clock.new) (E.drawn entropy.new)
        (λ told drawn. HasServed (accounts_text owner.taker.file) acceptor.count told drawn (D.given acceptor.door) (D.given result.1) text.items)) }
    ensures given { AreAfter (D.given acceptor.door) (D.given result.1) }
    ensures readers { HasReaders (readers_in owner.positions.items) (D.given acceptor.door) (D.given result.1) (S.started spawner.old) (S.started spawner.new) }
    ensures faults { IfErr result.0 (λ e. IsOwn e) }
    ensures all_back { result.0 ≢ Err HubFault.NoWorker → result.0 ≢ Err HubFault.EntropyFault → result.0 ≢ Err HubFault.NoMemory
        → AreGivenBack (D.handed acceptor.door) (D.handed result.1) (D.given acceptor.door) (D.given result.1) }
    ensures link_fault { IsErrOf result.0 HubFault.LinkFault → Rose (D.faults acceptor.door) (D.faults result.1) × AreFewer acceptor.count (D.given acceptor.door) (D.given result.1) }
    ensures no_worker { IsErrOf result.0 HubFault.NoWorker → Rose (S.faults spawner.old) (S.faults spawner.new) }
    ensures entropy_fault { IsErrOf result.0 HubFault.EntropyFault → Rose (E.faults entropy.old) (E.faults entropy.new) }
{
    let mut owner = owner;
    match owner.run(spawner, clock, entropy) {
        Ok(()) => match owner.met {
            Some(Trouble::Worker) => (Err(HubFault::NoWorker), leave(rt, owner, acceptor)),
            Some(Trouble::Entropy) => (Err(HubFault::EntropyFault), leave(rt, owner, acceptor)),
            None => finish(rt, owner, acceptor),
        },
        Err(NoMemory) => {
            owner.drain();
            (Err(HubFault::NoMemory), leave(rt, owner, acceptor))
        }
    }
}
