//! Connections that come in at a port are served at the same time.
//!
//! `serve_together` takes the door by value and answers it: a spawner that refuses the acceptor's job drops it, and
//! the door with it. A fault of the door is none of the owner's troubles: no connection comes behind it.
ghost use Rattle.std.specs.Prelude.{◌≡◌, ◌≢◌, ◌⊎◌, ℕ, List, [], Err, IfErr, IfOk, IfSome, IsErrOf, IsSome, MatchOption};
ghost use Rattle.base_io.specs.Counts.{Rose};
ghost use Rattle.net_hub.specs.Backs.{AreAfter};
ghost use Rattle.net_hub.specs.Joined.{HasWorkers};
ghost use Rattle.net_hub.specs.Served.{HasServed, IsOwn, IsRefusal};
ghost use Rattle.cmd_journal.specs.AccountsFiles.{IsAccountsFile, accounts_text};
ghost use Rattle.net_hub.specs.Records.{IsKept};
ghost use Rattle.net_hub.specs.GivenLinks.{AreFewer, AreGivenBack};
ghost use Rattle.net_traits.specs.ToldSince.{ToldSince};

use crate::fault::{HubFault, of_door};
use crate::recorder::Recorder;
use crate::serving::serve_started;
use base_io::{Bytes, NoMemory};
use cmd_journal::{AccountsFile, InputFault, read_accounts};
use net_owner::{AcceptorJob, Owner, Spawner};
use net_traits::{Clock, Entropy, Halves, Incoming, Outgoing, Pair};
use std::alloc::Global;
use std::sync::Wait;
use std::thread::Threads;

// Serves at a door that is open, with a recorder to which nothing has happened yet.
#[tactic(auto, using(crate::proofs::JoinedReaders::none_started))]
fn serve_with<
    R: Threads + Wait + Copy + Send + 'static,
    I: Incoming + Drop + Send + 'static,
    O: Outgoing + Drop + Send + 'static,
    D: Halves<Incoming = I, Outgoing = O> + Send + Drop + 'static,
    C: Clock,
    E: Entropy,
    S: Spawner,
>(
    rt: &R,
    n: u32,
    recorder: Recorder<O>,
    door: D,
    clock: &mut C,
    entropy: &mut E,
    spawner: &mut S,
) -> (Result<Bytes, HubFault>, Option<D>)
where
    D::Link: Send + 'static,
    requires kept { IsKept O.told [] [] recorder }
    requires fresh { (recorder.events.items ≡ []) × (recorder.senders.items ≡ []) }
    ensures served { IfOk result.0 (λ text. IfSome result.1 (λ new. ToldSince (C.told clock.old) (E.drawn entropy.old) (C.told clock.new) (E.drawn entropy.new)
        (λ told drawn. HasServed (accounts_text recorder.file) n told drawn (D.given door) (D.given new) text.items))) }
    ensures given { IfSome result.1 (λ new. AreAfter (D.given door) (D.given new)) }
    ensures workers { MatchOption result.1 (S.started spawner.new ≡ S.started spawner.old) (λ new. HasWorkers (D.given door) (D.given new) (S.started spawner.old) (S.started spawner.new)) }
    ensures faults { IfErr result.0 (λ e. IsOwn e) }
    ensures all_back { result.0 ≢ Err HubFault.NoWorker → result.0 ≢ Err HubFault.EntropyFault → result.0 ≢ Err HubFault.NoMemory
        → IfSome result.1 (λ new. AreGivenBack (D.handed door) (D.handed new) (D.given door) (D.given new)) }
    ensures link_fault { IsErrOf result.0 HubFault.LinkFault → IfSome result.1 (λ new. Rose (D.faults door) (D.faults new) × AreFewer n (D.given door) (D.given new)) }
    ensures no_worker { IsErrOf result.0 HubFault.NoWorker → Rose (S.faults spawner.old) (S.faults spawner.new) }
    ensures entropy_fault { IsErrOf result.0 HubFault.EntropyFault → Rose (E.faults entropy.old) (E.faults entropy.new) }
    ensures kept { IsErrOf result.0 HubFault.NoWorker ⊎ IsSome result.1 }
{
    let alloc = recorder.alloc;
    let (owner, to, pass) = match Owner::new(*rt, alloc, recorder) {
        Ok(begun) => begun,
        Err(NoMemory) => return (Err(HubFault::NoMemory), Some(door)),
    };
    match spawner.start(AcceptorJob::new(*rt, door, to, pass, n)) {
        Ok(acceptor) => {
            let (served, door) = serve_started(rt, owner, acceptor, clock, entropy, spawner);
            (served, Some(door))
        }
        Err(_) => (Err(HubFault::NoWorker), None),
    }
}

// A server of an accounts file that can take connections at once: the keys of its accounts are derived, which takes some
// milliseconds each.
fn ready<O: Outgoing + Drop>(alloc: Global, file: AccountsFile) -> Result<Recorder<O>, NoMemory>
    requires right { IsAccountsFile file }
    ensures kept { IfOk result (λ r. IsKept O.told [] [] r) }
    ensures fresh { IfOk result (λ r. (r.events.items ≡ []) × (r.senders.items ≡ [])) }
    ensures text { IfOk result (λ r. accounts_text r.file ≡ accounts_text file) }
{
    if file.accounts.as_slice().len() > u32::MAX as usize {
        return Err(NoMemory);
    }
    Recorder::new(alloc, file)
}

/// Serves `n` connections that come in at a port, at the same time, and answers the journal of what happened, with the archives
/// in the end. `accounts` is the text of an accounts file. An acceptor takes the connections in, a reader of its own reads each,
/// and what the server puts for a connection goes out on its link. The journal's events are a merge of what each reader read,
/// each piece once and in order. A connection is gone where a read fails, where its end is read, and where it gave as much as
/// one may. The door listens once the server is ready, so that who connects need not wait for the keys of all accounts.
///
/// `BadLine` comes where `accounts` is the text of no accounts file, with the first bad line and its first reason; then the door
/// stays closed. `LinkFault`, `NoWorker` and `EntropyFault` come only where the count of faults rose of the door, of the spawner
/// and of the source of random bytes: where several did, that which was met first. Want of memory of the door is want of memory
/// here too. After `LinkFault` all links that the door handed out are given back. After the others, and after want of memory, all
/// readers are joined, and the links of which a reader was started are given back. Where the acceptor can't be started, the door is dropped, and no thread was started. Else
/// no thread was started and no link given back, or an acceptor was started and as many links are given back as readers were,
/// as the spawner counts them.
#[tactic(auto, using(crate::proofs::Served::served_again, crate::proofs::Refusals::refused, crate::proofs::JoinedReaders::none_started, crate::proofs::JoinedReaders::workers_again))]
pub fn serve_together<
    R: Threads + Wait + Copy + Send + 'static,
    I: Incoming + Drop + Send + 'static,
    O: Outgoing + Drop + Send + 'static,
    D: Halves<Incoming = I, Outgoing = O> + Send + Drop + 'static,
    C: Clock,
    E: Entropy,
    S: Spawner,
>(
    rt: &R,
    alloc: Global,
    accounts: &[u8],
    port: u16,
    n: u32,
    mut door: D,
    clock: &mut C,
    entropy: &mut E,
    spawner: &mut S,
) -> (Result<Bytes, HubFault>, Option<D>)
where
    D::Link: Send + 'static,
    ensures served { IfOk result.0 (λ text. IfSome result.1 (λ new. ToldSince (C.told clock.old) (E.drawn entropy.old) (C.told clock.new) (E.drawn entropy.new)
        (λ told drawn. HasServed accounts.now n told drawn (D.given door) (D.given new) text.items))) }
    ensures bad { IfErr result.0 (λ e. IsRefusal accounts.now e) }
    ensures back { IfSome result.1 (λ new. AreAfter (D.given door) (D.given new)) }
    ensures workers { MatchOption result.1 (S.started spawner.new ≡ S.started spawner.old) (λ new. HasWorkers (D.given door) (D.given new) (S.started spawner.old) (S.started spawner.new)) }
    ensures all_back { result.0 ≢ Err HubFault.NoWorker → result.0 ≢ Err HubFault.EntropyFault → result.0 ≢ Err HubFault.NoMemory
        → IfSome result.1 (λ new. AreGivenBack (D.handed door) (D.handed new) (D.given door) (D.given new)) }
    ensures link_fault { IsErrOf result.0 HubFault.LinkFault → IfSome result.1 (λ new. Rose (D.faults door) (D.faults new) × (n ≢ 0 → AreFewer n (D.given door) (D.given new))) }
    ensures no_worker { IsErrOf result.0 HubFault.NoWorker → Rose (S.faults spawner.old) (S.faults spawner.new) }
    ensures entropy_fault { IsErrOf result.0 HubFault.EntropyFault → Rose (E.faults entropy.old) (E.faults entropy.new) }
    ensures kept { IsErrOf result.0 HubFault.NoWorker ⊎ IsSome result.1 }
{
    let file = match read_accounts(alloc, accounts) {
        Ok(file) => file,
        Err(InputFault::BadLine { line, why }) => {
            return (Err(HubFault::BadLine { line, why }), Some(door));
        }
        Err(InputFault::NoMemory) => return (Err(HubFault::NoMemory), Some(door)),
    };
    let recorder = match ready(alloc, file) {
        Ok(recorder) => recorder,
        Err(NoMemory) => return (Err(HubFault::NoMemory), Some(door)),
    };
    match door.listen(port) {
        Ok(()) => serve_with(rt, n, recorder, door, clock, entropy, spawner),
        Err(fault) => (Err(of_door(fault)), Some(door)),
    }
}
