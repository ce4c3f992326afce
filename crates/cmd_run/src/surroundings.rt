//! What a call has to do with the outside.
ghost use Rattle.std.specs.Prelude.{◌≡◌, ◌⊎◌, IfOk, IsSome, Some};
ghost use Rattle.base_io.specs.Counts.{Rose};
ghost use Rattle.cmd_run.specs.Dealings.{AreJoined, AreKept, IsBack, OutsideView, door_view, dealings_of};
ghost use Rattle.cmd_run.specs.Table.{IsAnswer};
ghost use Rattle.cmd_run.specs.Tellings.{Tells};
ghost use Rattle.cmd_run.specs.declared.command.Command.TheVariants.{Serve, Sync};

use crate::answer::{Answer, said};
use crate::cause::{Cause, door_cause};
use crate::outcome::Outcome;
use crate::outside::Outside;
use crate::texts::{ENTROPY_FAULT_LINE, LINK_FAULT_LINE, NO_WORKER_LINE, peer_line, refusal};
use base_io::{Bytes, NoMemory};
use cmd_sync::{SyncFault, sync};
use net_hub::{HubFault, serve_together};
use net_owner::Spawner;
use net_traits::{Clock, Dialer, Entropy, Halves, Incoming, Outgoing};
use std::alloc::Global;
use std::sync::Wait;
use std::thread::Threads;

/// What contracts see of the outside.
pub trait Surroundings {
    ghost view: { Self → OutsideView };
}

impl<D: Halves, L: Dialer, C: Clock, E: Entropy, P: Spawner> Surroundings
    for Outside<D, L, C, E, P> {
    ghost view = { λ s. record {
      door = door_view D.faults D.handed D.given s.door;
      dialer = record { faults = L.faults s.dialer; ends = L.ends s.dialer; handed = L.handed s.dialer; given = L.given s.dialer };
      told = C.told s.clock;
      drawn = E.drawn s.entropy;
      draws = E.faults s.entropy;
      starts = P.faults s.spawner;
      started = P.started s.spawner;
      cause = s.cause;
    } };
}

// What is answered to what came of serving.
fn told(alloc: Global, served: Result<Bytes, HubFault>) -> Result<Answer, NoMemory>
    ensures { IfOk result (λ answer. Tells served answer.outcome answer.text.items) }
{
    match served {
        Ok(text) => Ok(Answer {
            outcome: Outcome::Done,
            text,
        }),
        Err(HubFault::BadLine { line, why }) => Ok(Answer {
            outcome: Outcome::Refused,
            text: refusal(alloc, line, why)?,
        }),
        Err(HubFault::LinkFault) => said(alloc, Outcome::LinkFault, LINK_FAULT_LINE),
        Err(HubFault::NoWorker) => said(alloc, Outcome::NoWorker, NO_WORKER_LINE),
        Err(HubFault::EntropyFault) => said(alloc, Outcome::EntropyFault, ENTROPY_FAULT_LINE),
        Err(HubFault::NoMemory) => Err(NoMemory),
    }
}

/// Serves so many connections to a port, at the same time, as a server of these accounts.
#[tactic(auto, using(crate::proofs::Doors::served_joined, crate::proofs::Doors::door_told))]
pub fn serve<
    R: Threads + Wait + Copy + Send + 'static,
    I: Incoming + Drop + Send + 'static,
    O: Outgoing + Drop + Send + 'static,
    D: Halves<Incoming = I, Outgoing = O> + Send + Drop + 'static,
    L: Dialer,
    C: Clock,
    E: Entropy,
    P: Spawner,
>(
    rt: &R,
    alloc: Global,
    port: u16,
    connections: u32,
    accounts: &[u8],
    outside: &mut Outside<D, L, C, E, P>,
) -> Result<Answer, NoMemory>
where
    D::Link: Send + 'static,
    requires { IsSome outside.old.door }
    ensures answer { IfOk result (λ answer. IsAnswer (Serve port connections) accounts.now
        (dealings_of ⟦<Outside<D, L, C, E, P> as Surroundings>⟧.view outside.old outside.new) answer.outcome answer.text.items) }
    ensures door { IsSome outside.new.door ⊎ Rose (P.faults outside.old.spawner) (P.faults outside.new.spawner) }
    ensures kept { AreKept (dealings_of ⟦<Outside<D, L, C, E, P> as Surroundings>⟧.view outside.old outside.new) }
    ensures joined { AreJoined (dealings_of ⟦<Outside<D, L, C, E, P> as Surroundings>⟧.view outside.old outside.new) }
    ensures dialer { outside.new.dialer ≡ outside.old.dialer }
{
    match outside.door.take() {
        Some(door) => {
            let (text, door) = serve_together(
                rt,
                alloc,
                accounts,
                port,
                connections,
                door,
                &mut outside.clock,
                &mut outside.entropy,
                &mut outside.spawner,
            );
            outside.door = door;
            outside.cause = door_cause(&text);
            told(alloc, text)
        }
        None => unreachable!(),
    }
}

/// Does a script as a client of the server at a port.
#[tactic(auto, using(crate::proofs::Dialers::sync_back))]
pub fn synchronise<D: Halves, L: Dialer, C: Clock, E: Entropy, P: Spawner>(
    alloc: Global,
    port: u16,
    script: &[u8],
    outside: &mut Outside<D, L, C, E, P>,
) -> Result<Answer, NoMemory>
    ensures answer { IfOk result (λ answer. IsAnswer (Sync port) script.now
        (dealings_of ⟦<Outside<D, L, C, E, P> as Surroundings>⟧.view outside.old outside.new) answer.outcome answer.text.items) }
    ensures back { IsBack (dealings_of ⟦<Outside<D, L, C, E, P> as Surroundings>⟧.view outside.old outside.new) }
    ensures door { outside.new.door ≡ outside.old.door }
    ensures spawner { outside.new.spawner ≡ outside.old.spawner }
{
    match sync(
        alloc,
        script,
        port,
        &mut outside.dialer,
        &mut outside.entropy,
    ) {
        Ok(text) => Ok(Answer {
            outcome: Outcome::Done,
            text,
        }),
        Err(SyncFault::BadLine { line, why }) => Ok(Answer {
            outcome: Outcome::Refused,
            text: refusal(alloc, line, why)?,
        }),
        Err(SyncFault::Link(failure)) => {
            outside.cause = Some(Cause::Link(failure));
            said(alloc, Outcome::LinkFault, LINK_FAULT_LINE)
        }
        Err(SyncFault::Peer(failure)) => {
            outside.cause = Some(Cause::Peer(failure));
            Ok(Answer {
                outcome: Outcome::PeerFault,
                text: peer_line(alloc, failure)?,
            })
        }
        Err(SyncFault::Entropy) => said(alloc, Outcome::EntropyFault, ENTROPY_FAULT_LINE),
        Err(SyncFault::NoMemory) => Err(NoMemory),
    }
}
