//! What a server puts out goes to the halves of its connections.
ghost use Rattle.std.specs.Prelude.{◌≡◌, ◌<◌, ◌+◌, ◌⊎◌, ◌++◌, ℕ, List, [], true, if◌then◌else◌, length, MatchOption};
ghost use Rattle.srv_state.specs.State.{is_number};
ghost use Rattle.net_hub.specs.Bundles.{IsShutFor, bytes_for};
ghost use Rattle.net_hub.specs.Sendings.{AreClosed, HaveSent, IsClosed, StayClosed, numbers_of};

use crate::bundle::Bundle;
use crate::joining::Bundles;
use crate::sender::Sender;
use net_traits::Outgoing;

// The index of a connection's half.
fn index_of<O>(senders: &[Sender<O>], conn: u64) -> Option<usize>
    ensures { MatchOption result ((conn ≡ 0) ⊎ (length senders.now < conn)) (λ i. (i + 1 ≡ conn) × (i < length senders.now)) }
{
    if conn == 0 {
        return None;
    }
    if conn > senders.len() as u64 {
        return None;
    }
    Some((conn - 1) as usize)
}

// Writes bytes on a connection's half.
fn put<O: Outgoing>(senders: &mut Vec<Sender<O>>, conn: u64, bytes: &[u8])
    ensures numbers { numbers_of O.told senders.new.items ≡ numbers_of O.told senders.old.items }
    ensures sent { (before : ℕ → List ℕ) → HaveSent O.told before senders.old.items → HaveSent O.told (λ k. before k ++ (if is_number k conn then bytes.now else [])) senders.new.items }
    ensures closed { StayClosed O.closed senders.old.items senders.new.items }
{
    match index_of(senders.as_slice(), conn) {
        Some(index) => senders[index].put(bytes),
        None => {}
    }
}

/// Ends the link of a connection.
pub fn close<O: Outgoing>(senders: &mut Vec<Sender<O>>, conn: u64)
    ensures numbers { numbers_of O.told senders.new.items ≡ numbers_of O.told senders.old.items }
    ensures sent { (bytes : ℕ → List ℕ) → HaveSent O.told bytes senders.old.items → HaveSent O.told bytes senders.new.items }
    ensures closed { StayClosed O.closed senders.old.items senders.new.items }
    ensures this { (i : ℕ) → i + 1 ≡ conn → i < length senders.old.items → IsClosed O.closed senders.new.items i }
{
    match index_of(senders.as_slice(), conn) {
        Some(index) => senders[index].close(),
        None => {}
    }
}

/// Ends all links.
pub fn close_all<O: Outgoing>(senders: &mut Vec<Sender<O>>)
    ensures numbers { numbers_of O.told senders.new.items ≡ numbers_of O.told senders.old.items }
    ensures closed { AreClosed O.closed senders.new.items }
{
    let count = senders.as_slice().len() as u64;
    for conn in 0..count {
        close(senders, conn + 1);
    }
}

// Writes what a bundle has for a connection, at once, and then ends its link where it is shut.
fn send<O: Outgoing>(senders: &mut Vec<Sender<O>>, conn: u64, bundle: &Bundle)
    ensures numbers { numbers_of O.told senders.new.items ≡ numbers_of O.told senders.old.items }
    ensures sent { (before : ℕ → List ℕ) → HaveSent O.told before senders.old.items → HaveSent O.told (λ k. before k ++ (if is_number k conn then bundle.now.bytes.items else [])) senders.new.items }
    ensures closed { StayClosed O.closed senders.old.items senders.new.items }
    ensures shut { bundle.now.shut ≡ true → (i : ℕ) → i + 1 ≡ conn → i < length senders.old.items → IsClosed O.closed senders.new.items i }
{
    put(senders, conn, bundle.bytes.as_slice());
    if bundle.shut {
        close(senders, conn);
    }
}

/// Sends what each connection gets, at once, and ends the links of connections that are shut. It takes no memory.
pub fn send_all<O: Outgoing>(senders: &mut Vec<Sender<O>>, bundles: Bundles)
    ensures numbers { numbers_of O.told senders.new.items ≡ numbers_of O.told senders.old.items }
    ensures sent { (before : ℕ → List ℕ) → HaveSent O.told before senders.old.items → HaveSent O.told (λ k. before k ++ bytes_for k bundles) senders.new.items }
    ensures closed { StayClosed O.closed senders.old.items senders.new.items }
    ensures shut { (i : ℕ) → IsShutFor (i + 1) bundles → i < length senders.old.items → IsClosed O.closed senders.new.items i }
{
    let mut rest = bundles;
    while let Some((conn, bundle)) = rest.pop_first() {
        send(senders, conn, &bundle);
    }
}
