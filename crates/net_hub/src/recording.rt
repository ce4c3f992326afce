//! What happens to a server, and what it puts out.
ghost use Rattle.std.specs.Prelude.{◌≡◌, ◌<◌, ◌≤◌, ◌^◌, ◌+◌, ◌∷◌, ◌++◌, ℕ, List, [], IfOk, IsTrue, OnErr, OnOk, length};
ghost use Rattle.cmd_journal.specs.AccountsFiles.{IsAccountsFile};
ghost use Rattle.cmd_journal.specs.Journals.{Connect, Gone, Piece, are_bytes as all_bytes, event_view, is_moment};
ghost use Rattle.net_owner.specs.Halves.{AreFirst, IsBlank};
ghost use Rattle.net_hub.specs.Records.{AddsHalf, IsKept, views_of};
ghost use Rattle.net_hub.specs.Sendings.{numbers_of};

use crate::facts::are_bytes;
use crate::joining::join;
use crate::recorder::Recorder;
use crate::sender::Sender;
use crate::sending::{close, send_all};
use base_io::{Bytes, NoMemory};
use cmd_journal::{AccountsFile, Event, LAST_CONNECTION};
use cmd_rerun::server_of;
use net_traits::Outgoing;
use srv_core::Outputs;
use std::alloc::Global;

// Keeps an event for the journal.
#[tactic(auto, using(crate::proofs::MoreEvents::views_more))]
fn add_event(events: &mut Vec<Event>, event: Event) -> Result<(), NoMemory>
    ensures { OnOk result (views_of events.new.items ≡ views_of events.old.items ++ event_view event ∷ []) }
{
    events.push(event)?;
    Ok(())
}

// Keeps the half of a connection that begins.
fn add_half<O: Outgoing + Drop>(senders: &mut Vec<Sender<O>>, half: O) -> Result<(), NoMemory>
    requires { IsBlank (O.told half) }
    ensures added { OnOk result (AddsHalf O.told half senders.old.items senders.new.items) }
    ensures err { OnErr result (senders.new.items ≡ senders.old.items) }
{
    let sender = Sender::new(half);
    senders.push(sender)?;
    Ok(())
}

impl<O: Outgoing + Drop> Recorder<O> {
    /// A server of the accounts of a file, to which nothing has happened yet.
    pub fn new(alloc: Global, file: AccountsFile) -> Result<Recorder<O>, NoMemory>
        requires right { IsAccountsFile file }
        requires few { length file.accounts < 2 ^ 32 }
        ensures kept { IfOk result (λ r. IsKept O.told [] [] r) }
        ensures file { IfOk result (λ r. r.file ≡ file) }
        ensures events { IfOk result (λ r. r.events.items ≡ []) }
        ensures senders { IfOk result (λ r. r.senders.items ≡ []) }
    {
        let server = server_of(alloc, &file)?;
        let events = Vec::new(alloc);
        let senders = Vec::new(alloc);
        Ok(Recorder {
            alloc,
            file,
            server,
            events,
            senders,
        })
    }

    // Connection `k` begins. A server has no room for more connections than a journal has numbers for.
    pub(crate) fn begin(
        &mut self,
        k: u64,
        now: u64,
        entropy: &[u8; 24],
        half: O,
    ) -> Result<(), NoMemory>
        requires kept { (moments drawn : List ℕ) × IsKept O.told moments drawn self.old }
        requires position { k ≡ length (numbers_of O.told self.old.senders.items) + 1 }
        requires moment { IsTrue (is_moment now) }
        requires entropy { IsTrue (all_bytes entropy.now) × (length entropy.now ≡ 24) }
        requires blank { IsBlank (O.told half) }
        ensures events { OnOk result (views_of self.new.events.items ≡ views_of self.old.events.items ++ Connect k now entropy.now ∷ []) }
        ensures half { OnOk result (numbers_of O.told self.new.senders.items ≡ numbers_of O.told self.old.senders.items ++ (O.told half).number ∷ []) }
        ensures halves { AreFirst (numbers_of O.told self.old.senders.items) (numbers_of O.told self.new.senders.items) }
        ensures file { self.new.file ≡ self.old.file }
        ensures kept { (moments drawn : List ℕ) → IsKept O.told moments drawn self.old → OnOk result (IsKept O.told (moments ++ now ∷ []) (drawn ++ entropy.now) self.new) }
    {
        if k > LAST_CONNECTION {
            return Err(NoMemory);
        }
        self.server.connect(k, entropy, now)?;
        let event = Event::Connect {
            connection: k,
            moment: now,
            entropy: *entropy,
        };
        add_event(&mut self.events, event)?;
        add_half(&mut self.senders, half)
    }

    // A piece came on connection `k`, and what it leads to is sent, in one write for each connection that gets bytes.
    pub(crate) fn hear(&mut self, k: u64, now: u64, piece: Bytes) -> Result<(), NoMemory>
        requires position { (1 ≤ k) × (k ≤ length (numbers_of O.told self.old.senders.items)) }
        requires moment { IsTrue (is_moment now) }
        requires some { 0 < length piece.items }
        ensures events { OnOk result (views_of self.new.events.items ≡ views_of self.old.events.items ++ Piece k now piece.items ∷ []) }
        ensures halves { numbers_of O.told self.new.senders.items ≡ numbers_of O.told self.old.senders.items }
        ensures file { self.new.file ≡ self.old.file }
        ensures kept { (moments drawn : List ℕ) → IsKept O.told moments drawn self.old → OnOk result (IsKept O.told (moments ++ now ∷ []) drawn self.new) }
    {
        let read = piece.as_slice();
        are_bytes(read);
        let mut outputs = Outputs::new(self.alloc);
        self.server.bytes(k, read, now, &mut outputs)?;
        let bundles = join(self.alloc, outputs)?;
        let event = Event::Piece {
            connection: k,
            moment: now,
            bytes: piece,
        };
        add_event(&mut self.events, event)?;
        send_all(&mut self.senders, bundles);
        Ok(())
    }

    // Connection `k` is gone, and its half is closed.
    pub(crate) fn leave(&mut self, k: u64, now: u64) -> Result<(), NoMemory>
        requires position { (1 ≤ k) × (k ≤ length (numbers_of O.told self.old.senders.items)) }
        requires moment { IsTrue (is_moment now) }
        ensures events { OnOk result (views_of self.new.events.items ≡ views_of self.old.events.items ++ Gone k now ∷ []) }
        ensures halves { numbers_of O.told self.new.senders.items ≡ numbers_of O.told self.old.senders.items }
        ensures file { self.new.file ≡ self.old.file }
        ensures kept { (moments drawn : List ℕ) → IsKept O.told moments drawn self.old → OnOk result (IsKept O.told (moments ++ now ∷ []) drawn self.new) }
    {
        close(&mut self.senders, k);
        self.server.gone(k, now);
        let event = Event::Gone {
            connection: k,
            moment: now,
        };
        add_event(&mut self.events, event)
    }
}
