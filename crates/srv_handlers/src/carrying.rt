//! A message is archived, that is told, and stanzas go out: all memory is taken first (XEP-0313, section 5; XEP-0198,
//! section 4).
ghost use Rattle.std.specs.Prelude.{◌≡◌, ◌≢◌, ◌+◌, ◌*◌, ◌≤◌, ℕ, true, [], ◌∷◌, length, nat_eq, OnErr, OnOk, Some};
ghost use Rattle.base_lemmas.specs.Distinct.{are_distinct_by};
ghost use Rattle.srv_state.specs.Handling.{counting};
ghost use Rattle.srv_state.specs.OutgoingStanzas.{sends_of};
ghost use Rattle.srv_state.specs.Seen.{out_of, server_state_of, step_of};
ghost use Rattle.srv_state.specs.Steps.{Archive, Tell, act, acted};
ghost use Rattle.im_forwarding.specs.Passed.{addressed_view};
ghost use Rattle.sm_live.specs.Sessions.{info_of};
ghost use Rattle.srv_handlers.specs.Messages;
ghost use Rattle.srv_handlers.specs.Messages.{telling};
ghost use Rattle.srv_handlers.specs.Parts.{HasRoomAt, after_out};
ghost use Rattle.im_messages.specs.Entries.{entry_of};
ghost use Rattle.srv_route.specs.Routes.{archives_of};
ghost use Rattle.xml_writer.specs.Items.{written_item};

use crate::archives::{append_at, reserve_at};
use crate::entries::{entry_of, took_of};
use crate::outgoing_stanzas::count_of;
use base_io::{Copied, NoMemory};
use im_forwarding::Addressed;
use mam_archive::Entry;
use sm_live::SessionInfo;
use srv_route::Archiving;
use srv_state::{OutgoingStanza, Output, ServerContext};

// Room for so many stanzas, and for one output more.
fn reserve(context: &mut ServerContext, count: u32) -> Result<(), NoMemory>
    ensures step { step_of context.new ≡ step_of context.old }
    ensures room { OnOk result (count ≤ context.new.live.room) }
    ensures out { OnOk result (3 * count + 1 ≤ context.new.out.spare) }
    ensures requests { OnOk result (count ≤ length context.new.prebuilt.requests.items) }
    ensures overflows { OnOk result (count ≤ length context.new.prebuilt.overflows.items) }
{
    context.reserve_stanzas(count)?;
    context.out.reserve(3 * count as usize + 1)?;
    Ok(())
}

// The message counts as handled, it is told that it was archived, and stanzas go out. It takes no memory.
#[tactic(auto, using(std::proofs::lemmas::List::map_push))]
fn send_archived(
    context: &mut ServerContext,
    told: &SessionInfo,
    took: Output,
    outgoing_stanzas: Vec<OutgoingStanza>,
)
    requires told { Some told.now ≡ info_of told.now.number (server_state_of context.old).sessions }
    requires room { length outgoing_stanzas.items ≤ context.old.live.room }
    requires out { 3 * length outgoing_stanzas.items + 1 ≤ context.old.out.spare }
    requires requests { length outgoing_stanzas.items ≤ length context.old.prebuilt.requests.items }
    requires overflows { length outgoing_stanzas.items ≤ length context.old.prebuilt.overflows.items }
    ensures { step_of context.new ≡ acted written_item (sends_of outgoing_stanzas.items) (after_out (out_of took) (acted written_item (counting told.now []) (step_of context.old))) }
{
    context.count(told);
    context.out.push_reserved(took);
    context.send_all(outgoing_stanzas);
}

// An entry goes to the archive of an account. It takes no memory.
#[tactic(auto, using(crate::proofs::ArchivePositions::entry_goes_in))]
fn append(context: &mut ServerContext, account: u32, entry: Entry)
    requires { HasRoomAt account context.old.archives.items }
    ensures step { step_of context.new ≡ act written_item (Archive account entry) (step_of context.old) }
    ensures kept { (other : ℕ) → other ≢ account → HasRoomAt other context.old.archives.items → HasRoomAt other context.new.archives.items }
    ensures live { context.new.live ≡ context.old.live }
    ensures out { context.new.out ≡ context.old.out }
    ensures prebuilt { context.new.prebuilt ≡ context.old.prebuilt }
{
    append_at(&mut context.archives, account, entry);
}

// One that goes to no archive.
#[tactic(auto, using(crate::proofs::Counted::counts_first))]
fn carry(
    context: &mut ServerContext,
    told: &SessionInfo,
    outgoing_stanzas: Vec<OutgoingStanza>,
) -> Result<(), NoMemory>
    requires { Some told.now ≡ info_of told.now.number (server_state_of context.old).sessions }
    ensures ok { OnOk result (step_of context.new ≡ acted written_item (counting told.now (sends_of outgoing_stanzas.items)) (step_of context.old)) }
    ensures err { OnErr result (step_of context.new ≡ step_of context.old) }
{
    let stanzas = count_of(outgoing_stanzas.as_slice())?;
    context.reserve_stanzas(stanzas)?;
    context.count(told);
    context.send_all(outgoing_stanzas);
    Ok(())
}

// One that goes to one archive.
#[tactic(auto, using(crate::proofs::Counted::counts_after_one))]
fn carry_once(
    context: &mut ServerContext,
    told: &SessionInfo,
    account: u32,
    entry: Entry,
    outgoing_stanzas: Vec<OutgoingStanza>,
) -> Result<(), NoMemory>
    requires told { Some told.now ≡ info_of told.now.number (server_state_of context.old).sessions }
    ensures ok { OnOk result (step_of context.new ≡ acted written_item (counting told.now (Archive account entry ∷ Tell entry.from entry.to entry.origin ∷ sends_of outgoing_stanzas.items)) (step_of context.old)) }
    ensures err { OnErr result (step_of context.new ≡ step_of context.old) }
{
    let took = took_of(context.alloc, &entry)?;
    let count = count_of(outgoing_stanzas.as_slice())?;
    reserve(context, count)?;
    reserve_at(&mut context.archives, account)?;
    append(context, account, entry);
    send_archived(context, told, took, outgoing_stanzas);
    Ok(())
}

// One that goes to two.
#[tactic(auto, using(crate::proofs::Counted::counts_after_two))]
fn carry_both(
    context: &mut ServerContext,
    told: &SessionInfo,
    sender: u32,
    recipient: u32,
    entry: Entry,
    outgoing_stanzas: Vec<OutgoingStanza>,
) -> Result<(), NoMemory>
    requires told { Some told.now ≡ info_of told.now.number (server_state_of context.old).sessions }
    requires apart { sender ≢ recipient }
    ensures ok { OnOk result (step_of context.new ≡ acted written_item (counting told.now (Archive sender entry ∷ Archive recipient entry ∷ Tell entry.from entry.to entry.origin ∷ sends_of outgoing_stanzas.items)) (step_of context.old)) }
    ensures err { OnErr result (step_of context.new ≡ step_of context.old) }
{
    let took = took_of(context.alloc, &entry)?;
    let copy = entry.copied(context.alloc)?;
    let count = count_of(outgoing_stanzas.as_slice())?;
    reserve(context, count)?;
    reserve_at(&mut context.archives, sender)?;
    reserve_at(&mut context.archives, recipient)?;
    append(context, sender, entry);
    append(context, recipient, copy);
    send_archived(context, told, took, outgoing_stanzas);
    Ok(())
}

/// The message counts as handled, goes to the archives of these accounts, which are apart, and stanzas go out. `NoMemory` also
/// where one of the archives can take no entry. A refusal leaves all as it was.
pub(crate) fn carry_to(
    context: &mut ServerContext,
    told: &SessionInfo,
    addressed: &Addressed<'_>,
    archiving: Archiving,
    outgoing_stanzas: Vec<OutgoingStanza>,
) -> Result<(), NoMemory>
    requires told { Some told.now ≡ info_of told.now.number (server_state_of context.old).sessions }
    requires apart { are_distinct_by nat_eq (archives_of archiving) ≡ true }
    ensures ok { OnOk result (step_of context.new ≡ acted written_item (counting told.now (Messages.archiving (entry_of 0 (server_state_of context.old).moment (addressed_view addressed.now)) (archives_of archiving) (telling (addressed_view addressed.now) (archives_of archiving) (sends_of outgoing_stanzas.items)))) (step_of context.old)) }
    ensures err { OnErr result (step_of context.new ≡ step_of context.old) }
{
    match archiving {
        Archiving::Nowhere => carry(context, told, outgoing_stanzas),
        Archiving::Once(account) => {
            let entry = entry_of(context.alloc, context.moment, addressed)?;
            carry_once(context, told, account, entry, outgoing_stanzas)
        }
        Archiving::Both(sender, recipient) => {
            let entry = entry_of(context.alloc, context.moment, addressed)?;
            carry_both(context, told, sender, recipient, entry, outgoing_stanzas)
        }
    }
}
