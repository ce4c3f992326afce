//! Archives take a message (XEP-0313, section 5): memory for an entry first, and then the entry.
ghost use Rattle.std.specs.Prelude.{◌≡◌, ◌≢◌, ◌==◌, ℕ, OnOk, map};
ghost use Rattle.std.specs.List.{list_any};
ghost use Rattle.srv_state.specs.Seen.{kept_of, server_state_of};
ghost use Rattle.srv_state.specs.State.{archive_at};
ghost use Rattle.srv_state.specs.Steps.{appended};
ghost use Rattle.srv_handlers.specs.Messages;
ghost use Rattle.srv_handlers.specs.Messages.{is_full_in};
ghost use Rattle.srv_handlers.specs.Parts.{HasRoom, HasRoomAt, seen_at, with_entry};
ghost use Rattle.srv_route.specs.Routes.{archives_of};

use base_io::NoMemory;
use mam_archive::{Archive, Entry, GREATEST_NUMBER};
use srv_route::Archiving;
use srv_state::ServerContext;

// Whether a message goes to an account's archive.
fn is_in(archiving: Archiving, account: u32) -> bool
    ensures { result ≡ list_any (λ other. other == account) (archives_of archiving) }
{
    match archiving {
        Archiving::Nowhere => false,
        Archiving::Once(one) => one == account,
        Archiving::Both(one, other) => one == account || other == account,
    }
}

// Whether an account's archive can take no entry.
#[tactic(auto, using(crate::proofs::ArchivePositions::seen_there))]
fn is_full_at(context: &ServerContext, account: u32) -> bool
    ensures { result ≡ Messages.is_full_at (archive_at account (server_state_of context.now)) }
{
    match context.archives.get(account as usize) {
        Some(archive) => GREATEST_NUMBER <= archive.last(),
        None => false,
    }
}

/// Whether an archive that a message goes to can take no entry.
pub(crate) fn is_full(context: &ServerContext, archiving: Archiving) -> bool
    ensures { result ≡ is_full_in (archives_of archiving) (server_state_of context.now) }
{
    match archiving {
        Archiving::Nowhere => false,
        Archiving::Once(account) => is_full_at(context, account),
        Archiving::Both(one, other) => is_full_at(context, one) || is_full_at(context, other),
    }
}

// The number of the next entry of an account's archive.
#[tactic(auto, using(crate::proofs::ArchivePositions::seen_there))]
fn number_after(context: &ServerContext, account: u32) -> Option<u64>
    ensures { result ≡ Messages.number_after (archive_at account (server_state_of context.now)) }
{
    match context.archives.get(account as usize) {
        Some(archive) => Some(archive.last() + 1),
        None => None,
    }
}

/// The number that a message gets in an account's archive, where it goes there.
pub(crate) fn number_in(context: &ServerContext, account: u32, archiving: Archiving) -> Option<u64>
    ensures { result ≡ Messages.number_in account (archives_of archiving) (server_state_of context.now) }
{
    if is_in(archiving, account) {
        number_after(context, account)
    } else {
        None
    }
}

// Memory for an entry.
fn reserve(archive: &mut Archive) -> Result<(), NoMemory>
    ensures seen { kept_of archive.new ≡ kept_of archive.old }
    ensures room { OnOk result (HasRoom archive.new) }
    ensures kept { HasRoom archive.old → HasRoom archive.new }
{
    match archive.reserve() {
        Ok(()) => Ok(()),
        Err(_) => Err(NoMemory),
    }
}

/// Memory for an entry in the archive of an account. `NoMemory` also where the archive can take none, which is asked
/// before. The room of the others stays.
#[tactic(auto, using(crate::proofs::ArchivePositions::seen_same, crate::proofs::ArchivePositions::room_there, crate::proofs::ArchivePositions::room_kept))]
pub(crate) fn reserve_at(archives: &mut Vec<Archive>, account: u32) -> Result<(), NoMemory>
    ensures seen { map kept_of archives.new.items ≡ map kept_of archives.old.items }
    ensures room { OnOk result (HasRoomAt account archives.new.items) }
    ensures kept { (other : ℕ) → HasRoomAt other archives.old.items → HasRoomAt other archives.new.items }
{
    match archives.get_mut(account as usize) {
        Some(archive) => reserve(archive),
        None => Ok(()),
    }
}

// An entry more.
fn append(archive: &mut Archive, entry: Entry)
    requires { HasRoom archive.old }
    ensures { kept_of archive.new ≡ appended entry (kept_of archive.old) }
{
    let _ = archive.append_reserved(entry);
}

/// An entry more in the archive of an account. It takes no memory, and the room of the others stays.
#[tactic(auto, using(crate::proofs::ArchivePositions::seen_longer, crate::proofs::ArchivePositions::room_of, crate::proofs::ArchivePositions::room_apart))]
pub(crate) fn append_at(archives: &mut Vec<Archive>, account: u32, entry: Entry)
    requires { HasRoomAt account archives.old.items }
    ensures seen { map kept_of archives.new.items ≡ with_entry entry account (seen_at account archives.old.items) (map kept_of archives.old.items) }
    ensures kept { (other : ℕ) → other ≢ account → HasRoomAt other archives.old.items → HasRoomAt other archives.new.items }
{
    match archives.get_mut(account as usize) {
        Some(archive) => append(archive, entry),
        None => {}
    }
}
