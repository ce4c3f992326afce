//! Archives that were kept, and the moment at which a server goes on with them.
ghost use Rattle.std.specs.Prelude.{◌≡◌, ◌<◌, Some, length, map};
ghost use Rattle.std.specs.List.{slice_get};
ghost use Rattle.srv_core.specs.Restarts.{greatest, stamp_of, stamps_of};
ghost use Rattle.srv_state.specs.Seen.{kept_of};

use base_io::ListOf;
use mam_archive::{Archive, Entry};

/// Archives, in order.
pub type Archives = ListOf<Archive>;

// The entry at a place of an archive, from 0.
fn entry_at(archive: &Archive, position: u64) -> &Entry
    requires { position < length archive.now.entries }
    ensures { slice_get archive.now.entries position ≡ Some result.now }
{
    match archive.get(archive.first() + position) {
        Some(entry) => entry,
        None => unreachable!(),
    }
}

// The greatest of a moment and the stamps of an archive's entries.
fn greatest_in(archive: &Archive, now: u64) -> u64
    ensures { result ≡ greatest now (map stamp_of archive.now.entries) }
{
    let mut moment = now;
    for position in 0..archive.len() {
        moment = moment.max(entry_at(archive, position).message().stamp);
    }
    moment
}

/// The greatest of a moment and the stamps of all entries.
#[tactic(auto, using(crate::proofs::Restarts::archive_more))]
pub(crate) fn greatest_of(archives: &[Archive], now: u64) -> u64
    ensures { result ≡ greatest now (stamps_of (map kept_of archives.now)) }
{
    let mut moment = now;
    for archive in archives {
        moment = greatest_in(archive, moment);
    }
    moment
}
