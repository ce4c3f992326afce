//! What is kept, as it is loaded.
//!
//! What is kept is a function of bare addresses (`Tables`), so that an account that isn't there and one without
//! entries are the same. A function can't be the value of a model, so a keeper in memory is seen as what was
//! committed to it (`ChangeView`).
use base_io::{ListOf, Text};
use mam_archive::Entries;
use std::marker::Model;

/// An account's archive as it is kept: the account's bare address, the greatest number given (0 where none was), and
/// the entries, the oldest first.
#[derive(Drop)]
pub struct KeptArchive {
    pub owner: Text,
    pub last: u64,
    pub entries: Entries,
}

impl Model for KeptArchive {
    ghost use Rattle.mam_keep.specs.Kept.{OwnedTable};

    ghost Value = { OwnedTable };

    ghost view = { λ a. record { owner = a.owner; table = record { last = a.last; entries = a.entries.items } } };
}

/// Archives of several accounts.
pub type KeptList = ListOf<KeptArchive>;

/// All that is kept: the number of the next session, and the archives.
#[derive(Drop)]
pub struct Kept {
    pub session: u64,
    pub archives: KeptList,
}

impl Model for Kept {
    ghost use Rattle.mam_keep.specs.Kept.{KeptView};

    ghost Value = { KeptView };

    ghost view = { λ k. record { session = k.session; archives = k.archives.items } };
}
