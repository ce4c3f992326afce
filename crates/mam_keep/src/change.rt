//! What is committed at once.
use base_io::{Copied, ListOf, NoMemory, Text};
use mam_archive::Entry;
use std::alloc::Global;
use std::marker::Model;

/// An entry that came to the archive of an account, of whose entries the newest `keep` are kept.
#[derive(Drop)]
pub struct Append {
    pub owner: Text,
    pub keep: u32,
    pub entry: Entry,
}

impl Model for Append {
    ghost use Rattle.mam_keep.specs.Changes.{AppendView};

    ghost Value = { AppendView };

    ghost view = { λ a. record { owner = a.owner; keep = a.keep; entry = a.entry } };
}

impl Copied for Append {
    fn copied(&self, alloc: Global) -> Result<Append, NoMemory> {
        Ok(Append {
            owner: self.owner.copied(alloc)?,
            keep: self.keep,
            entry: self.entry.copied(alloc)?,
        })
    }
}

/// Entries that came, in order.
pub type Appends = ListOf<Append>;

/// What one event of a server changed: the number of its next session, and the entries that came.
#[derive(Drop)]
pub struct Change {
    pub session: u64,
    pub appends: Appends,
}

impl Model for Change {
    ghost use Rattle.mam_keep.specs.Changes.{ChangeView};

    ghost Value = { ChangeView };

    ghost view = { λ c. record { session = c.session; appends = c.appends.items } };
}
