//! The calls by which a page is found, at an archive in memory.
ghost use Rattle.std.specs.Prelude.{◌≡◌};
ghost use Rattle.mam_archive.specs.Entries.{ArchiveView};
ghost use Rattle.mam_pages.specs.Kept.{Kept, kept_of};

use crate::looks::Look;
use mam_archive::{Archive, Chain, Entry};

/// The calls by which a page is found, at an archive in memory.
#[derive(Drop)]
pub struct ArchiveLook<'a> {
    archive: &'a Archive,
    looks: u64,
}

impl<'a> ArchiveLook<'a> {
    /// Stands for the archive, without a look so far. It takes no memory.
    pub fn new(archive: &'a Archive) -> ArchiveLook<'a>
        ensures archive { ⟦<ArchiveLook<'a> as Look>⟧.archive result ≡ kept_of archive.now }
        ensures looks { ⟦<ArchiveLook<'a> as Look>⟧.looks result ≡ 0 }
    {
        ArchiveLook { archive, looks: 0 }
    }
}

impl Look for ArchiveLook<'_> {
    ghost archive = { λ s. kept_of s.archive.now };

    ghost looks = { λ s. s.looks };

    fn owner(&self) -> &str {
        self.archive.owner()
    }

    fn first(&self) -> u64 {
        self.archive.first()
    }

    fn last(&self) -> u64 {
        self.archive.last()
    }

    fn get(&mut self, number: u64) -> Option<&Entry> {
        self.looks = self.looks.saturating_add(1);
        self.archive.get(number)
    }

    fn first_of(&mut self, peer: &str) -> Option<u64> {
        self.looks = self.looks.saturating_add(1);
        self.archive.first_of(peer)
    }

    fn next_of(&mut self, number: u64) -> Option<u64> {
        self.looks = self.looks.saturating_add(1);
        self.archive.next_of(number)
    }

    fn chain(&mut self, peer: &str) -> Option<Chain> {
        self.looks = self.looks.saturating_add(1);
        self.archive.chain(peer)
    }

    fn previous_of(&mut self, number: u64) -> Option<u64> {
        self.looks = self.looks.saturating_add(1);
        self.archive.previous_of(number)
    }

    fn index_of(&mut self, number: u64) -> Option<u64> {
        self.looks = self.looks.saturating_add(1);
        self.archive.index_of(number)
    }

    fn is_with(&mut self, number: u64, peer: &str) -> bool {
        self.looks = self.looks.saturating_add(1);
        match self.archive.get(number) {
            Some(entry) => entry.peer(self.archive.owner()) == peer,
            None => false,
        }
    }
}
