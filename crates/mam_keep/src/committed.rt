//! All appends that a keeper in memory took, and the archives that they come to.
ghost use Rattle.std.specs.Prelude.{◌≡◌, ◌≤◌, Some, IfOk, OnOk, OnErr};
ghost use Rattle.std.specs.List.{AllByRecursion, list_any};
ghost use Rattle.std.specs.Str.{bytes_eq};
ghost use Rattle.mam_archive.specs.Entries.{newest};
ghost use Rattle.mam_keep.specs.Changes.{IsAfter, MayAppend, MayCommit, after, with_entry};
ghost use Rattle.mam_keep.specs.InMemory.{AreCommitted, nothing_committed, tables_after};
ghost use Rattle.mam_keep.specs.Kept.{Differ, IsKeptRight, IsOwnedTable, Tells, blank, table_in};

use crate::change::{Append, Change};
use crate::kept::{Kept, KeptArchive, KeptList};
use base_io::{Copied, ListOf, NoMemory, Text};
use mam_archive::Entry;
use std::alloc::Global;
use std::collections::VecDeque;
use std::marker::Model;

/// An archive while its entries are gathered.
#[derive(Drop)]
struct Gathered {
    last: u64,
    entries: VecDeque<Entry>,
}

impl Model for Gathered {
    ghost use Rattle.mam_keep.specs.Kept.{Table};

    ghost Value = { Table };

    ghost view = { λ g. record { last = g.last; entries = g.entries.items } };
}

/// Drops the oldest entries where more than `keep` stand.
fn drop_past(entries: &mut VecDeque<Entry>, keep: u32)
    ensures { entries.new.items ≡ newest keep entries.old.items }
{
    while entries.len() > keep as usize {
        let _oldest = entries.pop_front();
    }
}

impl Gathered {
    fn new(alloc: Global) -> Gathered
        ensures { result ≡ blank }
    {
        Gathered {
            last: 0,
            entries: VecDeque::new(alloc),
        }
    }

    /// Adds an entry as a commit does.
    fn add(&mut self, alloc: Global, append: &Append) -> Result<(), NoMemory>
        requires { 1 ≤ append.now.entry.number }
        ensures { OnOk result (self.new ≡ with_entry append.now self.old) }
    {
        let number = append.entry.number();
        if number - 1 != self.last {
            self.entries.clear();
        }
        self.entries.push_back(append.entry.copied(alloc)?)?;
        drop_past(&mut self.entries, append.keep);
        self.last = number;
        Ok(())
    }

    fn into_archive(self, owner: Text) -> KeptArchive
        ensures owner { result.owner ≡ owner }
        ensures table { result.table ≡ self }
    {
        KeptArchive {
            owner,
            last: self.last,
            entries: ListOf::from(self.entries.into_vec()),
        }
    }
}

/// An account's archive after all appends.
fn archive_of(alloc: Global, owner: &str, log: &[Append]) -> Result<KeptArchive, NoMemory>
    requires { AllByRecursion MayAppend log.now }
    ensures owner { IfOk result (λ a. a.owner ≡ owner.now) }
    ensures table { IfOk result (λ a. a.table ≡ after owner.now log.now blank) }
{
    let mut gathered = Gathered::new(alloc);
    for append in log {
        if append.owner.as_str() == owner {
            gathered.add(alloc, append)?;
        }
    }
    Ok(gathered.into_archive(Text::from_str(alloc, owner)?))
}

fn is_listed(owner: &str, archives: &[KeptArchive]) -> bool
    ensures { result ≡ list_any (λ a. bytes_eq a.owner owner.now) archives.now }
{
    archives.iter().any(|a| a.owner.as_str() == owner)
}

/// The archive of each account that has an append.
fn archives_of(alloc: Global, log: &[Append]) -> Result<KeptList, NoMemory>
    requires { AreCommitted log.now }
    ensures each { IfOk result (λ archives. AllByRecursion IsOwnedTable archives.items) }
    ensures owners { IfOk result (λ archives. Differ archives.items) }
    ensures told { IfOk result (λ archives. (owner : _) → table_in owner archives.items ≡ after owner log.now blank) }
{
    let mut archives = ListOf::new(alloc);
    for append in log {
        if !is_listed(append.owner.as_str(), archives.as_slice()) {
            archives.push(archive_of(alloc, append.owner.as_str(), log)?)?;
        }
    }
    Ok(archives)
}

/// What was committed: the appends of all changes in order, none at first, and the number of the next session, at first
/// 1. The entries that archives dropped since stay in it.
#[derive(Drop)]
pub(crate) struct Committed {
    session: u64,
    log: Vec<Append>,
}

impl Model for Committed {
    ghost use Rattle.mam_keep.specs.Changes.{ChangeView};
    ghost use Rattle.mam_keep.specs.InMemory.{AreCommitted};
    ghost use Rattle.mam_keep.specs.Kept.{IsSession};

    ghost Value = { ChangeView };

    ghost view = { λ c. record { session = c.session; appends = c.log.items } };

    ghost invariant = { λ c. IsSession c.session × AreCommitted c.log.items };
}

impl Committed {
    /// Nothing was committed yet.
    pub(crate) fn new(alloc: Global) -> Committed
        ensures { result ≡ nothing_committed }
    {
        Committed {
            session: 1,
            log: Vec::new(alloc),
        }
    }

    /// What is kept.
    pub(crate) fn load(&self, alloc: Global) -> Result<Kept, NoMemory>
        ensures kept { IfOk result IsKeptRight }
        ensures told { IfOk result (Tells (Some (tables_after self.now))) }
    {
        Ok(Kept {
            session: self.session,
            archives: archives_of(alloc, self.log.as_slice())?,
        })
    }

    /// Makes a change. All memory is taken before anything changes.
    pub(crate) fn commit(&mut self, alloc: Global, change: &Change) -> Result<(), NoMemory>
        requires { MayCommit change.now (Some (tables_after self.old)) }
        ensures made { OnOk result (IsAfter change.now (tables_after self.old) (tables_after self.new)) }
        ensures same { OnErr result (self.new ≡ self.old) }
    {
        let copies = change.appends.copy(alloc)?;
        self.log.append(&mut copies.into_items())?;
        self.session = change.session;
        Ok(())
    }
}
