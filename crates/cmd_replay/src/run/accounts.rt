//! The accounts of a run, each with its archive.
ghost use Rattle.std.specs.Prelude.{◌≡◌, ◌≢◌, ℕ, ◌+◌, ◌<◌, ◌≤◌, false, List, [], ◌∷◌, ◌++◌, length, map, slice_get, slice_index, slice_index_or, OnOk, OnErr, IfOk, IfSome, IfNone};
ghost use Rattle.std.specs.List.{All};
ghost use Rattle.cmd_schedule.specs.Contents.{account_name, accounts_of};
ghost use Rattle.base_io.specs.Names.{is_among};
ghost use Rattle.cmd_replay.specs.Homes.{Home, home_of_account, names_of, empty_home, appended_at, delivered};
ghost use Rattle.base_io.specs.Names.{position_of};
ghost use Rattle.cmd_schedule.specs.Schedules.{steps_of};
ghost use Rattle.cmd_schedule.specs.Standing.{AreRight};

use crate::run::account_names::AccountName;
use base_io::{Copied, NameIndex, NoMemory};
use cmd_schedule::{Line, Step};
use mam_archive::{Archive, ArchiveFault, Entry};
use std::alloc::Global;
use std::marker::Model;

/// An account and its archive.
#[derive(Drop)]
pub(crate) struct Account {
    pub(crate) name: AccountName,
    pub(crate) archive: Archive,
}

/// Accounts, found by their names. Each archive keeps its newest `keep` entries.
#[derive(Drop)]
pub(crate) struct Accounts {
    keep: u32,
    index: NameIndex,
    accounts: Vec<Account>,
}

impl Model for Accounts {
    ghost use Rattle.std.specs.Prelude.{◌≡◌, ◌≤◌, map};
    ghost use Rattle.std.specs.List.{All};
    ghost use Rattle.cmd_replay.specs.Homes.{HomesView, Keeps, home_of_account, room_of_account, names_of};

    ghost Value = { HomesView };

    ghost view = { λ a. record { keep = a.keep; homes = map home_of_account a.accounts.items; rooms = map room_of_account a.accounts.items } };

    ghost invariant = { λ a. (a.index ≡ names_of (map home_of_account a.accounts.items)) × (1 ≤ a.keep) × All (Keeps a.keep) a.accounts.items };
}

impl Accounts {
    /// No accounts, whose archives are to keep so many entries. It takes no memory.
    pub(crate) fn new(alloc: Global, keep: u32) -> Accounts
        requires { 1 ≤ keep }
        ensures homes { result.homes ≡ [] }
        ensures keep { result.keep ≡ keep }
    {
        Accounts {
            keep,
            index: NameIndex::new(alloc),
            accounts: Vec::new(alloc),
        }
    }

    /// Adds an account with an empty archive behind the others.
    pub(crate) fn add(&mut self, alloc: Global, name: &str) -> Result<(), NoMemory>
        requires { is_among name.now (names_of self.old.homes) ≡ false }
        ensures ok { OnOk result (self.new.homes ≡ self.old.homes ++ empty_home name.now ∷ []) }
        ensures err { OnErr result (self.new.homes ≡ self.old.homes) }
        ensures keep { self.new.keep ≡ self.old.keep }
    {
        let named = AccountName::new(alloc, name)?;
        let owner = named.address().copied(alloc)?;
        let account = Account {
            name: named,
            archive: Archive::new(alloc, owner, self.keep),
        };
        self.accounts.reserve(1)?;
        self.index.add(alloc, name)?;
        match self.accounts.push(account) {
            Ok(()) => Ok(()),
            Err(_) => unreachable!(),
        }
    }

    /// Adds the account that a step declares, if it declares one.
    fn declare(&mut self, alloc: Global, step: &Step) -> Result<(), NoMemory>
        requires { (name : List ℕ) → step.now ≡ Step.Account name → is_among name (names_of self.old.homes) ≡ false }
        ensures homes { OnOk result (self.new.homes ≡ self.old.homes ++ map empty_home (account_name step.now)) }
        ensures keep { self.new.keep ≡ self.old.keep }
    {
        match step {
            Step::Account(name) => self.add(alloc, name.as_str()),
            _ => Ok(()),
        }
    }

    /// The accounts that lines declare anywhere, each with an empty archive.
    pub(crate) fn of_lines(alloc: Global, keep: u32, lines: &[Line]) -> Result<Accounts, NoMemory>
        requires right { AreRight (steps_of lines.now) }
        requires some { 1 ≤ keep }
        ensures homes { IfOk result (λ accounts. accounts.homes ≡ map empty_home (accounts_of (steps_of lines.now))) }
        ensures keep { IfOk result (λ accounts. accounts.keep ≡ keep) }
    {
        let mut accounts = Accounts::new(alloc, keep);
        for line in lines {
            accounts.declare(alloc, &line.step)?;
        }
        Ok(accounts)
    }

    /// The place of an account, from 0.
    pub(crate) fn find(&self, name: &str) -> Option<usize>
        ensures position { result ≡ position_of name.now (names_of self.now.homes) }
        ensures there { IfSome result (λ i. (i < length self.now.homes) × (slice_get (names_of self.now.homes) i ≡ Some name.now)) }
        ensures nowhere { IfNone result (is_among name.now (names_of self.now.homes) ≡ false) }
    {
        self.index.find(name)
    }

    /// The name of the account at a place.
    pub(crate) fn name(&self, position: usize) -> &AccountName
        requires { position < length self.now.homes }
        ensures { slice_get (names_of self.now.homes) position ≡ Some result.now }
    {
        &self.accounts[position].name
    }

    /// The archive of the account at a place.
    pub(crate) fn archive(&self, position: usize) -> &Archive
        requires { position < length self.now.homes }
        ensures entries { (d : Home) → result.now.entries ≡ (slice_index_or self.now.homes position d).entries }
        ensures last { (d : Home) → result.now.last ≡ (slice_index_or self.now.homes position d).last }
    {
        &self.accounts[position].archive
    }

    /// Makes room for one entry more in the archive at a place, and changes nothing else.
    fn reserve(&mut self, position: usize) -> Result<(), NoMemory>
        requires there { position < length self.old.homes }
        requires few { All (λ (home : Home). home.last < 4294967295) self.old.homes }
        ensures ok { OnOk result (1 ≤ slice_index self.new.rooms position) }
        ensures homes { self.new.homes ≡ self.old.homes }
        ensures keep { self.new.keep ≡ self.old.keep }
        ensures others { (k : ℕ) → slice_index self.old.rooms k ≤ slice_index self.new.rooms k }
    {
        match self.accounts[position].archive.reserve() {
            Ok(()) => Ok(()),
            Err(ArchiveFault::NoMemory) => Err(NoMemory),
            Err(ArchiveFault::Full) => unreachable!(),
        }
    }

    /// Adds an entry at the end of the archive at a place. It takes no memory.
    fn append(&mut self, position: usize, entry: Entry)
        requires there { position < length self.old.homes }
        requires few { All (λ (home : Home). home.last < 4294967295) self.old.homes }
        requires room { 1 ≤ slice_index self.old.rooms position }
        ensures homes { self.new.homes ≡ appended_at self.old.keep position entry self.old.homes }
        ensures keep { self.new.keep ≡ self.old.keep }
        ensures others { (k : ℕ) → k ≢ position → slice_index self.old.rooms k ≤ slice_index self.new.rooms k }
    {
        self.accounts[position].archive.append_reserved(entry);
    }

    /// Adds an entry to the archives at two places, or once where they are the same. A refusal leaves every archive
    /// as it was.
    #[tactic(auto, using(crate::proofs::HomeLists::fewer, crate::proofs::HomeLists::few_after, crate::proofs::HomeLists::appended_length))]
    pub(crate) fn deliver(
        &mut self,
        alloc: Global,
        from: usize,
        to: usize,
        entry: Entry,
    ) -> Result<(), NoMemory>
        requires from { from < length self.old.homes }
        requires to { to < length self.old.homes }
        requires few { All (λ (home : Home). home.last < 4294967294) self.old.homes }
        ensures ok { OnOk result (self.new.homes ≡ delivered self.old.keep from to entry self.old.homes) }
        ensures err { OnErr result (self.new.homes ≡ self.old.homes) }
        ensures keep { self.new.keep ≡ self.old.keep }
    {
        self.reserve(from)?;
        if from == to {
            self.append(from, entry);
            return Ok(());
        }
        let copy = entry.copied(alloc)?;
        self.reserve(to)?;
        self.append(from, entry);
        self.append(to, copy);
        Ok(())
    }

    /// The accounts, in order.
    pub(crate) fn into_accounts(self) -> Vec<Account>
        ensures { map home_of_account result.items ≡ self.homes }
    {
        self.accounts
    }
}
