//! The accounts of a server, found by their names.
ghost use Rattle.std.specs.Prelude.{◌≡◌, ◌≢◌, ◌+◌, ◌^◌, ◌<◌, ◌≤◌, ◌==◌, [], ◌∷◌, ◌++◌, None, Some, length, slice_get, IfErr, IfOk, IfSome, OnErr, OnOk};
ghost use Rattle.std.specs.Option.{option_copied, option_map};
ghost use Rattle.base_io.specs.Names.{position_of};
ghost use Rattle.srv_login.specs.Accounts.{account_named, accounts_fault, fault_of, found_view, is_normal_local, names_of};

use crate::account::{Account, AccountList};
use crate::accounts_fault::AccountsFault;
use auth_scram::Credentials;
use base_io::{NameIndex, NoMemory};
use im_jid::{JidFault, local_in_normal_form};
use std::alloc::Global;
use std::marker::Model;

/// The accounts of a server. Their names are local parts in normal form and differ, so that each is found by its
/// name. Contracts see the list of the accounts.
#[derive(Drop)]
pub struct Accounts {
    index: NameIndex,
    accounts: AccountList,
}

impl Model for Accounts {
    ghost use Rattle.std.specs.Prelude.{List};
    ghost use Rattle.srv_login.specs.Accounts.{IsIndexed};
    ghost use Rattle.srv_login.specs.declared.account.Account.{Account};

    ghost Value = { List Account };

    ghost view = { λ a. a.accounts.items };

    ghost invariant = { λ a. IsIndexed a.index a.accounts.items };
}

/// An account that was found: its place from 0, and its credentials.
#[derive(Clone, Copy)]
pub struct Found<'a> {
    pub position: u32,
    pub credentials: &'a Credentials,
}

// Whether a name is a local part in normal form (RFC 7622, section 3.3).
fn is_normal_local(alloc: Global, name: &str) -> Result<bool, NoMemory>
    ensures { IfOk result (λ is. is ≡ is_normal_local name.now) }
{
    match local_in_normal_form(alloc, name) {
        Ok(form) => Ok(form.as_str() == name),
        Err(JidFault::NoMemory) => Err(NoMemory),
        Err(_) => Ok(false),
    }
}

impl Accounts {
    /// The accounts of a list. The first account that is wrong is refused, and of one account a name that is no local
    /// part in normal form (`BadName`), one that an earlier account has (`Twice`), and credentials that count no
    /// iteration (`NoIterations`), in this order.
    pub fn new(alloc: Global, list: AccountList) -> Result<Accounts, AccountsFault>
        requires few { length list.items < 2 ^ 32 }
        ensures made { IfOk result (λ accounts. accounts ≡ list.items) }
        ensures right { OnOk result (accounts_fault list.items ≡ None) }
        ensures refused { IfErr result (λ e. e ≢ AccountsFault.NoMemory → accounts_fault list.items ≡ Some e) }
    {
        let mut accounts = Accounts::none(alloc);
        for account in list.into_items() {
            accounts.add(alloc, account)?;
        }
        Ok(accounts)
    }

    // No accounts.
    fn none(alloc: Global) -> Accounts
        ensures none { result ≡ [] }
    {
        Accounts {
            index: NameIndex::new(alloc),
            accounts: AccountList::new(alloc),
        }
    }

    // Whether an account may stand behind these, and else why not.
    fn judge(&self, alloc: Global, account: &Account) -> Result<(), AccountsFault>
        ensures ok { OnOk result (fault_of self.now account.now ≡ None) }
        ensures refused { IfErr result (λ e. e ≢ AccountsFault.NoMemory → fault_of self.now account.now ≡ Some e) }
    {
        let position = self.len();
        if !is_normal_local(alloc, account.name.as_str())? {
            return Err(AccountsFault::BadName(position));
        }
        if self.index.contains(account.name.as_str()) {
            return Err(AccountsFault::Twice(position));
        }
        if account.credentials.iterations == 0 {
            return Err(AccountsFault::NoIterations(position));
        }
        Ok(())
    }

    // Adds an account behind the others, or leaves them.
    fn add(&mut self, alloc: Global, account: Account) -> Result<(), AccountsFault>
        requires few { length self.old + 1 < 2 ^ 32 }
        ensures ok { OnOk result (self.new ≡ self.old ++ account ∷ []) }
        ensures err { OnErr result (self.new ≡ self.old) }
        ensures refused { IfErr result (λ e. e ≢ AccountsFault.NoMemory → fault_of self.old account ≡ Some e) }
    {
        self.judge(alloc, &account)?;
        self.accounts.reserve(1)?;
        self.index.add(alloc, account.name.as_str())?;
        self.accounts.push_reserved(account);
        Ok(())
    }

    /// The accounts, in order.
    pub fn as_slice(&self) -> &[Account]
        ensures accounts { result.now ≡ self.now }
        ensures right { accounts_fault self.now ≡ None }
        ensures few { length self.now < 2 ^ 32 }
    {
        self.accounts.as_slice()
    }

    /// How many accounts there are.
    pub fn len(&self) -> u32
        ensures { result ≡ length self.now }
    {
        self.as_slice().len() as u32
    }

    /// Whether there is none.
    pub fn is_empty(&self) -> bool
        ensures { result ≡ (length self.now == 0) }
    {
        self.as_slice().is_empty()
    }

    /// The account at a place. `None` exactly where there is none.
    pub fn get(&self, position: u32) -> Option<&Account>
        ensures { option_copied result ≡ slice_get self.now position }
    {
        self.as_slice().get(position as usize)
    }

    /// The place of the account with a name, from 0. It is found in a time that grows with the logarithm of their number.
    pub fn position(&self, name: &str) -> Option<u32>
        ensures position { result ≡ position_of name.now (names_of self.now) }
        ensures there { IfSome result (λ position. position < length self.now) }
    {
        let position = self.index.find(name)?;
        Some(position as u32)
    }

    /// The place and the credentials of the account with a name, in the time of `position`. `None` exactly where no
    /// account has it.
    pub fn find(&self, name: &str) -> Option<Found<'_>>
        ensures found { option_map found_view result ≡ account_named name.now self.now }
        ensures counted { IfSome result (λ found. 1 ≤ found.credentials.now.iterations) }
    {
        match self.position(name) {
            None => None,
            Some(position) => {
                let account = &self.as_slice()[position as usize];
                Some(Found {
                    position,
                    credentials: &account.credentials,
                })
            }
        }
    }
}
