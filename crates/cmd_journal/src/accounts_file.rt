//! An accounts file: the domain of a server, and the accounts that exist there.
use base_io::{ListOf, Text};
use cmd_schedule::Version;
use std::marker::Model;

/// An account: the local part of its address (RFC 7622, section 3.3), and its password.
#[derive(Drop)]
pub struct Registration {
    pub name: Text,
    pub password: Text,
}

/// Accounts, in order.
pub type Registrations = ListOf<Registration>;

/// What an accounts file says. In version 1 archives keep all entries, in version 2 their newest so many.
#[derive(Drop)]
pub struct AccountsFile {
    pub version: Version,
    pub domain: Text,
    pub accounts: Registrations,
}

impl Model for AccountsFile {
    ghost use Rattle.cmd_journal.specs.AccountsFiles.{AccountsView};

    ghost Value = { AccountsView };

    ghost view = { λ f. record { version = f.version; domain = f.domain; accounts = f.accounts.items } };
}
