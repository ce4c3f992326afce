//! The names of accounts, with what is made of each once.
ghost use Rattle.std.specs.Prelude.{◌≡◌, IfOk};
ghost use Rattle.cmd_report.specs.Addresses.{bare_address};

use base_io::{NoMemory, Text};
use cmd_report::bare_address;
use std::alloc::Global;
use std::marker::Model;

/// An account's name, and its bare address, each made once for all messages that have it. Contracts see the name.
#[derive(Drop)]
pub(crate) struct AccountName {
    name: Text,
    address: Text,
}

impl Model for AccountName {
    ghost use Rattle.std.specs.Prelude.{◌≡◌, ℕ, List};
    ghost use Rattle.cmd_report.specs.Addresses.{bare_address};

    ghost Value = { List ℕ };

    ghost view = { λ a. a.name };

    ghost invariant = { λ a. a.address ≡ bare_address a.name };
}

impl AccountName {
    /// The name of an account.
    pub(crate) fn new(alloc: Global, name: &str) -> Result<AccountName, NoMemory>
        ensures { IfOk result (λ a. a ≡ name.now) }
    {
        Ok(AccountName {
            name: Text::from_str(alloc, name)?.shared()?,
            address: bare_address(alloc, name)?.shared()?,
        })
    }

    /// The name, whose copies share its characters.
    pub(crate) fn text(&self) -> &Text
        ensures { result.now ≡ self.now }
    {
        &self.name
    }

    /// The account's bare address, whose copies share its characters.
    pub(crate) fn address(&self) -> &Text
        ensures { result.now ≡ bare_address self.now }
    {
        &self.address
    }

    /// The name alone.
    pub(crate) fn into_text(self) -> Text
        ensures { result ≡ self }
    {
        self.name
    }
}
