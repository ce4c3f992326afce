//! How a client is made.
ghost use Rattle.std.specs.Prelude.{◌≡◌, ◌⊎◌, Err, IfOk};
ghost use Rattle.std.specs.List.{list_all};
ghost use Rattle.cl_core.specs.Making.{account_of, made};
ghost use Rattle.auth_scram.specs.Exchange;

use crate::client::Client;
use crate::faults::ClientFault;
use auth_scram::Password;
use base_io::{NoMemory, Text};
use cl_handlers::Account;
use cl_login::ClientAccount;
use im_jid::{Jid, JidFault, resource_in_normal_form};
use std::alloc::Global;

// Whether a byte is printable ASCII.
fn is_printable_ascii(byte: u8) -> bool
    ensures { result ≡ Exchange.is_printable_ascii byte }
{
    32 <= byte && byte <= 126
}

fn are_printable_ascii(bytes: &[u8]) -> bool
    ensures { result ≡ list_all Exchange.is_printable_ascii bytes.now }
{
    bytes.iter().all(|b| is_printable_ascii(*b))
}

// Whether a login takes a password (RFC 5802, section 5.1): it is printable ASCII, and not empty.
fn is_plain(password: &str) -> bool
    ensures { result ≡ Exchange.is_plain password.now }
{
    let bytes = password.as_bytes();
    bytes.len() > 0 && are_printable_ascii(bytes)
}

// The account of a bare address with this local part.
fn account_of(
    alloc: Global,
    address: &Jid,
    local: &str,
    password: &str,
    resource: Text,
) -> Result<Account, NoMemory>
    ensures { IfOk result (λ account. account ≡ account_of address.now local.now password.now resource) }
{
    Ok(Account {
        bare: Text::from_str(alloc, address.text())?,
        resource,
        login: ClientAccount {
            name: Text::from_str(alloc, local)?,
            domain: Text::from_str(alloc, address.domain())?,
            password: Password::from_str(alloc, password)?,
        },
    })
}

impl Client {
    /// A client of an account before its first connection. The refusals come in this order: `BadAccount` where the address
    /// has a resource or no local part; `BadPassword` where the password is empty or not printable ASCII, which a login
    /// doesn't take; `BadResource` where the resource is none of an address. The resource is kept in its normal form.
    pub fn new(
        alloc: Global,
        address: &Jid,
        password: &str,
        resource: &str,
    ) -> Result<Client, ClientFault>
        ensures { (result ≡ Err ClientFault.NoMemory) ⊎ (result ≡ made address.now password.now resource.now) }
    {
        let Some(local) = address.local() else {
            return Err(ClientFault::BadAccount);
        };
        if address.resource().is_some() {
            return Err(ClientFault::BadAccount);
        }
        if !is_plain(password) {
            return Err(ClientFault::BadPassword);
        }
        let resource = match resource_in_normal_form(alloc, resource) {
            Ok(resource) => resource,
            Err(JidFault::NoMemory) => return Err(ClientFault::NoMemory),
            Err(_) => return Err(ClientFault::BadResource),
        };
        let account = account_of(alloc, address, local, password, resource)?;
        Ok(Client::of(alloc, account))
    }
}
