//! Accounts and devices as they begin.
ghost use Rattle.std.specs.Prelude.{◌≡◌, IfOk, IsTrue};
ghost use Rattle.cl_core.specs.Making.{account_of, fresh};
ghost use Rattle.cmd_network.specs.Starting;
ghost use Rattle.cmd_report.specs.Addresses;
ghost use Rattle.cmd_schedule.specs.Grammar.{is_name};

use crate::asking::address_of;
use crate::device::Device;
use auth_scram::CredentialsFault;
use base_io::{Copied, NoMemory, Text};
use cl_core::{Client, ClientFault};
use cmd_report::DOMAIN;
use srv_login::Account;
use std::alloc::Global;

// The password of an account.
fn password_of(alloc: Global, account: &str) -> Result<Text, NoMemory>
    ensures { IfOk result (λ password. password ≡ Starting.password_of account.now) }
{
    Ok(Text::from(format!(in alloc; "pw-{account}")?))
}

/// An account as the server has it, with the credentials of its password.
#[tactic(auto, using(crate::proofs::Names::plain_password))]
pub fn account_at_start(alloc: Global, name: &str) -> Result<Account, NoMemory>
    requires { IsTrue (is_name name.now) }
    ensures { IfOk result (λ account. account ≡ Starting.account_at_start name.now) }
{
    let password = password_of(alloc, name)?;
    match Account::with_password(alloc, name, DOMAIN, password.as_str()) {
        Ok(account) => Ok(account),
        Err(CredentialsFault::NoMemory) => Err(NoMemory),
        Err(_) => unreachable!(),
    }
}

// The client of a device.
#[tactic(auto, using(crate::proofs::Names::client_made))]
fn client_at_start(alloc: Global, name: &str, account: &str) -> Result<Client, NoMemory>
    requires name { IsTrue (is_name name.now) }
    requires account { IsTrue (is_name account.now) }
    ensures { IfOk result (λ client. client ≡ fresh (account_of (Addresses.bare_address account.now) account.now (Starting.password_of account.now) name.now)) }
{
    let address = address_of(alloc, account)?;
    let password = password_of(alloc, account)?;
    match Client::new(alloc, &address, password.as_str(), name) {
        Ok(client) => Ok(client),
        Err(ClientFault::NoMemory) => Err(NoMemory),
        Err(_) => unreachable!(),
    }
}

/// A device of an account before its first connection. Its resource is its name.
pub fn device_at_start(alloc: Global, name: &str, account: &str) -> Result<Device, NoMemory>
    requires name { IsTrue (is_name name.now) }
    requires account { IsTrue (is_name account.now) }
    ensures { IfOk result (λ device. device ≡ Starting.device_at_start name.now account.now) }
{
    let own_name = Text::from_str(alloc, name)?;
    let own_account = Text::from_str(alloc, account)?;
    let client = client_at_start(alloc, name, account)?;
    Ok(Device::new(alloc, own_name, own_account, client))
}
