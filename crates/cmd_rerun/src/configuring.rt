//! The server of an accounts file, with which a run begins.
ghost use Rattle.std.specs.Prelude.{◌≡◌, ◌≤◌, ◌<◌, ◌^◌, None, IfOk, IsTrue, length};
ghost use Rattle.std.specs.List.{list_all};
ghost use Rattle.cmd_journal.specs.AccountsFiles.{IsAccountsFile};
ghost use Rattle.cmd_rerun.specs.Reruns.{account_at, accounts_at, has_password, run_at_start};
ghost use Rattle.srv_core.specs.Configs.{at_start, config_fault};

use auth_scram::CredentialsFault;
use base_io::{NoMemory, Text};
use cmd_journal::{AccountsFile, Registration};
use srv_core::{Config, ConfigFault, Server};
use srv_login::{Account, AccountList};
use std::alloc::Global;

/// The account of a line, with the credentials of its password.
#[tactic(auto, using(crate::proofs::AccountsAtStart::plain_password))]
fn account_at(alloc: Global, domain: &str, r: &Registration) -> Result<Account, NoMemory>
    requires { IsTrue (has_password r.now) }
    ensures { IfOk result (λ account. account ≡ account_at domain.now r.now) }
{
    match Account::with_password(alloc, r.name.as_str(), domain, r.password.as_str()) {
        Ok(account) => Ok(account),
        Err(CredentialsFault::NoMemory) => Err(NoMemory),
        Err(_) => unreachable!(),
    }
}

/// The accounts of lines, in their order.
#[tactic(auto, using(crate::proofs::AccountsAtStart::as_many))]
fn accounts_at(
    alloc: Global,
    domain: &str,
    registrations: &[Registration],
) -> Result<AccountList, NoMemory>
    requires { IsTrue (list_all has_password registrations.now) }
    ensures made { IfOk result (λ accounts. accounts.items ≡ accounts_at domain.now registrations.now) }
    ensures as_many { IfOk result (λ accounts. length accounts.items ≡ length registrations.now) }
{
    let mut accounts = AccountList::new(alloc);
    for r in registrations {
        let account = account_at(alloc, domain, r)?;
        accounts.push(account)?;
    }
    Ok(accounts)
}

/// A server with which nothing is wrong.
fn begun(alloc: Global, config: Config) -> Result<Server, NoMemory>
    requires right { config_fault config.domain config.accounts.items ≡ None }
    requires few { length config.accounts.items < 2 ^ 32 }
    requires keep { 1 ≤ config.keep }
    ensures { IfOk result (λ server. server ≡ at_start config.domain config.accounts.items config.keep) }
{
    match Server::new(alloc, config) {
        Ok(server) => Ok(server),
        Err(ConfigFault::NoMemory) => Err(NoMemory),
        Err(_) => unreachable!(),
    }
}

/// A server of the accounts of a file, without connections.
#[tactic(auto, using(crate::proofs::AccountsAtStart::some_kept))]
pub fn server_of(alloc: Global, file: &AccountsFile) -> Result<Server, NoMemory>
    requires right { IsAccountsFile file.now }
    requires few { length file.now.accounts < 2 ^ 32 }
    ensures { IfOk result (λ server. server ≡ (run_at_start file.now).server) }
{
    let domain = Text::from_str(alloc, file.domain.as_str())?;
    let accounts = accounts_at(alloc, file.domain.as_str(), file.accounts.as_slice())?;
    let keep = file.version.keep();
    begun(
        alloc,
        Config {
            domain,
            accounts,
            keep,
        },
    )
}
