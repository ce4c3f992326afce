//! What a server begins with, and what may be wrong with it.
ghost use Rattle.std.specs.Prelude.{◌≡◌, ◌≢◌, ◌≤◌, ◌<◌, ◌^◌, None, Some, length, map, IfErr, IfOk, OnOk};
ghost use Rattle.std.specs.Option.{option_map};
ghost use Rattle.srv_login.specs.Accounts as logins;
ghost use Rattle.srv_login.specs.Accounts.{accounts_fault};
ghost use Rattle.srv_core.specs.Configs;
ghost use Rattle.srv_core.specs.Configs.{empty_kept, fault_of_accounts};
ghost use Rattle.srv_state.specs.Seen.{kept_of};

use base_io::{NoMemory, Text};
use im_jid::{JidFault, domain_in_normal_form};
use mam_archive::Archive;
use srv_login::{Account, AccountList, Accounts, AccountsFault};
use std::alloc::Global;
use std::error::Error;
use std::fmt;

/// What a server begins with: its domain in normal form (RFC 7622, section 3.2), its accounts, and how many entries each
/// account's archive keeps.
#[derive(Drop)]
pub struct Config {
    pub domain: Text,
    pub accounts: AccountList,
    pub keep: u32,
}

/// Why no server begins: the first of these that fits. An account is told by its place from 0.
#[derive(Clone, Copy, Debug, PartialEq, Eq)]
pub enum ConfigFault {
    /// The domain is not in normal form (RFC 7622, section 3.2).
    BadDomain,
    /// An account's name is not a local part in normal form (RFC 7622, section 3.3).
    BadName(u32),
    /// An earlier account has that name.
    Twice(u32),
    /// An account's credentials count no iteration.
    NoIterations(u32),
    /// Memory ran out.
    NoMemory,
}

impl fmt::Display for ConfigFault {
    fn fmt<W: fmt::Write>(&self, f: &mut fmt::Formatter<W>) -> fmt::Result {
        match self {
            ConfigFault::BadDomain => f.write_str("the domain is not in normal form"),
            ConfigFault::BadName(position) => write!(f, "{}", AccountsFault::BadName(*position)),
            ConfigFault::Twice(position) => write!(f, "{}", AccountsFault::Twice(*position)),
            ConfigFault::NoIterations(position) => {
                write!(f, "{}", AccountsFault::NoIterations(*position))
            }
            ConfigFault::NoMemory => f.write_str("out of memory"),
        }
    }
}

impl Error for ConfigFault {}

impl From<NoMemory> for ConfigFault {
    ghost use Rattle.std.specs.Prelude.{◌≡◌};
    ghost use Rattle.srv_core.specs.declared.config.ConfigFault.TheVariants.{NoMemory};

    ghost from_gives = { λ _ fault. fault ≡ NoMemory };

    fn from(_e: NoMemory) -> ConfigFault {
        ConfigFault::NoMemory
    }
}

// The same fault of the accounts.
fn fault_of_accounts(fault: AccountsFault) -> ConfigFault
    ensures { result ≡ fault_of_accounts fault }
{
    match fault {
        AccountsFault::BadName(position) => ConfigFault::BadName(position),
        AccountsFault::Twice(position) => ConfigFault::Twice(position),
        AccountsFault::NoIterations(position) => ConfigFault::NoIterations(position),
        AccountsFault::NoMemory => ConfigFault::NoMemory,
    }
}

/// Whether a domain is in normal form.
pub(crate) fn is_normal_domain(alloc: Global, domain: &str) -> Result<bool, NoMemory>
    ensures { IfOk result (λ is. is ≡ Configs.is_normal_domain domain.now) }
{
    match domain_in_normal_form(alloc, domain) {
        Ok(form) => Ok(form.as_str() == domain),
        Err(JidFault::NoMemory) => Err(NoMemory),
        Err(_) => Ok(false),
    }
}

/// The accounts of a list, or what is wrong with it.
pub(crate) fn accounts_of(alloc: Global, list: AccountList) -> Result<Accounts, ConfigFault>
    requires few { length list.items < 2 ^ 32 }
    ensures made { IfOk result (λ accounts. accounts ≡ list.items) }
    ensures right { OnOk result (accounts_fault list.items ≡ None) }
    ensures refused { IfErr result (λ e. e ≢ ConfigFault.NoMemory → option_map Configs.fault_of_accounts (accounts_fault list.items) ≡ Some e) }
{
    match Accounts::new(alloc, list) {
        Ok(accounts) => Ok(accounts),
        Err(fault) => Err(fault_of_accounts(fault)),
    }
}

// The bare address of an account.
fn bare_text(alloc: Global, name: &str, domain: &str) -> Result<Text, NoMemory>
    ensures { IfOk result (λ text. text ≡ logins.bare_text name.now domain.now) }
{
    Ok(Text::from(format!(in alloc; "{name}@{domain}")?))
}

// The archive of an account, without entries.
fn empty_archive(
    alloc: Global,
    domain: &str,
    account: &Account,
    keep: u32,
) -> Result<Archive, NoMemory>
    requires { 1 ≤ keep }
    ensures { IfOk result (λ archive. kept_of archive ≡ empty_kept domain.now keep account.now.name) }
{
    let owner = bare_text(alloc, account.name.as_str(), domain)?;
    Ok(Archive::new(alloc, owner, keep))
}

/// An archive for each account.
#[tactic(auto, using(crate::proofs::Archives::one_more))]
pub(crate) fn archives_of(
    alloc: Global,
    domain: &str,
    accounts: &[Account],
    keep: u32,
) -> Result<Vec<Archive>, NoMemory>
    requires { 1 ≤ keep }
    ensures { IfOk result (λ archives. map kept_of archives.items ≡ Configs.archives_of domain.now keep accounts.now) }
{
    let mut archives = Vec::new(alloc);
    for account in accounts {
        let archive = empty_archive(alloc, domain, account, keep)?;
        archives.push(archive)?;
    }
    Ok(archives)
}
