//! An account, and what a server keeps of it.
ghost use Rattle.std.specs.Prelude.{◌≡◌, ◌≢◌, true, false, IfErr, IfOk, OnOk};
ghost use Rattle.srv_login.specs.Accounts.{account_of, bare_text};
ghost use Rattle.auth_scram.specs.Exchange.{is_plain};

use auth_scram::{Credentials, CredentialsFault, salt_of};
use base_io::{ListOf, NoMemory, Text};
use std::alloc::Global;

/// How often a password is hashed for an account (RFC 7677, section 4, asks for 4,096 at least).
pub const ITERATIONS: u32 = 4096;

/// An account: the local part of its address, and what the server keeps in place of its password.
#[derive(Drop)]
pub struct Account {
    pub name: Text,
    pub credentials: Credentials,
}

/// Accounts, in order.
pub type AccountList = ListOf<Account>;

// The bare address of an account.
fn bare_text(alloc: Global, name: &str, domain: &str) -> Result<Text, NoMemory>
    ensures { IfOk result (λ text. text ≡ bare_text name.now domain.now) }
{
    Ok(Text::from(format!(in alloc; "{name}@{domain}")?))
}

impl Account {
    /// The account of this name at a domain, with the credentials of its password under 4,096 iterations and the salt of
    /// its bare address. A password that is empty or not printable ASCII is refused (`BadPassword`), and no other is.
    pub fn with_password(
        alloc: Global,
        name: &str,
        domain: &str,
        password: &str,
    ) -> Result<Account, CredentialsFault>
        ensures made { IfOk result (λ account. account ≡ account_of name.now domain.now password.now) }
        ensures right { OnOk result (is_plain password.now ≡ true) }
        ensures bad_password { IfErr result (λ e. e ≢ CredentialsFault.NoMemory → is_plain password.now ≡ false) }
    {
        let bare = bare_text(alloc, name, domain)?;
        let salt = salt_of(bare.as_str());
        let credentials = Credentials::make(alloc, password, &salt, ITERATIONS)?;
        Ok(Account {
            name: Text::from_str(alloc, name)?,
            credentials,
        })
    }
}
