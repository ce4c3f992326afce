//! What a server keeps for an account (RFC 5802, section 3).
ghost use Rattle.std.specs.Prelude.{◌≡◌, ◌↔◌, ◌≤◌, false, IfOk, IsErrOf};
ghost use Rattle.auth_scram.specs.Exchange.{credentials_of, is_plain};

use crate::plain::is_plain;
use auth_primitives::{digest, hi, hmac};
use base_io::{Bytes, NoMemory};
use std::alloc::Global;
use std::error::Error;
use std::fmt;
use std::marker::Model;

/// What a server keeps for an account in place of its password (RFC 5802, section 3): the salt, the number of
/// iterations, and the two keys that it checks and answers with.
#[derive(Drop)]
pub struct Credentials {
    pub salt: Bytes,
    pub iterations: u32,
    pub stored_key: [u8; 32],
    pub server_key: [u8; 32],
}

impl Model for Credentials {
    ghost use Rattle.auth_scram.specs.Exchange.{CredentialsView};

    ghost Value = { CredentialsView };

    ghost view = { λ c. record { salt = c.salt.items; iterations = c.iterations; stored_key = c.stored_key; server_key = c.server_key } };
}

/// Why no credentials are made of a password.
#[derive(Clone, Copy, Debug, PartialEq, Eq)]
pub enum CredentialsFault {
    /// It is empty or not printable ASCII.
    BadPassword,
    /// Memory ran out.
    NoMemory,
}

impl fmt::Display for CredentialsFault {
    fn fmt<W: fmt::Write>(&self, f: &mut fmt::Formatter<W>) -> fmt::Result {
        f.write_str(match self {
            CredentialsFault::BadPassword => "the password is empty or not printable ASCII",
            CredentialsFault::NoMemory => "out of memory",
        })
    }
}

impl Error for CredentialsFault {}

impl From<NoMemory> for CredentialsFault {
    ghost use Rattle.std.specs.Prelude.{◌≡◌};
    ghost use Rattle.auth_scram.specs.declared.credentials.CredentialsFault.TheVariants.{NoMemory};

    ghost from_gives = { λ _ fault. fault ≡ NoMemory };

    fn from(_e: NoMemory) -> CredentialsFault {
        CredentialsFault::NoMemory
    }
}

impl Credentials {
    /// The credentials of a password under a salt and a number of iterations. `BadPassword` comes exactly where the
    /// password is empty or not printable ASCII (U+20 to U+7E).
    pub fn make(
        alloc: Global,
        password: &str,
        salt: &[u8],
        i: u32,
    ) -> Result<Credentials, CredentialsFault>
        requires { 1 ≤ i }
        ensures made { IfOk result (λ c. c ≡ credentials_of password.now salt.now i) }
        ensures bad_password { IsErrOf result CredentialsFault.BadPassword ↔ (is_plain password.now ≡ false) }
    {
        if !is_plain(password) {
            return Err(CredentialsFault::BadPassword);
        }
        let kept = Bytes::from_slice(alloc, salt)?;
        let salted = hi(password.as_bytes(), salt, i);
        Ok(Credentials {
            salt: kept,
            iterations: i,
            stored_key: digest(&hmac(&salted, b"Client Key")),
            server_key: hmac(&salted, b"Server Key"),
        })
    }
}
