//! The client's end of an exchange (RFC 5802, section 5).
//!
//! In `last` and `ScramClient::first`, want of memory comes only where the answer is Ok otherwise. `judge` stands
//! beside `last`, for a caller that may try again.
ghost use Rattle.std.specs.Prelude.{◌≡◌, true, IfOk, IsSome, OnErr, OnOk};
ghost use Rattle.auth_scram.specs.Exchange.{Judges, begun_client, check_of, expecting, replied, reply_of, reply_to, sent};
ghost use Rattle.auth_scram.specs.Grammar.{is_nonce};
ghost use Rattle.auth_primitives.specs.Canonical.{IsBase64};
ghost use Rattle.auth_scram.specs.Values.{base64_bytes};
ghost use Rattle.auth_primitives.specs.Hashes.{auth_message};

use crate::contents::base64_bytes;
use crate::fault::ScramFault;
use crate::password::Password;
use crate::plain::is_plain;
use crate::server_final::read_server_final;
use crate::server_first::read_server_first;
use crate::spelling::{append_proof, client_first, without_proof};
use auth_primitives::{KeyedHash, digest, hmac, is_same, xor};
use base_io::{Bytes, Copied, NoMemory, Text};
use std::alloc::Global;
use std::marker::Model;

// The length of the GS2 header `n,,`.
const GS2_HEADER: usize = 3;

/// The fewest iterations that the client takes (RFC 7677, section 4).
pub const LEAST_ITERATIONS: u32 = 4_096;

/// The most iterations that the client takes.
pub const MOST_ITERATIONS: u32 = 1_000_000;

/// The client's end of an exchange (RFC 5802, section 5).
#[derive(Drop)]
pub struct ScramClient {
    password: Password,
    nonce: Text,
    message: Bytes,
    expected: Option<[u8; 32]>,
}

impl Model for ScramClient {
    ghost use Rattle.auth_scram.specs.Exchange.{ClientView};

    ghost Value = { ClientView };

    ghost use Rattle.std.specs.Prelude.{◌≤◌, length};

    ghost view = { λ c. record { password = c.password; nonce = c.nonce; message = c.message.items; expected = c.expected } };

    ghost invariant = { λ c. 3 ≤ length c.message.items };
}

// The client's final message, and the verifier that it then expects.
#[derive(Drop)]
struct Reply {
    message: Bytes,
    verifier: [u8; 32],
}

impl Model for Reply {
    ghost use Rattle.auth_scram.specs.Exchange.{ReplyView};

    ghost Value = { ReplyView };

    ghost view = { λ r. record { message = r.message.items; verifier = r.verifier } };
}

// The reply under a SaltedPassword, whose part before the proof has been made.
fn reply_under(
    mut message: Bytes,
    salted: &[u8; 32],
    bare: &[u8],
    server_first: &[u8],
) -> Result<Reply, NoMemory>
    ensures { IfOk result (λ r. r ≡ replied message.items salted.now (auth_message bare.now server_first.now message.items)) }
{
    let client_key = hmac(salted, b"Client Key");
    let server_key = hmac(salted, b"Server Key");
    let without_proof = message.as_slice();
    let signature = KeyedHash::new(&digest(&client_key)).of_messages(
        bare,
        server_first,
        without_proof,
    );
    let verifier = KeyedHash::new(&server_key).of_messages(bare, server_first, without_proof);
    append_proof(&mut message, &xor(&client_key, &signature))?;
    Ok(Reply { message, verifier })
}

impl ScramClient {
    /// Begins an exchange, with a nonce that was never used before. `BadName` comes exactly where the name or the
    /// password is empty or not printable ASCII (U+20 to U+7E).
    pub fn first(
        alloc: Global,
        name: &str,
        password: &Password,
        nonce: &str,
    ) -> Result<ScramClient, ScramFault>
        requires { is_nonce nonce.now ≡ true }
        ensures { Judges (λ c. c) result (begun_client name.now password.now nonce.now) }
    {
        if !is_plain(name) || !is_plain(password.as_str()) {
            return Err(ScramFault::BadName);
        }
        Ok(ScramClient {
            password: password.copied(alloc)?,
            nonce: Text::from_str(alloc, nonce)?,
            message: client_first(alloc, name, nonce)?,
            expected: None,
        })
    }

    // Judges a first message of the server of these parts, of which the salt is in base64, and answers the reply.
    fn answer(
        &mut self,
        alloc: Global,
        server_first: &[u8],
        nonce: &[u8],
        salt: &[u8],
        i: u32,
    ) -> Result<Reply, ScramFault>
        requires { IsBase64 salt.now }
        ensures answer { Judges (λ r. r) result (reply_to self.old server_first.now nonce.now (base64_bytes salt.now) i) }
        ensures same { self.new ≡ self.old }
    {
        let own = self.nonce.as_str().as_bytes();
        if !(nonce.starts_with(own) && own.len() < nonce.len()) {
            return Err(ScramFault::BadNonce);
        }
        if !(LEAST_ITERATIONS <= i && i <= MOST_ITERATIONS) {
            return Err(ScramFault::Iterations { count: i });
        }
        let salt = base64_bytes(alloc, salt)?;
        let message = without_proof(alloc, nonce)?;
        let salted = self.password.salted(salt, i);
        let bare = &self.message.as_slice()[GS2_HEADER..];
        Ok(reply_under(message, &salted, bare, server_first)?)
    }

    /// The client's first message: `n,,n=` the name with `,` as `=2C` and `=` as `=3D`, and `,r=` the nonce.
    pub fn message(&self) -> &[u8]
        ensures { result.now ≡ self.now.message }
    {
        self.message.as_slice()
    }

    /// Replies to the server's first message: `c=biws,r=` its nonce, `,p=` the base64 of the proof. `Malformed` comes
    /// exactly where the message leaves the grammar, else `BadNonce` exactly where its nonce does not begin with the
    /// client's or adds nothing to it (RFC 5802, section 5.1), else `Iterations` exactly where the count is not within
    /// `LEAST_ITERATIONS` to `MOST_ITERATIONS`. A refusal leaves the client as it was; after an Ok it expects a verifier.
    /// Want of memory is answered only where the answer would be Ok.
    pub fn reply(&mut self, alloc: Global, server_first: &[u8]) -> Result<Bytes, ScramFault>
        ensures answer { Judges (λ m. m.items) result (sent (λ r. r.message) (reply_of self.old server_first.now)) }
        ensures expects { OnOk result (self.new ≡ expecting self.old (reply_of self.old server_first.now)) }
        ensures replied { OnOk result (IsSome self.new.expected) }
        ensures refused { OnErr result (self.new ≡ self.old) }
    {
        let read = read_server_first(server_first)?;
        let reply = self.answer(alloc, server_first, read.nonce, read.salt, read.count)?;
        self.expected = Some(reply.verifier);
        Ok(reply.message)
    }

    /// Hands what its password was stretched to over to another of the same text. It takes no memory.
    pub fn teach(&mut self, password: &mut Password)
        ensures own { self.new ≡ self.old }
        ensures other { password.new ≡ password.old }
    {
        password.learn(&mut self.password);
    }

    /// Judges the server's final message: whether the server knows the account's keys. `Malformed` comes exactly where
    /// it leaves the grammar, else `BadVerifier` exactly where its verifier isn't the one that is expected, so also
    /// where it reports an error. It takes no memory. By its code, not by its contract, the time that it takes doesn't
    /// depend on how much of a verifier is right.
    pub fn check(&self, server_final: &[u8]) -> Result<(), ScramFault>
        requires { IsSome self.now.expected }
        ensures { result ≡ check_of self.now server_final.now }
    {
        let verifier = read_server_final(server_final)?;
        match (&self.expected, verifier) {
            (Some(expected), Some(verifier)) if is_same(&verifier, expected) => Ok(()),
            _ => Err(ScramFault::BadVerifier),
        }
    }
}
