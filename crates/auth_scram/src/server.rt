//! The server's end of an exchange (RFC 5802, section 5).
ghost use Rattle.std.specs.Prelude.{◌≡◌, ◌≤◌, true, IfOk};
ghost use Rattle.auth_scram.specs.Exchange.{Judges, begun_server, is_proof, last_of, server_auth, verifier_for};
ghost use Rattle.auth_scram.specs.Grammar.{is_nonce};
ghost use Rattle.auth_primitives.specs.Hashes.{hmac_of};

use crate::binding_flag::BindingFlag;
use crate::client_final::read_client_final;
use crate::client_first::ClientFirst;
use crate::credentials::Credentials;
use crate::fault::ScramFault;
use crate::spelling::{joined, server_final, server_first};
use auth_primitives::{KeyedHash, digest, is_same, xor};
use base_io::{Bytes, NoMemory, Text};
use std::alloc::Global;
use std::marker::Model;

/// The server's end of an exchange, after its first message (RFC 5802, section 5).
#[derive(Drop)]
pub struct ScramServer {
    flag: BindingFlag,
    bare: Text,
    nonce: Text,
    message: Text,
    stored_key: [u8; 32],
    server_key: [u8; 32],
}

impl Model for ScramServer {
    ghost use Rattle.auth_scram.specs.Exchange.{ServerView};

    ghost Value = { ServerView };

    ghost view = { λ s. record { flag = s.flag; bare = s.bare; nonce = s.nonce; message = s.message; stored_key = s.stored_key; server_key = s.server_key } };
}

impl ScramServer {
    /// Answers a client's first message with the credentials of its account. The server's nonce is the client's and
    /// `tail`, a nonce that was never used before.
    pub fn first(
        alloc: Global,
        client: ClientFirst,
        credentials: &Credentials,
        tail: &str,
    ) -> Result<ScramServer, NoMemory>
        requires random { is_nonce tail.now ≡ true }
        requires counted { 1 ≤ credentials.now.iterations }
        ensures { IfOk result (λ s. s ≡ begun_server client credentials.now tail.now) }
    {
        let nonce = joined(alloc, client.nonce.as_str(), tail)?;
        let message = server_first(
            alloc,
            nonce.as_str(),
            credentials.salt.as_slice(),
            credentials.iterations,
        )?;
        Ok(ScramServer {
            flag: client.flag,
            bare: client.bare,
            nonce,
            message,
            stored_key: credentials.stored_key,
            server_key: credentials.server_key,
        })
    }

    // Whether a proof is the right one for a final message whose part before the proof is given.
    fn is_proof(&self, without_proof: &[u8], proof: &[u8; 32]) -> bool
        ensures { result ≡ is_proof self.now.stored_key (server_auth self.now without_proof.now) (Some proof.now) }
    {
        let signature = self.keyed_hash(&self.stored_key, without_proof);
        is_same(&digest(&xor(proof, &signature)), &self.stored_key)
    }

    // The HMAC of AuthMessage under one of the account's keys.
    fn keyed_hash(&self, key: &[u8; 32], without_proof: &[u8]) -> [u8; 32]
        ensures { result ≡ hmac_of key.now (server_auth self.now without_proof.now) }
    {
        KeyedHash::new(key).of_messages(
            self.bare.as_str().as_bytes(),
            self.message.as_str().as_bytes(),
            without_proof,
        )
    }

    // Judges a final message of these parts, and answers the verifier.
    fn verifier(
        &self,
        without_proof: &[u8],
        nonce: &[u8],
        proof: Option<[u8; 32]>,
    ) -> Result<[u8; 32], ScramFault>
        ensures { result ≡ verifier_for self.now without_proof.now nonce.now proof }
    {
        if nonce != self.nonce.as_str().as_bytes() {
            return Err(ScramFault::BadNonce);
        }
        match proof {
            Some(proof) if self.is_proof(without_proof, &proof) => {
                Ok(self.keyed_hash(&self.server_key, without_proof))
            }
            _ => Err(ScramFault::BadProof),
        }
    }

    /// The server's first message: `r=` the nonce, `,s=` the salt's base64, `,i=` the number of iterations.
    pub fn message(&self) -> &[u8]
        ensures { result.now ≡ self.now.message }
    {
        self.message.as_str().as_bytes()
    }

    /// Answers the client's final message: `v=` and the base64 of the verifier, where the message is within the grammar
    /// and has the whole nonce and the right proof. `Malformed` comes exactly where it leaves the grammar, else
    /// `BadNonce` exactly where the nonce is another, else `BadProof` exactly where the proof isn't the right one. The
    /// exchange is spent, whatever the answer is. By its code, not by its contract, the time that it takes doesn't
    /// depend on how much of a proof is right.
    pub fn last(self, alloc: Global, bytes: &[u8]) -> Result<Bytes, ScramFault>
        ensures { Judges (λ m. m.items) result (last_of self bytes.now) }
    {
        self.judge(alloc, bytes)
    }

    /// Answers the client's final message as `last` does, and leaves the exchange, for a caller that may try again
    /// where memory ran out. After any other refusal the caller drops the exchange: else one nonce would serve for many
    /// guesses.
    pub fn judge(&self, alloc: Global, bytes: &[u8]) -> Result<Bytes, ScramFault>
        ensures { Judges (λ m. m.items) result (last_of self.now bytes.now) }
    {
        let message = read_client_final(self.flag, bytes)?;
        let verifier = self.verifier(message.without_proof, message.nonce, message.proof)?;
        Ok(server_final(alloc, &verifier)?)
    }
}
