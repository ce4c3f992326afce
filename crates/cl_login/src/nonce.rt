//! The nonce of a client (RFC 5802, section 5.1).
use auth_scram::added_nonce;
use std::marker::Model;

/// The nonce of a client's exchange. Contracts see its bytes.
#[derive(Drop)]
pub struct Nonce {
    text: [u8; 24],
}

impl Model for Nonce {
    ghost use Rattle.std.specs.Prelude.{◌≡◌, List, ℕ, true};
    ghost use Rattle.std.specs.Str.{IsUtf8};
    ghost use Rattle.auth_scram.specs.Grammar.{is_nonce};

    ghost Value = { List ℕ };

    ghost view = { λ n. n.text };

    ghost invariant = { λ n. (is_nonce n.text ≡ true) × IsUtf8 n.text };
}

impl Nonce {
    ghost use Rattle.std.specs.Prelude.{◌≡◌, true};
    ghost use Rattle.auth_scram.specs.Exchange.{added_nonce};
    ghost use Rattle.auth_scram.specs.Grammar.{is_nonce};

    // The nonce of the first 18 bytes that were drawn for a connection.
    pub(crate) fn of_entropy(entropy: &[u8; 24]) -> Nonce
        ensures { result ≡ added_nonce entropy.now }
    {
        Nonce {
            text: added_nonce(entropy),
        }
    }

    // Its text, without a copy.
    pub(crate) fn as_str(&self) -> &str
        ensures text { result.now ≡ self.now }
        ensures within { is_nonce self.now ≡ true }
    {
        match str::from_utf8(&self.text) {
            Ok(text) => text,
            Err(_) => unreachable!(),
        }
    }
}
