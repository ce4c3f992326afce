//! Nonces of a login (RFC 5802, section 5.1).
ghost use Rattle.std.specs.Prelude.{◌≡◌, ℕ, List, take};
ghost use Rattle.base64.specs.GeneralPurpose.{IsBytes};
ghost use Rattle.auth_scram.specs.Exchange.{added_nonce};

/// A law: nonces are told apart. Of two connections for which other bytes were drawn, among the first 18, an end adds other
/// nonces (RFC 5802, section 5.1). So a message that answers one of them is no answer to the other: the whole nonce is judged.
pub fn nonces_are_told_apart()
    ensures { (a b : List ℕ) → IsBytes (take 18 a) → IsBytes (take 18 b) → added_nonce a ≡ added_nonce b → take 18 a ≡ take 18 b }
{}
