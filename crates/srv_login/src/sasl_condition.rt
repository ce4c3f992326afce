//! Why a login fails.
ghost use Rattle.std.specs.Prelude.{◌≡◌};
ghost use Rattle.srv_login.specs.Negotiations.{condition_name};

/// Why a login fails, as the condition of a `failure` (RFC 6120, section 6.5).
#[derive(Clone, Copy, Debug, PartialEq, Eq)]
pub enum SaslCondition {
    /// The client gave it up.
    Aborted,
    /// The text is neither strict base64 nor a lone `=`.
    IncorrectEncoding,
    /// An authorization identity is asked for.
    InvalidAuthzid,
    /// The mechanism is not SCRAM-SHA-256.
    InvalidMechanism,
    /// The message leaves its grammar, or asks for channel binding.
    MalformedRequest,
    /// There is no such account, or the nonce or the proof is wrong.
    NotAuthorized,
}

impl SaslCondition {
    /// The name of the condition's element.
    pub fn name(self) -> &'static str
        ensures { result.now ≡ condition_name self }
    {
        match self {
            SaslCondition::Aborted => "aborted",
            SaslCondition::IncorrectEncoding => "incorrect-encoding",
            SaslCondition::InvalidAuthzid => "invalid-authzid",
            SaslCondition::InvalidMechanism => "invalid-mechanism",
            SaslCondition::MalformedRequest => "malformed-request",
            SaslCondition::NotAuthorized => "not-authorized",
        }
    }
}
