//! Why a server ends a stream.
ghost use Rattle.std.specs.Prelude.{◌≡◌};
ghost use Rattle.im_replies.specs.Streams.{stream_condition_name};

/// Why a server ends a stream, as the condition of a stream error (RFC 6120, section 4.9.3).
#[derive(Clone, Copy, Debug, PartialEq, Eq)]
pub enum StreamCondition {
    /// An element is well formed, and can't be what its name says.
    BadFormat,
    /// Another stream took the resource, or the session.
    Conflict,
    /// The header is for a domain that isn't served here.
    HostUnknown,
    /// A stanza is from an address that isn't the sender's.
    InvalidFrom,
    /// The header isn't that of a stream of a client.
    InvalidNamespace,
    /// A stanza comes before the login and the binding of a resource.
    NotAuthorized,
    /// What came is no XML.
    NotWellFormed,
    /// A limit of the server is passed.
    PolicyViolation,
    /// Too many stanzas wait for the client.
    ResourceConstraint,
    /// What came is XML that a stream must not have.
    RestrictedXml,
    /// What came isn't UTF-8.
    UnsupportedEncoding,
    /// An element is none that the server knows, or it is out of place.
    UnsupportedStanzaType,
    /// The header's version is below 1.0.
    UnsupportedVersion,
}

impl StreamCondition {
    /// The name of the condition's element.
    pub fn name(self) -> &'static str
        ensures { result.now ≡ stream_condition_name self }
    {
        match self {
            StreamCondition::BadFormat => "bad-format",
            StreamCondition::Conflict => "conflict",
            StreamCondition::HostUnknown => "host-unknown",
            StreamCondition::InvalidFrom => "invalid-from",
            StreamCondition::InvalidNamespace => "invalid-namespace",
            StreamCondition::NotAuthorized => "not-authorized",
            StreamCondition::NotWellFormed => "not-well-formed",
            StreamCondition::PolicyViolation => "policy-violation",
            StreamCondition::ResourceConstraint => "resource-constraint",
            StreamCondition::RestrictedXml => "restricted-xml",
            StreamCondition::UnsupportedEncoding => "unsupported-encoding",
            StreamCondition::UnsupportedStanzaType => "unsupported-stanza-type",
            StreamCondition::UnsupportedVersion => "unsupported-version",
        }
    }
}
