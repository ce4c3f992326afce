//! Conditions that a server sent.
//!
//! A condition is told by a variant and not by its text, so that a failure is copied without memory, and no text of a server
//! comes to a terminal.
ghost use Rattle.std.specs.Prelude.{◌≡◌};
ghost use Rattle.cmd_sync.specs.Conditions.{first_named, sent_condition, sent_name};

/// The condition of a stream error, of a refused login or of a stanza error (RFC 6120, sections 4.9.3, 6.5 and 8.3.3).
/// `Other` is any that has no variant of its own.
#[derive(Clone, Copy, Debug, PartialEq, Eq)]
pub enum SentCondition {
    Aborted,
    AccountDisabled,
    BadFormat,
    BadNamespacePrefix,
    BadRequest,
    Conflict,
    ConnectionTimeout,
    CredentialsExpired,
    EncryptionRequired,
    FeatureNotImplemented,
    Forbidden,
    Gone,
    HostGone,
    HostUnknown,
    ImproperAddressing,
    IncorrectEncoding,
    InternalServerError,
    InvalidAuthzid,
    InvalidFrom,
    InvalidMechanism,
    InvalidNamespace,
    InvalidXml,
    ItemNotFound,
    JidMalformed,
    MalformedRequest,
    MechanismTooWeak,
    NotAcceptable,
    NotAllowed,
    NotAuthorized,
    NotWellFormed,
    PolicyViolation,
    RecipientUnavailable,
    Redirect,
    RegistrationRequired,
    RemoteConnectionFailed,
    RemoteServerNotFound,
    RemoteServerTimeout,
    Reset,
    ResourceConstraint,
    RestrictedXml,
    SeeOtherHost,
    ServiceUnavailable,
    SubscriptionRequired,
    SystemShutdown,
    TemporaryAuthFailure,
    UndefinedCondition,
    UnexpectedRequest,
    UnsupportedEncoding,
    UnsupportedFeature,
    UnsupportedStanzaType,
    UnsupportedVersion,
    Other,
}

/// All that have a variant of their own.
const KNOWN: [SentCondition; 51] = [
    SentCondition::Aborted,
    SentCondition::AccountDisabled,
    SentCondition::BadFormat,
    SentCondition::BadNamespacePrefix,
    SentCondition::BadRequest,
    SentCondition::Conflict,
    SentCondition::ConnectionTimeout,
    SentCondition::CredentialsExpired,
    SentCondition::EncryptionRequired,
    SentCondition::FeatureNotImplemented,
    SentCondition::Forbidden,
    SentCondition::Gone,
    SentCondition::HostGone,
    SentCondition::HostUnknown,
    SentCondition::ImproperAddressing,
    SentCondition::IncorrectEncoding,
    SentCondition::InternalServerError,
    SentCondition::InvalidAuthzid,
    SentCondition::InvalidFrom,
    SentCondition::InvalidMechanism,
    SentCondition::InvalidNamespace,
    SentCondition::InvalidXml,
    SentCondition::ItemNotFound,
    SentCondition::JidMalformed,
    SentCondition::MalformedRequest,
    SentCondition::MechanismTooWeak,
    SentCondition::NotAcceptable,
    SentCondition::NotAllowed,
    SentCondition::NotAuthorized,
    SentCondition::NotWellFormed,
    SentCondition::PolicyViolation,
    SentCondition::RecipientUnavailable,
    SentCondition::Redirect,
    SentCondition::RegistrationRequired,
    SentCondition::RemoteConnectionFailed,
    SentCondition::RemoteServerNotFound,
    SentCondition::RemoteServerTimeout,
    SentCondition::Reset,
    SentCondition::ResourceConstraint,
    SentCondition::RestrictedXml,
    SentCondition::SeeOtherHost,
    SentCondition::ServiceUnavailable,
    SentCondition::SubscriptionRequired,
    SentCondition::SystemShutdown,
    SentCondition::TemporaryAuthFailure,
    SentCondition::UndefinedCondition,
    SentCondition::UnexpectedRequest,
    SentCondition::UnsupportedEncoding,
    SentCondition::UnsupportedFeature,
    SentCondition::UnsupportedStanzaType,
    SentCondition::UnsupportedVersion,
];

impl SentCondition {
    /// Its name; of `Other` it is `another`.
    pub fn name(self) -> &'static str
        ensures { result.now ≡ sent_name self }
    {
        match self {
            SentCondition::Aborted => "aborted",
            SentCondition::AccountDisabled => "account-disabled",
            SentCondition::BadFormat => "bad-format",
            SentCondition::BadNamespacePrefix => "bad-namespace-prefix",
            SentCondition::BadRequest => "bad-request",
            SentCondition::Conflict => "conflict",
            SentCondition::ConnectionTimeout => "connection-timeout",
            SentCondition::CredentialsExpired => "credentials-expired",
            SentCondition::EncryptionRequired => "encryption-required",
            SentCondition::FeatureNotImplemented => "feature-not-implemented",
            SentCondition::Forbidden => "forbidden",
            SentCondition::Gone => "gone",
            SentCondition::HostGone => "host-gone",
            SentCondition::HostUnknown => "host-unknown",
            SentCondition::ImproperAddressing => "improper-addressing",
            SentCondition::IncorrectEncoding => "incorrect-encoding",
            SentCondition::InternalServerError => "internal-server-error",
            SentCondition::InvalidAuthzid => "invalid-authzid",
            SentCondition::InvalidFrom => "invalid-from",
            SentCondition::InvalidMechanism => "invalid-mechanism",
            SentCondition::InvalidNamespace => "invalid-namespace",
            SentCondition::InvalidXml => "invalid-xml",
            SentCondition::ItemNotFound => "item-not-found",
            SentCondition::JidMalformed => "jid-malformed",
            SentCondition::MalformedRequest => "malformed-request",
            SentCondition::MechanismTooWeak => "mechanism-too-weak",
            SentCondition::NotAcceptable => "not-acceptable",
            SentCondition::NotAllowed => "not-allowed",
            SentCondition::NotAuthorized => "not-authorized",
            SentCondition::NotWellFormed => "not-well-formed",
            SentCondition::PolicyViolation => "policy-violation",
            SentCondition::RecipientUnavailable => "recipient-unavailable",
            SentCondition::Redirect => "redirect",
            SentCondition::RegistrationRequired => "registration-required",
            SentCondition::RemoteConnectionFailed => "remote-connection-failed",
            SentCondition::RemoteServerNotFound => "remote-server-not-found",
            SentCondition::RemoteServerTimeout => "remote-server-timeout",
            SentCondition::Reset => "reset",
            SentCondition::ResourceConstraint => "resource-constraint",
            SentCondition::RestrictedXml => "restricted-xml",
            SentCondition::SeeOtherHost => "see-other-host",
            SentCondition::ServiceUnavailable => "service-unavailable",
            SentCondition::SubscriptionRequired => "subscription-required",
            SentCondition::SystemShutdown => "system-shutdown",
            SentCondition::TemporaryAuthFailure => "temporary-auth-failure",
            SentCondition::UndefinedCondition => "undefined-condition",
            SentCondition::UnexpectedRequest => "unexpected-request",
            SentCondition::UnsupportedEncoding => "unsupported-encoding",
            SentCondition::UnsupportedFeature => "unsupported-feature",
            SentCondition::UnsupportedStanzaType => "unsupported-stanza-type",
            SentCondition::UnsupportedVersion => "unsupported-version",
            SentCondition::Other => "another",
        }
    }

    /// The condition with this name.
    pub fn named(name: &str) -> SentCondition
        ensures { result ≡ sent_condition name.now }
    {
        match first_named(name, &KNOWN) {
            Some(known) => known,
            None => SentCondition::Other,
        }
    }
}

// The first of these with this name.
fn first_named(name: &str, among: &[SentCondition]) -> Option<SentCondition>
    ensures { result ≡ first_named name.now among.now }
{
    for known in among {
        if known.name() == name {
            return Some(*known);
        }
    }
    None
}
