//! The types of stanzas (RFC 6120, section 8.2.3; RFC 6121, sections 4.7.1 and 5.2.2).
ghost use Rattle.std.specs.Prelude.{◌≡◌};
ghost use Rattle.std.specs.Option.{option_copied};
ghost use Rattle.im_stanza.specs.Kinds.{answers_iq, answers_message, iq_kind, iq_kind_named, iq_type, message_kind, message_kind_named, message_type, presence_kind, presence_kind_named, presence_type};

/// The type of a message (RFC 6121, section 5.2.2). A message whose `type` is absent or none of these is `Normal`.
#[derive(Clone, Copy, Debug, PartialEq, Eq)]
pub enum MessageKind {
    Chat,
    Normal,
    Headline,
    Groupchat,
    Error,
}

/// What a presence tells (RFC 6121, section 4.7.1): without a `type` that its sender is available, with the type
/// `unavailable` that it no longer is, with the type `error` that a presence met an error, and with any other type
/// something else.
#[derive(Clone, Copy, Debug, PartialEq, Eq)]
pub enum PresenceKind {
    Available,
    Unavailable,
    Error,
    Other,
}

/// The type of an `iq` (RFC 6120, section 8.2.3).
#[derive(Clone, Copy, Debug, PartialEq, Eq)]
pub enum IqKind {
    Get,
    Set,
    Result,
    Error,
}

impl MessageKind {
    /// The kind of a message with this `type`.
    pub fn of(given: Option<&str>) -> MessageKind
        ensures { result ≡ message_kind (option_copied given.entry) }
    {
        match given {
            None => MessageKind::Normal,
            Some(name) => message_kind_named(name),
        }
    }

    /// The `type` that a message of this kind is written with.
    pub fn text(self) -> &'static str
        ensures { result.now ≡ message_type self }
    {
        match self {
            MessageKind::Chat => "chat",
            MessageKind::Normal => "normal",
            MessageKind::Headline => "headline",
            MessageKind::Groupchat => "groupchat",
            MessageKind::Error => "error",
        }
    }

    /// Whether a message of this kind may be answered with an error (RFC 6120, section 8.3.1).
    pub fn is_answered(self) -> bool
        ensures { result ≡ answers_message self }
    {
        !matches!(self, MessageKind::Error)
    }
}

fn message_kind_named(name: &str) -> MessageKind
    ensures { result ≡ message_kind_named name.now }
{
    if name == "chat" {
        MessageKind::Chat
    } else if name == "headline" {
        MessageKind::Headline
    } else if name == "groupchat" {
        MessageKind::Groupchat
    } else if name == "error" {
        MessageKind::Error
    } else {
        MessageKind::Normal
    }
}

impl PresenceKind {
    /// What a presence with this `type` tells.
    pub fn of(given: Option<&str>) -> PresenceKind
        ensures { result ≡ presence_kind (option_copied given.entry) }
    {
        match given {
            None => PresenceKind::Available,
            Some(name) => presence_kind_named(name),
        }
    }

    /// The `type` that a presence of this kind is written with, if any. `Other` is written as `probe`, which changes
    /// nothing with its reader.
    pub fn text(self) -> Option<&'static str>
        ensures { option_copied result ≡ presence_type self }
    {
        match self {
            PresenceKind::Available => None,
            PresenceKind::Unavailable => Some("unavailable"),
            PresenceKind::Error => Some("error"),
            PresenceKind::Other => Some("probe"),
        }
    }
}

fn presence_kind_named(name: &str) -> PresenceKind
    ensures { result ≡ presence_kind_named name.now }
{
    if name == "unavailable" {
        PresenceKind::Unavailable
    } else if name == "error" {
        PresenceKind::Error
    } else {
        PresenceKind::Other
    }
}

impl IqKind {
    /// The kind of an `iq` with this `type`. `None` where it is none of the four.
    pub fn of(given: Option<&str>) -> Option<IqKind>
        ensures { result ≡ iq_kind (option_copied given.entry) }
    {
        match given {
            None => None,
            Some(name) => iq_kind_named(name),
        }
    }

    /// The `type` that an `iq` of this kind is written with.
    pub fn text(self) -> &'static str
        ensures { result.now ≡ iq_type self }
    {
        match self {
            IqKind::Get => "get",
            IqKind::Set => "set",
            IqKind::Result => "result",
            IqKind::Error => "error",
        }
    }

    /// Whether an `iq` of this kind has to be answered (RFC 6120, section 8.2.3).
    pub fn is_answered(self) -> bool
        ensures { result ≡ answers_iq self }
    {
        matches!(self, IqKind::Get | IqKind::Set)
    }
}

fn iq_kind_named(name: &str) -> Option<IqKind>
    ensures { result ≡ iq_kind_named name.now }
{
    if name == "get" {
        Some(IqKind::Get)
    } else if name == "set" {
        Some(IqKind::Set)
    } else if name == "result" {
        Some(IqKind::Result)
    } else if name == "error" {
        Some(IqKind::Error)
    } else {
        None
    }
}
