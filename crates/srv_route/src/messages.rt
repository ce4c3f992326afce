//! What the rules for messages ask of one.
ghost use Rattle.std.specs.Prelude.{◌≡◌};
ghost use Rattle.srv_route.specs.Messages.{has_body, is_archived, is_chat, is_copied, is_for_users, is_kept_kind};
ghost use Rattle.xml_trees.specs.Views.{nodes_view};

use im_extensions::is_private;
use im_stanza::{CLIENT, Message, MessageKind};
use xml_trees::{Node, find_child};

pub(crate) fn is_chat(kind: MessageKind) -> bool
    ensures { result ≡ is_chat kind }
{
    matches!(kind, MessageKind::Chat)
}

/// Whether a user may be sent this: an error or a message of a chat room isn't delivered to a bare address (RFC 6121,
/// section 8.5.2.1.1).
pub(crate) fn is_for_users(kind: MessageKind) -> bool
    ensures { result ≡ is_for_users kind }
{
    matches!(
        kind,
        MessageKind::Chat | MessageKind::Normal | MessageKind::Headline
    )
}

fn is_kept_kind(kind: MessageKind) -> bool
    ensures { result ≡ is_kept_kind kind }
{
    matches!(kind, MessageKind::Chat | MessageKind::Normal)
}

fn has_body(payload: &[Node]) -> bool
    ensures { result ≡ has_body (nodes_view payload.now) }
{
    find_child(payload, CLIENT, "body").is_some()
}

/// Whether a message goes into archives (XEP-0313, section 5).
pub(crate) fn is_archived(message: &Message) -> bool
    ensures { result ≡ is_archived message.now }
{
    is_kept_kind(message.kind) && has_body(message.payload.as_slice())
}

/// Whether copies of a message are made (XEP-0280, sections 6 and 9).
pub(crate) fn is_copied(message: &Message) -> bool
    ensures { result ≡ is_copied message.now }
{
    is_archived(message) && !is_private(message.payload.as_slice())
}
