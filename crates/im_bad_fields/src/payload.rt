//! The text of a payload of SASL's elements (RFC 6120, section 6.4), judged where it lies, in one piece or in many.
ghost use Rattle.std.specs.Prelude.{◌≡◌};
ghost use Rattle.im_bad_fields.specs.BadFields.{is_bad};
ghost use Rattle.im_bad_fields.specs.PayloadTexts.{payload_after, payload_goes_on, payload_may_end};
ghost use Rattle.im_login.specs.Readings.{payload_read};
ghost use Rattle.xml_trees.specs.Readers.{text_of};
ghost use Rattle.xml_trees.specs.Views.{nodes_view};

use auth_primitives::Base64Text;
use xml_trees::Node;

/// The text of a payload, as far as it was read: nothing, a lone `=`, base64, or neither.
#[derive(Clone, Copy)]
pub(crate) enum PayloadText {
    Empty,
    Equals,
    Base64(Base64Text),
    Neither,
}

impl PayloadText {
    /// The text with a byte more.
    fn followed_by(self, byte: u8) -> PayloadText
        ensures { result ≡ payload_goes_on self byte }
    {
        let text = match self {
            PayloadText::Empty if byte == b'=' => return PayloadText::Equals,
            PayloadText::Empty => Base64Text::new(),
            PayloadText::Base64(text) => text,
            PayloadText::Equals | PayloadText::Neither => return PayloadText::Neither,
        };
        match text.followed_by(byte) {
            Some(next) => PayloadText::Base64(next),
            None => PayloadText::Neither,
        }
    }

    /// The text with these bytes more.
    fn followed_by_all(self, bytes: &[u8]) -> PayloadText
        ensures { result ≡ payload_after self bytes.now }
    {
        let mut payload = self;
        for byte in bytes {
            payload = payload.followed_by(*byte);
        }
        payload
    }

    /// Whether a payload may end here.
    fn is_complete(self) -> bool
        ensures { result ≡ payload_may_end self }
    {
        match self {
            PayloadText::Empty | PayloadText::Equals => true,
            PayloadText::Base64(text) => text.is_complete(),
            PayloadText::Neither => false,
        }
    }
}

/// Whether the text directly among nodes is no payload: neither strict base64 (RFC 4648, section 4) nor a lone `=`. It
/// takes no memory.
pub(crate) fn has_bad_text(nodes: &[Node]) -> bool
    ensures { result ≡ is_bad (payload_read (text_of (nodes_view nodes.now))) }
{
    let mut payload = PayloadText::Empty;
    for node in nodes {
        if let Node::Text(text) = node {
            payload = payload.followed_by_all(text.as_str().as_bytes());
        }
    }
    !payload.is_complete()
}
