//! What an element of a client says to the rows of the table.
use base_io::Text;
use im_stanza::{Stanza, StanzaFault};
use xml_trees::Tree;

/// An element, as it is read before a row looks at it.
#[derive(Drop)]
pub enum Word {
    /// A `message`, `presence` or `iq`: whether its written spelling is too long, and what it is read as.
    Stanza {
        long: bool,
        read: Result<Stanza, StanzaFault>,
    },
    /// `enable` (XEP-0198, section 3).
    Enable {
        resume: bool,
    },
    /// `r` (XEP-0198, section 4).
    Request,
    /// `a` (XEP-0198, section 4).
    Ack {
        h: u32,
    },
    /// `resume` (XEP-0198, section 5).
    Resume {
        previd: Text,
        h: u32,
    },
    /// `auth` (RFC 6120, section 6.4.2), and whether a field of it is bad.
    Auth {
        element: Tree,
        bad: bool,
    },
    /// `response` (RFC 6120, section 6.4.3), and whether a field of it is bad.
    Response {
        element: Tree,
        bad: bool,
    },
    /// `abort` (RFC 6120, section 6.4.4).
    Abort,
    /// Another element of stream management or of SASL that has a bad field.
    BadField,
    /// A stream error (RFC 6120, section 4.9).
    StreamError,
    /// Any other element.
    Other,
}
