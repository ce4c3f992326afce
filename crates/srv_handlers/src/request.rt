//! What a session asks of the server.
use base_io::Text;
use im_mam::MamQuery;
use im_stanza::StanzaError;

/// What an `iq` asks for, as it is read before the row looks at it.
#[derive(Drop)]
pub enum Request {
    /// That the server answers (XEP-0199).
    Ping,
    /// What the domain, or else the account, is (XEP-0030).
    Info { at_domain: bool },
    /// The items of a node, which is empty where it asks for those of the domain or of the account (XEP-0030).
    Items { node: Text },
    /// Its contacts (RFC 6121, section 2).
    Roster,
    /// A session, which it has (RFC 3921, section 3).
    Session,
    /// That copies are sent to it, or no more (XEP-0280, sections 4 and 5).
    Carbons { on: bool },
    /// A page of its archive (XEP-0313, section 4).
    Archive(MamQuery),
    /// What is refused.
    Refused(StanzaError),
}
