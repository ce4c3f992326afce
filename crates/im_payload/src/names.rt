//! The namespaces of the payloads, each with the standard that names it.

/// The namespace of stream management (XEP-0198).
pub const MANAGEMENT: &str = "urn:xmpp:sm:3";

/// The namespace of resource binding (RFC 6120, section 7).
pub const BINDING: &str = "urn:ietf:params:xml:ns:xmpp-bind";

/// The namespace of stanza ids (XEP-0359).
pub const STANZA_IDS: &str = "urn:xmpp:sid:0";

/// The namespace of carbons (XEP-0280).
pub const CARBONS: &str = "urn:xmpp:carbons:2";

/// The namespace of pings (XEP-0199).
pub const PINGS: &str = "urn:xmpp:ping";

/// The namespace of requests for information (XEP-0030).
pub const DISCO_INFO: &str = "http://jabber.org/protocol/disco#info";

/// The namespace of requests for items (XEP-0030).
pub const DISCO_ITEMS: &str = "http://jabber.org/protocol/disco#items";

/// The namespace of the roster (RFC 6121, section 2).
pub const ROSTER: &str = "jabber:iq:roster";

/// The namespace of sessions (RFC 3921, section 3).
pub const SESSIONS: &str = "urn:ietf:params:xml:ns:xmpp-session";

/// The namespace of message archives (XEP-0313).
pub const ARCHIVE: &str = "urn:xmpp:mam:2";

/// The namespace of result sets (XEP-0059).
pub const RESULT_SETS: &str = "http://jabber.org/protocol/rsm";

/// The namespace of data forms (XEP-0004).
pub const DATA_FORMS: &str = "jabber:x:data";

/// The namespace of forwarded stanzas (XEP-0297).
pub const FORWARDING: &str = "urn:xmpp:forward:0";

/// The namespace of delays (XEP-0203).
pub const DELAYS: &str = "urn:xmpp:delay";

/// The namespace of SASL's elements (RFC 6120, section 6).
pub const SASL: &str = "urn:ietf:params:xml:ns:xmpp-sasl";
