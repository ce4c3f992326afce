//! The namespaces of stanzas, streams and their errors.

/// The namespace of stanzas between a client and its server (RFC 6120, section 4.8.3).
pub const CLIENT: &str = "jabber:client";

/// The namespace of `xml:lang` (Namespaces in XML 1.0, section 3).
pub const XML: &str = "http://www.w3.org/XML/1998/namespace";

/// The namespace of streams (RFC 6120, section 4.8.1).
pub const STREAMS: &str = "http://etherx.jabber.org/streams";

/// The namespace of the conditions of stanza errors (RFC 6120, section 8.3.2).
pub const STANZA_ERRORS: &str = "urn:ietf:params:xml:ns:xmpp-stanzas";

/// The namespace of the conditions of stream errors (RFC 6120, section 4.9.2).
pub const STREAM_ERRORS: &str = "urn:ietf:params:xml:ns:xmpp-streams";
