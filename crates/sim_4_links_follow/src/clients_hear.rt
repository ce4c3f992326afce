//! What a client does on each word that comes, but a stanza, is moves of the links.
ghost use Rattle.sim_4_links_follow.specs.ClientsHearLaws as laws;

/// A law: on each word of a login (RFC 6120, sections 4.3 and 6), and on the features behind it, a client does what it
/// does in the links, in one move: it goes on with its login, and then asks for a session, or to resume the one that it
/// has (XEP-0198, section 5).
pub fn logins_are_read()
    ensures { laws.LoginsAreRead }
{}

/// A law: where it reads that a session was bound, is counted, was resumed, or is no more (RFC 6120, section 7;
/// XEP-0198, sections 3 and 5), likewise: a session that is counted begins with two stanzas, and behind a resumption
/// what the server hasn't handled is sent again.
pub fn sessions_are_read()
    ensures { laws.SessionsAreRead }
{}

/// A law: a request is answered by the count, and a count, which is never too high, takes from the queue what it
/// acknowledges (XEP-0198, section 4), in one move each.
pub fn acknowledgements_are_read()
    ensures { laws.AcknowledgementsAreRead }
{}

/// A law: at an error of the stream (RFC 6120, section 4.9) the client leaves the connection, in two moves: it is cut,
/// so that all on its way down is lost, and let go. A count that was too high, and a footer alone, never come to it.
pub fn ends_are_read()
    ensures { laws.EndsAreRead }
{}
