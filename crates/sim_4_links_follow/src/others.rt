//! What the server does for one device leaves the others.
ghost use Rattle.sim_4_links_follow.specs.OthersLaws as laws;

/// A law: whatever word of a device the server takes that is no stanza, of each other device nothing moves: also where
/// a session is bound, and the older one ends with its connection, and where one is resumed, parked or on another
/// connection, or its count is too high (RFC 6120, section 7; XEP-0198, section 5).
pub fn words_leave_others()
    ensures { laws.WordsLeaveOthers }
{}

/// A law: where the server hears of the end of a connection, so that a session there is parked or ends, likewise.
pub fn ends_leave_others()
    ensures { laws.EndsLeaveOthers }
{}

/// A law: where a connection comes under a new number, all that the server has of a device is what it was, and of its
/// pipes where another device dialled it.
pub fn connections_come_beside()
    ensures server { laws.ConnectionsComeBesideServer }
    ensures pipes { laws.ConnectionsComeBesidePipes }
{}
