//! What a server does on each item is moves of the links.
ghost use Rattle.sim_4_links_follow.specs.ServersLaws as laws;

/// A law: on each word of a login (RFC 6120, sections 4.3 and 6) the server does what it does in the links: it is one
/// move there.
pub fn logins_follow()
    ensures { laws.LoginsFollow }
{}

/// A law: on each word on the acknowledgement of stanzas (XEP-0198, sections 3 and 4) likewise: a session is counted
/// from its `enable` on, a request is answered by the count, and a count takes from the queue what it acknowledges.
pub fn acknowledgements_follow()
    ensures { laws.AcknowledgementsFollow }
{}

/// A law: on a footer (RFC 6120, section 4.4) likewise: the server puts its own and shuts the connection, and a session
/// on it ends, in at most two moves.
pub fn footers_follow()
    ensures { laws.FootersFollow }
{}

/// A law: where the server hears of the end of a connection, it does so in the links: a session on it is parked where
/// it is counted, and else ends (XEP-0198, section 5).
pub fn ends_follow()
    ensures { laws.EndsFollow }
{}

/// A law: on a binding (RFC 6120, section 7) likewise: the older session of the device ends, with its connection told
/// so and shut, where it has one, and the new session is on the connection, in at most three moves.
pub fn bindings_follow()
    ensures { laws.BindingsFollow }
{}

/// A law: on a resumption (XEP-0198, section 5) likewise. Where the server doesn't have the session, or can't resume it,
/// it says so, and the connection stays as it is. Else the session comes to the connection, from where it was parked, or
/// from another connection, where the stream ends first, by `conflict`; what is behind the count is sent again, and a
/// request goes out behind it where as many stanzas wait. Only on a connection that the client left a count can be behind
/// the one acknowledged: then the session ends.
pub fn resumptions_follow()
    ensures { laws.ResumptionsFollow }
{}

/// A law: as time passes a session that was parked for too long ends in the links too, and nothing else happens.
pub fn moments_follow()
    ensures { laws.MomentsFollow }
{}

/// A law: what the server does on a word of a login, on one on acknowledgement and on a footer leaves the part of
/// another device as it is, also in the links.
pub fn other_devices_stay()
    ensures { laws.OtherDevicesStay }
{}

/// A law: each item that comes to the server on a connection of the device is that of the first word there; and what
/// the laws say of the step that it takes on the item holds in the world of items.
pub fn items_are_words()
    ensures words { laws.ItemsAreWordsWords }
    ensures worlds { laws.ItemsAreWordsWorlds }
{}
