//! What a server does on a stanza is moves of the links.
ghost use Rattle.sim_4_links_follow.specs.StanzasLaws as laws;

/// A law: a stanza that comes to the server on a connection of a device is one of the device's session, which is
/// counted (`comes`). There the server takes it in the links, and then gives the device what the row on the stanza
/// sends to its session: all of it, or, where the session ends since no more stanzas may wait in its queue, what was
/// sent before that. The server's outputs tell it: it is what they put on the session's connection and begins as a
/// stanza does; or it joined the queue of a session that is parked, where that lives on (`follows`).
pub fn stanzas_follow()
    ensures comes { laws.StanzasFollowComes }
    ensures follows { laws.StanzasFollowFollows }
{}

/// A law: to each other device the server gives what the row sends to that one's session, in the same way; else nothing
/// moves there.
pub fn stanzas_reach_others()
    ensures { laws.StanzasReachOthers }
{}
