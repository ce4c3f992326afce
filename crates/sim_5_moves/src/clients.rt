//! A stanza comes down to a client.
ghost use Rattle.sim_5_moves.specs.ClientsLaws.{StanzasComeDown};

/// A law: a stanza is the next item that comes to a device, on the connection that it has. Behind that move the worlds are
/// related still: in that of the applications the device drifts, and its client handles the stanza.
pub fn stanzas_come_down()
    ensures { StanzasComeDown }
{}
