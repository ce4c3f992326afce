//! A stanza goes up to the server.
//!
//! What a row gives a device is told by the small steps of the row (`sends_to`), not by what came out. A client that
//! leaves is a cut behind all that goes up.
//!
//! A server is said to be that of the applications by its archives and by whose its sessions are (`ServerSimulates`).
//! No session has come where flags show the same sessions (`none` of `AreFlagsKept`).
ghost use Rattle.sim_5_moves.specs.ServersLaws as laws;

/// A law: wherever events of the applications lead, the requests of a device that the server hasn't handled are for 100
/// entries at most, behind numbers that the archive of its account has given; also those of a client that is offline by now.
pub fn requests_are_placed()
    ensures { laws.RequestsArePlaced }
{}

/// A law: the next item that goes up on a connection of a device is that of a stanza. Behind that move the worlds are
/// beside one another still: in that of the applications all devices take session steps, the server handles the stanza
/// (of a message to an account that exists, with each other device told that hears of it), and all drift again.
pub fn stanzas_go_up()
    ensures { laws.StanzasGoUp }
{}

/// A law: so it is whatever goes up on a connection, also where nothing does, or no such connection is there.
pub fn ups_run()
    ensures { laws.UpsRun }
{}
