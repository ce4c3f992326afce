//! Connections that come and go, and items that come down.
ghost use Rattle.sim_5_moves.specs.DownMovesLaws as laws;

/// A law: behind each dial the worlds are related still. The device has one more connection, with the login that
/// its bytes make, and sessions that were parked for too long may end (XEP-0198, section 5). Where the device isn't there
/// nothing happens.
pub fn dials_run()
    ensures { laws.DialsRun }
{}

/// A law: likewise where the network cuts a connection: its device drifts.
pub fn cuts_run()
    ensures { laws.CutsRun }
{}

/// A law: and where its end is told to a device, which then keeps its session.
pub fn ends_are_told_run()
    ensures { laws.EndsAreToldRun }
{}

/// A law: the next item that comes to a device, on the connection that it has, is that of a word of a login or of what
/// is offered behind it, of a request for a count, or of an error of the stream (`IsSilentWord`). Then the device
/// drifts, and its client has no label.
pub fn silent_words_come_down()
    ensures { laws.SilentWordsComeDown }
{}

/// A law: behind each item that comes down on a connection the worlds are related still. Where there is no such
/// connection, where nothing is on it, or where its device has another one, nothing happens.
pub fn downs_run()
    ensures { laws.DownsRun }
{}
