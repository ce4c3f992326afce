//! What goes up, and time.
ghost use Rattle.sim_5_moves.specs.ClockLaws as laws;

/// A law: as the clock moves on, the world of the applications comes along: time passes there, and where a session of a
/// device was parked for too long, it ends.
pub fn ticks_run()
    ensures { laws.TicksRun }
{}

/// A law: so it does where the end of a connection is to be told to the server, also where it isn't due, or no such
/// connection is there.
pub fn ends_run()
    ensures { laws.EndsRun }
{}

/// A law: so it does where an item goes up on a connection of a device that is that of a word but a stanza: of the login, of
/// a binding or a resumption, on acknowledgement, or a footer.
pub fn silent_words_go_up()
    ensures { laws.SilentWordsGoUp }
{}
