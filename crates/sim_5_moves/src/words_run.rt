//! Words, and flags.
//!
//! Words are told as items, and not items as words: items tell counts modulo 2^32 and sessions by their `previd`, so
//! the item of a word is a function.
ghost use Rattle.sim_5_moves.specs.WordsRunLaws as laws;

/// A law: behind a word of a device that is no stanza the server runs on with the archives of the same takes, and tells of no
/// message. All flags stay as the applications have them (`flags`), but that behind a binding the device's session has none
/// (`bare`), and those of other devices stay there too (`spares`).
pub fn words_leave_the_server_running()
    ensures runs { laws.WordsLeaveTheServerRunningRuns }
    ensures silent { laws.WordsLeaveTheServerRunningSilent }
    ensures flags { laws.WordsLeaveTheServerRunningFlags }
    ensures bare { laws.WordsLeaveTheServerRunningBare }
    ensures spares { laws.WordsLeaveTheServerRunningSpares }
{}

/// A law: a stanza of a device's session counts first and is handled: the step of the laws on replies and of
/// those on messages.
pub fn stanzas_are_steps()
    ensures { laws.StanzasAreSteps }
{}

/// A law: flags that show a device's sessions show them behind its labels, and behind what else becomes of a session at
/// the server but a binding. Where the session has no flags, they show all sessions of which the client hasn't read.
pub fn flags_follow_sessions<A>()
    ensures labels { laws.FlagsFollowSessionsLabels A }
    ensures session_steps { laws.FlagsFollowSessionsSessionSteps }
    ensures bound { laws.FlagsFollowSessionsBound }
    ensures bare { laws.FlagsFollowSessionsBare }
{}
