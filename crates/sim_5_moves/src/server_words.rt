//! What comes to a server that runs, but stanzas.
ghost use Rattle.sim_5_moves.specs.ServerWordsLaws as laws;

/// A law: behind an item that is no stanza the server runs on with the archives of the same takes, it tells of no message, and
/// the flags of each device's session are as they were. On a connection that isn't open nothing is done.
pub fn non_stanza_items_leave_the_server_running()
    ensures runs { laws.NonStanzaItemsLeaveTheServerRunningRuns }
    ensures silent { laws.NonStanzaItemsLeaveTheServerRunningSilent }
    ensures flags { laws.NonStanzaItemsLeaveTheServerRunningFlags }
    ensures closed { laws.NonStanzaItemsLeaveTheServerRunningClosed }
{}

/// A law: behind a binding of a device the server runs on with the archives of the same takes, and tells of no message. The
/// device's session has no flags, as the applications have it before it is read of; those of other devices stay.
pub fn bindings_leave_the_server_running()
    ensures runs { laws.BindingsLeaveTheServerRunningRuns }
    ensures silent { laws.BindingsLeaveTheServerRunningSilent }
    ensures flags { laws.BindingsLeaveTheServerRunningFlags }
    ensures spares { laws.BindingsLeaveTheServerRunningSpares }
{}

/// A law: where a connection comes or is gone, and as time passes, the server runs on with the archives of the same takes, and
/// flags are as they were.
pub fn other_events_leave_the_server_running()
    ensures gone { laws.OtherEventsLeaveTheServerRunningGone }
    ensures gone_flags { laws.OtherEventsLeaveTheServerRunningGoneFlags }
    ensures moment { laws.OtherEventsLeaveTheServerRunningMoment }
    ensures moment_flags { laws.OtherEventsLeaveTheServerRunningMomentFlags }
    ensures comes { laws.OtherEventsLeaveTheServerRunningComes }
    ensures comes_flags { laws.OtherEventsLeaveTheServerRunningComesFlags }
{}

/// A law: a stanza of a session counts first, where the session's are counted, and is handled.
pub fn stanzas_are_counted_and_handled()
    ensures { laws.StanzasAreCountedAndHandled }
{}
