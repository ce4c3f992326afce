//! Replies of a server that runs.
ghost use Rattle.sim_5_moves.specs.RepliesLaws as laws;

/// A law: to the session of a device goes what the server of the applications replies to its stanza, and nothing to another
/// session. Each item is built as it is read: answers to the device, and results that are entries of its account's history.
pub fn replies_are_served()
    ensures replied { laws.RepliesAreServedReplied }
    ensures others { laws.RepliesAreServedOthers }
    ensures built { laws.RepliesAreServedBuilt }
{}

/// A law: behind the stanza the server runs on, with the archives of the same takes, and told of no message. The flags of the
/// session are altered as in the applications: it wants copies behind the switch of carbons, and is available behind its
/// presence. Those of a session with another name stay. Sessions may end on the way, where their queue is full.
pub fn replies_leave_the_server_running()
    ensures runs { laws.RepliesLeaveTheServerRunningRuns }
    ensures silent { laws.RepliesLeaveTheServerRunningSilent }
    ensures flags { laws.RepliesLeaveTheServerRunningFlags }
    ensures spares { laws.RepliesLeaveTheServerRunningSpares }
{}
