//! The laws.
//!
//! `HasBound` doesn't tell of a bind that comes before the session before it was enabled: of such a bind
//! `nothing_older_is_taken_after_a_handled_bind` speaks, of the run of the applications beside the history.
ghost use Rattle.sim_7_schedules.specs.BindsLaws as laws;

/// A law: in a world of the history of a list of lines each session that the server has of a device is enabled (XEP-0198,
/// section 3), or it has none; in a later one, `bound`, it has one that isn't. So it has handled a bind of that device
/// (RFC 6120, section 7). Then what any later world has of takes beyond that one is, of this device, of epochs above the
/// one that its client had reached before the bind: no message of an older session comes into an archive any more
/// (`bound`). And whatever was bound, of an epoch that the client has left behind nothing is taken any more (`left`).
pub fn nothing_older_is_taken_after_a_bind()
    ensures bound { laws.NothingOlderIsTakenAfterABindBound }
    ensures left { laws.NothingOlderIsTakenAfterABindLeft }
{}

/// A law: so it is behind each bind that the server handles in a run of the applications beside the list's history,
/// whatever the session before it was: of the device nothing more is taken of an epoch that it had reached by then.
pub fn nothing_older_is_taken_after_a_handled_bind()
    ensures { laws.NothingOlderIsTakenAfterAHandledBind }
{}
