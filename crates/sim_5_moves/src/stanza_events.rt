//! What the server of the applications does on a stanza, where sessions drift before and behind.
ghost use Rattle.sim_5_moves.specs.StanzaEventsLaws as laws;

/// A law: where a device's message to an account that exists is handled, and each other device hears of it or doesn't, each
/// amid drifts of its own sessions, these are events of the world of the applications: all drift, the server handles the
/// message, where the queues are full that are, and all drift again.
pub fn messages_are_events()
    ensures { laws.MessagesAreEvents }
{}

/// A law: where a stanza of a device is handled by which no message is taken, and each other device only takes session
/// steps, these are events of the world of the applications: the server handles it and replies, to as many as fit, and
/// what becomes of the device's flags, of its page and of the answers that were made is what the applications say.
pub fn replies_are_events()
    ensures { laws.RepliesAreEvents }
{}

/// A law: what the server gives in the links, to a device that hears of a take or doesn't, also directly behind its message
/// that is taken, and what it replies, is what these events need.
pub fn labels_are_handled<A>()
    ensures beside { laws.LabelsAreHandledBeside A }
    ensures own { laws.LabelsAreHandledOwn A }
    ensures replied { laws.LabelsAreHandledReplied A }
{}
