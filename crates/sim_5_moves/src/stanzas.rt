//! What was given to a device, as the stanzas of the applications.
ghost use Rattle.sim_5_moves.specs.StanzasLaws as laws;

/// A law: of a message that is taken each device is given, by what the links say was given, what it hears of the take in the
/// applications: the number in its account's archive, where it hears; or nothing, where its queue is full and its session ended.
pub fn messages_are_given()
    ensures { laws.MessagesAreGiven }
{}

/// A law: where what is sent to a session is read as a reply, all of that was given, or what comes before the stanza that was
/// too many, and the session ended. Where nothing is sent nothing was given.
pub fn stanzas_are_given()
    ensures replied { laws.StanzasAreGivenReplied }
    ensures nothing { laws.StanzasAreGivenNothing }
{}
