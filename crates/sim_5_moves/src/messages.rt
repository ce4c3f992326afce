//! What becomes of a submission at a server is what becomes of it in the applications.
ghost use Rattle.sim_5_moves.specs.MessagesLaws as laws;

/// A law: on a submission of a device's session, a server whose archives are those of the takes does what the server of the
/// applications does. It takes the message where an account has the name that it is to: then the archives are those of the
/// takes with this one, and it tells of this take, and of nothing else. What it sends to the session of a device, its own
/// or another one, is read as what the applications put there: its own reply, and the number in its account's archive
/// where the session hears of the take. Each stanza of it is built as it is read.
pub fn messages_are_heard()
    ensures archives { laws.MessagesAreHeardArchives }
    ensures told { laws.MessagesAreHeardTold }
    ensures sends { laws.MessagesAreHeardSends }
    ensures built { laws.MessagesAreHeardBuilt }
{}

/// A law: hearing is that of the applications. Where a device's session has the flags of the applications, it hears of a take
/// exactly where the device does there. Behind a submission each session that is left has the flags that it had.
pub fn hearing_is_that_of_the_applications()
    ensures flags { laws.HearingIsThatOfTheApplicationsFlags }
    ensures hears { laws.HearingIsThatOfTheApplicationsHears }
{}
