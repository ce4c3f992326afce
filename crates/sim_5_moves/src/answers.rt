//! What the server sends is what the server of the applications puts.
ghost use Rattle.sim_5_moves.specs.AnswersLaws as laws;

/// A law: what the server sends to the session whose stanza it handles is read as what the server of the applications
/// replies: that carbons are on; nothing to a presence; and to a request the page of the archive of its account, or that
/// the place isn't there (XEP-0313, section 4; XEP-0059, section 2.2). Nothing goes to another session; this one wants
/// copies from then on, or is available with the priority 0.
pub fn replies_are_answers()
    ensures carbons { laws.RepliesAreAnswersCarbons }
    ensures presence { laws.RepliesAreAnswersPresence }
    ensures copies { laws.RepliesAreAnswersCopies }
    ensures presents { laws.RepliesAreAnswersPresents }
    ensures request { laws.RepliesAreAnswersRequest }
    ensures others { laws.RepliesAreAnswersOthers }
{}

/// A law: a message to an account of the server, whose archive and the sender's have room, is heard by the sessions that
/// hear of it in the applications (`hears`): each gets it once, delivered or as a copy, and reads the number that it gets in
/// the archive of its account. A number that no session has gets nothing. A message to a name that no account has comes
/// back to the session that sent it, and goes nowhere else.
pub fn messages_are_answered()
    ensures heard { laws.MessagesAreAnsweredHeard }
    ensures nobody { laws.MessagesAreAnsweredNobody }
    ensures bounced { laws.MessagesAreAnsweredBounced }
    ensures others { laws.MessagesAreAnsweredOthers }
{}
