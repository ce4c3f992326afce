//! A word on a session comes down to a client.
ghost use Rattle.sim_5_moves.specs.SessionWordsLaws.{SessionWordsComeDown};

/// A law: the next item that comes to a device, on the connection that it has, is that of a word on its session: that a
/// resource was bound (RFC 6120, section 7), that stanzas are counted, that the session is resumed or is no more, or how
/// many stanzas were handled (XEP-0198, sections 3 to 5). Behind that move the worlds are related still: in
/// that of the applications the device drifts, and its client learns what the word says.
pub fn session_words_come_down()
    ensures { SessionWordsComeDown }
{}
