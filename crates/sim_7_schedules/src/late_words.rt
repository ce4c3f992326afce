//! The law.
//!
//! A late `bind` or `resume` is said of all that comes on a connection without a session. That a bind was handled is
//! told by the sessions that the server has (`HasBound`).
ghost use Rattle.sim_7_schedules.specs.LateWordsLaws as laws;

/// A law: in each world of the history of a list of lines, where the server has no session on a connection, whatever of it
/// is handed to the server changes no archive, and of sessions only those of the device that dialled it (`changes`).
/// Where a `bind` or a `resume` comes (RFC 6120, section 7; XEP-0198, section 5), the server has none (`asks`). So it is of
/// a late one, on a connection that its device has left.
pub fn late_words_change_no_archive()
    ensures changes { laws.LateWordsChangeNoArchiveChanges }
    ensures asks { laws.LateWordsChangeNoArchiveAsks }
{}
