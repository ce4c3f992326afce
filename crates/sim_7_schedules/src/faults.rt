//! The laws.
//!
//! `counts_are_too_high_only_where_the_client_left` says a little less than holds: also on a connection whose end the
//! client was told the count is what it handled. `counts_are_too_high_only_after_a_newer_connection` says when it is
//! too high.
ghost use Rattle.sim_7_schedules.specs.FaultsLaws as laws;

/// A law: no catch-up fails in a world of the history of a list of lines. However many bytes of those under way are handed to a
/// device on its connection, its client tells no `CatchUpFault`: the server refuses no page, no page has more results than
/// were asked for, its end tells the last result that came, none comes twice, and each page but the last has one
/// (XEP-0313, section 4; XEP-0059).
pub fn no_page_fails()
    ensures { laws.NoPageFails }
{}

/// A law: and there are few stream errors (RFC 6120, section 4.9.3). However many bytes are handed to a device, its client
/// tells of none of the server's but `conflict` and `resource-constraint`; it ends no stream by one itself, as it would for a
/// count that is too high (XEP-0198, section 4), and leaves no connection since too many stanzas wait (`told`). Of those
/// that the server put, on whatever connection of a device and also where they were lost, each is one of these two, or that
/// for a resumption whose count is too high, on a connection on which the client works no more (`put`).
pub fn streams_end_for_few_reasons()
    ensures told { laws.StreamsEndForFewReasonsTold }
    ensures put { laws.StreamsEndForFewReasonsPut }
{}
