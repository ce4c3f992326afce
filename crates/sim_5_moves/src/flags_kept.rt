//! Flags, and what a client has, where a device takes session steps.
ghost use Rattle.sim_5_moves.specs.FlagsKeptLaws as laws;

/// A law: a server that is the same shows a device before a move and behind it. Where the device drifted, to sessions with
/// the row that it has in the end, the flags of its session show these too: one that was bound amid has none (`flags`).
/// What the client put stays, and what of it is acknowledged (`puts`, `acked`).
pub fn flags_stay()
    ensures flags { laws.FlagsStayFlags }
    ensures puts { laws.FlagsStayPuts }
    ensures acked { laws.FlagsStayAcked }
{}
