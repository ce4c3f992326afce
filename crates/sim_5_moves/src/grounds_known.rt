//! The law.
ghost use Rattle.sim_5_moves.specs.GroundsKnownLaws.{GroundsAreKnown};

/// A law: where a world of the applications is beside a world of items of a list of lines, and little happens, all is known
/// of it that a stanza which comes down asks for: events of the list reach it, so what each event keeps holds; its
/// keep, its accounts and its devices are those that the list declares; and the takes are fewer than 2^64.
pub fn grounds_are_known()
    ensures { GroundsAreKnown }
{}
