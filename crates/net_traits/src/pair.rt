//! The two halves of one link.
//!
//! `accept_halves` answers a `Pair`, whose ghost field says that both halves are unused and of one number: so the
//! fact crosses the queue.
ghost use Rattle.std.specs.Prelude.{◌≡◌};
ghost use Rattle.net_traits.specs.Halves.{IsUnusedPair};

use crate::incoming::Incoming;
use crate::outgoing::Outgoing;

/// The two halves of one link, from which nothing was read and to which nothing was written.
#[derive(Drop)]
pub struct Pair<I: Incoming + Drop, O: Outgoing + Drop> {
    pub incoming: I,
    pub outgoing: O,
    pub ghost unused: { IsUnusedPair (I.told incoming) (O.told outgoing) },
}

impl<I: Incoming + Drop, O: Outgoing + Drop> Pair<I, O> {
    /// The pair of these halves.
    pub fn new(incoming: I, outgoing: O) -> Pair<I, O>
        requires { IsUnusedPair (I.told incoming) (O.told outgoing) }
        ensures incoming { result.incoming ≡ incoming }
        ensures outgoing { result.outgoing ≡ outgoing }
    {
        Pair { incoming, outgoing }
    }

    /// The halves, each by itself.
    pub fn apart(self) -> (I, O)
        ensures halves { (result.0 ≡ self.incoming) × (result.1 ≡ self.outgoing) }
        ensures unused { IsUnusedPair (I.told result.0) (O.told result.1) }
    {
        let Pair { incoming, outgoing } = self;
        (incoming, outgoing)
    }
}
