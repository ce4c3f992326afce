//! The two halves of a link as one.
ghost use Rattle.std.specs.Prelude.{◌≡◌};
ghost use Rattle.net_traits.specs.Halves.{link_of};

use crate::incoming::Incoming;
use crate::link::Link;
use crate::outgoing::Outgoing;
use crate::pair::Pair;
use base_io::Failed;

/// A link that is made of its two halves.
#[derive(Drop)]
pub struct JoinedLink<I: Incoming + Drop, O: Outgoing + Drop> {
    incoming: I,
    outgoing: O,
    ghost same: { (I.told incoming).number ≡ (O.told outgoing).number },
}

impl<I: Incoming + Drop, O: Outgoing + Drop> JoinedLink<I, O> {
    ghost use Rattle.std.specs.Prelude.{◌≡◌};
    ghost use Rattle.net_traits.specs.Links.{IsUnused};

    /// The link of these halves.
    pub fn new(pair: Pair<I, O>) -> JoinedLink<I, O>
        ensures { IsUnused (⟦<JoinedLink<I, O> as Link>⟧.told result) }
    {
        let (incoming, outgoing) = pair.apart();
        JoinedLink { incoming, outgoing }
    }

    /// The halves, each by itself.
    pub fn apart(self) -> (I, O)
        ensures told { link_of (I.told result.0) (O.told result.1) ≡ ⟦<JoinedLink<I, O> as Link>⟧.told self }
        ensures number { (I.told result.0).number ≡ (O.told result.1).number }
    {
        let JoinedLink { incoming, outgoing } = self;
        (incoming, outgoing)
    }
}

impl<I: Incoming + Drop, O: Outgoing + Drop> Link for JoinedLink<I, O> {
    ghost told = { λ s. link_of (I.told s.incoming) (O.told s.outgoing) };

    ghost left = { λ s. (I.told s.incoming).left };

    fn read(&mut self, buf: &mut [u8]) -> Result<usize, Failed> {
        self.incoming.read(buf)
    }

    fn write(&mut self, bytes: &[u8]) -> Result<usize, Failed> {
        self.outgoing.write(bytes)
    }

    fn close(&mut self) {
        self.outgoing.close();
    }
}
