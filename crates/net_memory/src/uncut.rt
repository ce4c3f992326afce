//! What the halves of a link are made of.
ghost use Rattle.std.specs.Prelude.{◌≡◌, false, IfOk};

use base_io::NoMemory;
use net_traits::{Incoming, Outgoing, Pair};
use std::alloc::Global;

/// What the two halves of a link are made of once it is handed out.
pub trait Uncut {
    type Incoming: Incoming + Drop;

    type Outgoing: Outgoing + Drop;

    /// The halves, with this number. They are not closed.
    fn cut(
        self,
        alloc: Global,
        number: u64,
    ) -> Result<Pair<Self::Incoming, Self::Outgoing>, NoMemory>
        ensures number { IfOk result (λ pair. (Self.Incoming.told pair.incoming).number ≡ number) }
        ensures open { IfOk result (λ pair. Self.Outgoing.closed pair.outgoing ≡ false) };
}
