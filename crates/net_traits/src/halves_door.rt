//! Doors that hand out links in halves.
//!
//! Doors that hand out halves are types of their own: a door moves into a thread, so it can't borrow the network.
ghost use Rattle.std.specs.Prelude.{◌≡◌, [], ◌∷◌, ◌++◌, false, IfOk, is_ok};
ghost use Rattle.net_traits.specs.Links.{counted_if};
ghost use Rattle.net_traits.specs.Opens.{IsOpenCounted};
ghost use Rattle.net_traits.specs.Halves.{link_of};

use crate::door::Door;
use crate::fault::OpenFault;
use crate::incoming::Incoming;
use crate::outgoing::Outgoing;
use crate::pair::Pair;

/// A door that also hands out links in halves, so that a link can be read in one thread and written in another.
pub trait Halves: Door {
    type Incoming: Incoming + Drop;

    type Outgoing: Outgoing + Drop;

    /// The next connection that comes in, in halves. They have the number of the links that were handed out so far, with
    /// this one, and are not closed. `Failed` comes only where `faults` rose in this call, and then none is handed out, as at
    /// want of memory, which leaves that count.
    fn accept_halves(&mut self) -> Result<Pair<Self::Incoming, Self::Outgoing>, OpenFault>
        ensures cause { IsOpenCounted (Self.faults self.old) (Self.faults self.new) result }
        ensures handed { Self.handed self.new ≡ counted_if (is_ok result) (Self.handed self.old) }
        ensures number { IfOk result (λ pair. (Self.Incoming.told pair.incoming).number ≡ Self.handed self.new) }
        ensures open { IfOk result (λ pair. Self.Outgoing.closed pair.outgoing ≡ false) }
        ensures given { Self.given self.new ≡ Self.given self.old };

    /// Takes the halves of a link back, behind the links that were given back before. It takes no memory.
    fn give_back_halves(&mut self, incoming: Self::Incoming, outgoing: Self::Outgoing)
        requires { (Self.Incoming.told incoming).number ≡ (Self.Outgoing.told outgoing).number }
        ensures given { Self.given self.new ≡ Self.given self.old ++ link_of (Self.Incoming.told incoming) (Self.Outgoing.told outgoing) ∷ [] }
        ensures faults { Self.faults self.new ≡ Self.faults self.old }
        ensures handed { Self.handed self.new ≡ Self.handed self.old };
}
