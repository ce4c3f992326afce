//! Doors: where connections come in.
ghost use Rattle.std.specs.Prelude.{List, ℕ, [], ◌≡◌, ◌∷◌, ◌++◌, IfOk, is_ok};
ghost use Rattle.net_traits.specs.Links.{IsUnused, LinkView, counted_if};
ghost use Rattle.net_traits.specs.Opens.{IsOpenCounted};

use crate::fault::OpenFault;
use crate::link::Link;

/// Where connections come in. Contracts alone see three things of it: `faults`, how many of its calls failed, and `handed`,
/// how many links it handed out, which both stay at 2^64 - 1 once there; and `given`, the links that were given back to it,
/// in order.
pub trait Door {
    type Link: Link;

    ghost faults: { Self → ℕ };

    ghost handed: { Self → ℕ };

    ghost given: { Self → List LinkView };

    /// Opens the door at a port of this machine. `Failed` comes only where `faults` rose in this call. Want of memory leaves
    /// that count.
    fn listen(&mut self, port: u16) -> Result<(), OpenFault>
        ensures cause { IsOpenCounted (faults self.old) (faults self.new) result }
        ensures handed { handed self.new ≡ handed self.old }
        ensures given { given self.new ≡ given self.old };

    /// The next connection that comes in: a link from which nothing was read and to which nothing was written. `Failed`
    /// comes only where `faults` rose in this call, and then none is handed out, as at want of memory, which leaves that count.
    fn accept(&mut self) -> Result<Self::Link, OpenFault>
        ensures unused { IfOk result (λ link. IsUnused (Self.Link.told link)) }
        ensures cause { IsOpenCounted (faults self.old) (faults self.new) result }
        ensures handed { handed self.new ≡ counted_if (is_ok result) (handed self.old) }
        ensures given { given self.new ≡ given self.old };

    /// Takes a link back, behind those that were given back before. It takes no memory.
    fn give_back(&mut self, link: Self::Link)
        ensures given { given self.new ≡ given self.old ++ Self.Link.told link ∷ [] }
        ensures faults { faults self.new ≡ faults self.old }
        ensures handed { handed self.new ≡ handed self.old };
}
