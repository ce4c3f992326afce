//! Dialers: how connections are made.
ghost use Rattle.std.specs.Prelude.{List, ℕ, [], ◌≡◌, ◌∷◌, ◌++◌, IfOk, is_ok};
ghost use Rattle.net_traits.specs.Links.{IsUnused, LinkView, counted_if, has_ended, has_failed};
ghost use Rattle.net_traits.specs.Opens.{IsOpenCounted};

use crate::fault::OpenFault;
use crate::link::Link;

/// How connections are made. Contracts alone see four things of it: `faults`, how many of its calls failed and how many
/// links came back that had failed; `ends`, how many links came back whose end was found; `handed`, how many links it handed
/// out; each stays at 2^64 - 1 once there. `given` has the links that were given back to it, in order.
pub trait Dialer {
    type Link: Link;

    ghost faults: { Self → ℕ };

    ghost ends: { Self → ℕ };

    ghost handed: { Self → ℕ };

    ghost given: { Self → List LinkView };

    /// A connection to a port of this machine: a link from which nothing was read and to which nothing was written. `Failed`
    /// comes only where `faults` rose in this call, and then none is handed out, as at want of memory, which leaves that count.
    fn dial(&mut self, port: u16) -> Result<Self::Link, OpenFault>
        ensures unused { IfOk result (λ link. IsUnused (Self.Link.told link)) }
        ensures cause { IsOpenCounted (faults self.old) (faults self.new) result }
        ensures handed { handed self.new ≡ counted_if (is_ok result) (handed self.old) }
        ensures ends { ends self.new ≡ ends self.old }
        ensures given { given self.new ≡ given self.old };

    /// Takes a link back, behind those that were given back before. `faults` rises where a read or a write of it failed, and
    /// `ends` where its end was found. It takes no memory.
    fn give_back(&mut self, link: Self::Link)
        ensures given { given self.new ≡ given self.old ++ Self.Link.told link ∷ [] }
        ensures faults { faults self.new ≡ counted_if (has_failed (Self.Link.told link)) (faults self.old) }
        ensures ends { ends self.new ≡ counted_if (has_ended (Self.Link.told link)) (ends self.old) }
        ensures handed { handed self.new ≡ handed self.old };
}
