//! Looks at the clients of devices. Only the intents of a device whose client changed need look.
ghost use Rattle.std.specs.Prelude.{◌≡◌};
ghost use Rattle.cmd_resolving.specs.Expansion.{looked_at};
ghost use Rattle.cmd_deciding.specs.Looks.{looked_once};

use crate::lists::observe_at;
use crate::watch::Watch;

impl Watch {
    /// The intents of the device at an index look at its client. It takes no memory.
    #[tactic(auto, using(crate::proofs::Looked::nobody_looks, crate::proofs::Looked::somebody_looks))]
    pub(crate) fn look_at(&mut self, index: usize)
        ensures { self.new ≡ looked_once index self.old }
    {
        match self.world.devices().get(index) {
            Some(device) => observe_at(&mut self.intents, index, device.client()),
            None => {}
        }
    }

    /// Those of all devices look. It takes no memory.
    #[tactic(auto, using(crate::proofs::Looked::all_looked, crate::proofs::Rooms::many_rooms))]
    pub(crate) fn look_at_all(&mut self)
        ensures { self.new ≡ looked_at self.old.world self.old.intents }
    {
        let count = self.intents.len();
        for index in 0..count {
            self.look_at(index);
        }
    }
}
