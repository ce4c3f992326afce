//! What is seen of a world between its moves: its devices with their clients, and its connections.
ghost use Rattle.std.specs.Prelude.{◌≡◌, slice_get};
ghost use Rattle.std.specs.Option.{option_map};
ghost use Rattle.base_io.specs.Names.{position_of};

use crate::world::World;
use cl_core::Client;
use cmd_network::{Device, Wire};

impl World {
    /// The client of the device at an index, in the order in which the devices are declared, from 0. `None` exactly where
    /// there is no such device. It takes no memory.
    pub fn client(&self, device: u32) -> Option<&Client>
        ensures { option_map (λ c. c.now) result ≡ option_map (λ d. d.client) (slice_get self.now.devices device) }
    {
        match self.devices.get(device as usize) {
            Some(device) => Some(device.client()),
            None => None,
        }
    }

    /// The devices, in the order in which they are declared.
    pub fn devices(&self) -> &[Device]
        ensures { result.now ≡ self.now.devices }
    {
        self.devices.as_slice()
    }

    /// The index of the device of a name among the devices, from 0. `None` exactly where none has the name.
    pub fn position(&self, device: &str) -> Option<usize>
        ensures { result ≡ position_of device.now self.now.names }
    {
        self.index.find(device)
    }

    /// The connections, in the order in which they were dialed.
    pub fn wires(&self) -> &[Wire]
        ensures { result.now ≡ self.now.wires }
    {
        self.wires.as_slice()
    }
}
