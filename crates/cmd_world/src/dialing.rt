//! Connections that devices make and leave.
ghost use Rattle.std.specs.Prelude.{◌≡◌, ◌∷◌, ◌++◌, [], IfOk, OnOk};
ghost use Rattle.cmd_network.specs.Positions.{changed_where};
ghost use Rattle.cmd_network.specs.Wires.{fresh_wire, left, put_up};
ghost use Rattle.cmd_world.specs.Moves.{Close, Dial, Forget, moved};
ghost use Rattle.cmd_world.specs.Standing.{IsNumbered};
ghost use Rattle.cmd_world.specs.Worlds;

use crate::world::World;
use base_io::NoMemory;
use cmd_network::{Wire, leave_wire, put_up_wire};
use std::alloc::Global;

// What is drawn for the server's end of a connection: its number.
fn server_entropy(number: u64) -> [u8; 24]
    ensures { result ≡ Worlds.server_entropy number }
{
    let [a, b, c, d, e, f, g, h] = number.to_be_bytes();
    [
        0, 0, 0, 0, 0, 0, 0, 0, 0, 0, 0, 0, 0, 0, 0, 0, a, b, c, d, e, f, g, h,
    ]
}

// And for the client's.
fn client_entropy(number: u64) -> [u8; 24]
    ensures { result ≡ Worlds.client_entropy number }
{
    let [a, b, c, d, e, f, g, h] = number.to_be_bytes();
    [
        1, 0, 0, 0, 0, 0, 0, 0, 0, 0, 0, 0, 0, 0, 0, 0, a, b, c, d, e, f, g, h,
    ]
}

// A new connection of the device at a place, with the bytes that its client put.
fn dialed_wire(alloc: Global, device: usize, put: &[u8]) -> Result<Wire, NoMemory>
    ensures { IfOk result (λ wire. wire ≡ put_up put.now (fresh_wire device)) }
{
    let mut wire = Wire::new(alloc, device);
    wire.put_up(put)?;
    Ok(wire)
}

// The connection that a device has is left, and its new one stands behind all others.
fn add_wire(
    alloc: Global,
    wires: &mut Vec<Wire>,
    here: Option<usize>,
    device: usize,
    put: &[u8],
) -> Result<(), NoMemory>
    ensures { OnOk result (wires.new.items ≡ changed_where here left wires.old.items ++ put_up put.now (fresh_wire device) ∷ []) }
{
    let wire = dialed_wire(alloc, device, put)?;
    leave_wire(wires, here);
    wires.push(wire)?;
    Ok(())
}

impl World {
    /// The device at a place dials: it leaves the connection that it has, and a new one is made.
    #[tactic(auto, using(crate::proofs::Numbers::fresh_conn_at, crate::proofs::Numbers::fresh_framer_at))]
    pub(crate) fn dial(&mut self, position: usize) -> Result<(), NoMemory>
        requires { IsNumbered self.old }
        ensures { OnOk result (self.new ≡ moved (Dial position) self.old) }
    {
        if position >= self.devices.len() {
            return Ok(());
        }
        let here = self.devices[position].here();
        let wire = self.wires.len();
        let number = wire as u64 + 1;
        let put = self.devices[position].dial(self.alloc, &client_entropy(number), wire)?;
        self.server
            .connect(number, &server_entropy(number), self.moment)?;
        add_wire(self.alloc, &mut self.wires, here, position, put.as_slice())
    }

    /// The device at a place leaves its connection, and its session ends.
    pub(crate) fn forget(&mut self, position: usize)
        ensures { self.new ≡ moved (Forget position) self.old }
    {
        if position >= self.devices.len() {
            return;
        }
        let here = self.devices[position].here();
        self.devices[position].forget();
        leave_wire(&mut self.wires, here);
    }

    /// The device at a place closes its stream and leaves its connection, and its session ends.
    pub(crate) fn close(&mut self, position: usize) -> Result<(), NoMemory>
        ensures { OnOk result (self.new ≡ moved (Close position) self.old) }
    {
        if position >= self.devices.len() {
            return Ok(());
        }
        let here = self.devices[position].here();
        let put = self.devices[position].close(self.alloc)?;
        put_up_wire(&mut self.wires, here, put.as_slice())?;
        leave_wire(&mut self.wires, here);
        Ok(())
    }
}
