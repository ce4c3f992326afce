//! Bytes that are handed to a device.
ghost use Rattle.std.specs.Prelude.{◌≡◌, ◌≤◌, length, OnOk};
ghost use Rattle.cmd_world.specs.Moves.{Down, end_heard, heard_by, heard_first, link_of, moved};

use crate::world::World;
use base_io::NoMemory;
use cmd_network::{Device, Wire, amount};
use cmd_schedule::Count;
use std::alloc::Global;

// The first n bytes of a connection go to its device, and leave the pipe down. What its client puts enters the pipe up, and
// where the client leaves for a fault of the server, the pipes are left behind that.
fn hear(alloc: Global, wire: &mut Wire, device: &mut Device, n: usize) -> Result<(), NoMemory>
    requires { n ≤ length wire.old.down.bytes }
    ensures { OnOk result (link_of wire.new device.new ≡ heard_first n (link_of wire.old device.old)) }
{
    if n == 0 {
        return Ok(());
    }
    let put = device.hear(alloc, wire.down.first(n))?;
    wire.down.hand(n);
    wire.put_up(put.as_slice())?;
    if device.is_left() {
        wire.leave();
    }
    Ok(())
}

// The client is told that its connection is lost, once nothing is under way and nothing comes, if this is still its connection.
fn tell_down(position: usize, wire: &mut Wire, device: &mut Device)
    ensures { link_of wire.new device.new ≡ end_heard position (link_of wire.old device.old) }
{
    if device.has_wire(position) && wire.down.is_end_due() {
        device.lose();
        wire.down.tell_end();
    }
}

// So many bytes of the connection at a place go to its device, if this is the connection that it has.
fn hear_count(
    alloc: Global,
    position: usize,
    count: Count,
    wire: &mut Wire,
    device: &mut Device,
) -> Result<(), NoMemory>
    ensures { OnOk result (link_of wire.new device.new ≡ heard_by position count (link_of wire.old device.old)) }
{
    if !device.has_wire(position) {
        return Ok(());
    }
    let n = amount(count, &wire.down);
    hear(alloc, wire, device, n)?;
    tell_down(position, wire, device);
    Ok(())
}

impl World {
    /// Bytes of the connection at a place are handed to its device.
    pub fn down(&mut self, position: usize, count: Count) -> Result<(), NoMemory>
        ensures { OnOk result (self.new ≡ moved (Down position count) self.old) }
    {
        if position >= self.wires.len() {
            return Ok(());
        }
        let device = self.wires[position].device;
        if device >= self.devices.len() {
            return Ok(());
        }
        hear_count(
            self.alloc,
            position,
            count,
            &mut self.wires[position],
            &mut self.devices[device],
        )
    }
}
