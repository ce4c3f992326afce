//! All connections, in the order in which they were dialed: the one at place p has number p + 1.
ghost use Rattle.std.specs.Prelude.{◌≡◌, OnOk};
ghost use Rattle.cmd_network.specs.Positions.{changed_at, changed_under, changed_where};
ghost use Rattle.cmd_network.specs.Wires.{cut_at, left, put_down, put_up, shut};

use crate::wire::Wire;
use base_io::NoMemory;

/// The connection at a place is cut, where there is one. It takes no memory.
#[tactic(auto, using(crate::proofs::Positions::changed_nowhere))]
pub fn cut_wire(wires: &mut Vec<Wire>, position: usize, up: usize, down: usize)
    ensures { wires.new.items ≡ changed_at position (cut_at up down) wires.old.items }
{
    if position < wires.len() {
        wires[position].cut(up, down);
    }
}

// The connection at a place is left, where there is one.
#[tactic(auto, using(crate::proofs::Positions::changed_nowhere))]
fn leave_at(wires: &mut Vec<Wire>, position: usize)
    ensures { wires.new.items ≡ changed_at position left wires.old.items }
{
    if position < wires.len() {
        wires[position].leave();
    }
}

/// The connection that a device has is left, where it has one. It takes no memory.
pub fn leave_wire(wires: &mut Vec<Wire>, here: Option<usize>)
    ensures { wires.new.items ≡ changed_where here left wires.old.items }
{
    match here {
        Some(position) => leave_at(wires, position),
        None => {}
    }
}

// Bytes of a device enter the pipe up of the connection at a place.
#[tactic(auto, using(crate::proofs::Positions::changed_nowhere))]
fn put_up_at(wires: &mut Vec<Wire>, position: usize, bytes: &[u8]) -> Result<(), NoMemory>
    ensures { OnOk result (wires.new.items ≡ changed_at position (put_up bytes.now) wires.old.items) }
{
    if position < wires.len() {
        wires[position].put_up(bytes)
    } else {
        Ok(())
    }
}

/// Bytes of a device enter the pipe up of the connection that it has, where it has one.
pub fn put_up_wire(wires: &mut Vec<Wire>, here: Option<usize>, bytes: &[u8]) -> Result<(), NoMemory>
    ensures { OnOk result (wires.new.items ≡ changed_where here (put_up bytes.now) wires.old.items) }
{
    match here {
        Some(position) => put_up_at(wires, position, bytes),
        None => Ok(()),
    }
}

// Bytes of the server enter the pipe down of the connection at a place.
#[tactic(auto, using(crate::proofs::Positions::changed_nowhere))]
fn put_down_at(wires: &mut Vec<Wire>, position: usize, bytes: &[u8]) -> Result<(), NoMemory>
    ensures { OnOk result (wires.new.items ≡ changed_at position (put_down bytes.now) wires.old.items) }
{
    if position < wires.len() {
        wires[position].put_down(bytes)
    } else {
        Ok(())
    }
}

/// Bytes of the server enter the pipe down of the connection under a number.
#[tactic(auto, using(crate::proofs::Positions::under_none, crate::proofs::Positions::under_one))]
pub fn put_down_wire(wires: &mut Vec<Wire>, number: u64, bytes: &[u8]) -> Result<(), NoMemory>
    ensures { OnOk result (wires.new.items ≡ changed_under number (put_down bytes.now) wires.old.items) }
{
    if number == 0 {
        return Ok(());
    }
    put_down_at(wires, (number - 1) as usize, bytes)
}

// The server shuts the connection at a place.
#[tactic(auto, using(crate::proofs::Positions::changed_nowhere))]
fn shut_at(wires: &mut Vec<Wire>, position: usize)
    ensures { wires.new.items ≡ changed_at position shut wires.old.items }
{
    if position < wires.len() {
        wires[position].shut();
    }
}

/// The server shuts the connection under a number. It takes no memory.
#[tactic(auto, using(crate::proofs::Positions::under_none, crate::proofs::Positions::under_one))]
pub fn shut_wire(wires: &mut Vec<Wire>, number: u64)
    ensures { wires.new.items ≡ changed_under number shut wires.old.items }
{
    if number > 0 {
        shut_at(wires, (number - 1) as usize);
    }
}
