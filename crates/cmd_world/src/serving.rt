//! Bytes that are handed to the server.
ghost use Rattle.std.specs.Prelude.{◌≡◌, ◌≤◌, ◌<◌, ◌^◌, length, slice_get, take, IfOk, OnOk};
ghost use Rattle.srv_state.specs.Seen.{outs_of};
ghost use Rattle.cmd_network.specs.Wires.{handed_up};
ghost use Rattle.cmd_world.specs.Moves.{Up, end_reported_up, moved, served_by, step_of_piece, server_after};
ghost use Rattle.cmd_world.specs.Worlds.{number_at};

use crate::outputs::emit_all;
use crate::world::World;
use base_io::NoMemory;
use cmd_network::{Wire, amount};
use cmd_schedule::Count;
use srv_core::{Outputs, Server};
use std::alloc::Global;

// A piece of the connection under a number goes to the server.
#[tactic(auto, using(crate::proofs::Pieces::after_is, crate::proofs::Pieces::outputs_are))]
fn serve_piece(
    alloc: Global,
    server: &mut Server,
    number: u64,
    piece: &[u8],
    moment: u64,
) -> Result<Outputs, NoMemory>
    ensures outputs { IfOk result (λ outputs. outs_of outputs.items ≡ (step_of_piece number piece.now moment server.old).outs) }
    ensures server { OnOk result (server.new ≡ server_after number piece.now server.old (step_of_piece number piece.now moment server.old)) }
{
    let mut outputs = Outputs::new(alloc);
    server.bytes(number, piece, moment, &mut outputs)?;
    Ok(outputs)
}

// The first n bytes of the connection at a place go to the server, and leave the pipe up.
fn serve_wire(
    alloc: Global,
    server: &mut Server,
    position: usize,
    wire: &mut Wire,
    n: usize,
    moment: u64,
) -> Result<Outputs, NoMemory>
    requires position { position < 2 ^ 63 }
    requires few { n ≤ length wire.old.up.bytes }
    ensures outputs { IfOk result (λ outputs. outs_of outputs.items ≡ (step_of_piece (number_at position) (take n wire.old.up.bytes) moment server.old).outs) }
    ensures server { OnOk result (server.new ≡ server_after (number_at position) (take n wire.old.up.bytes) server.old (step_of_piece (number_at position) (take n wire.old.up.bytes) moment server.old)) }
    ensures wire { OnOk result (wire.new ≡ handed_up n wire.old) }
{
    let outputs = serve_piece(alloc, server, position as u64 + 1, wire.up.first(n), moment)?;
    wire.up.hand(n);
    Ok(outputs)
}

impl World {
    // So many bytes of the connection at a place go to the server, and what it puts out goes into the pipes down.
    fn serve(&mut self, position: usize, count: Count) -> Result<(), NoMemory>
        ensures { OnOk result (self.new ≡ served_by position count (slice_get self.old.wires position) self.old) }
    {
        if position >= self.wires.len() {
            return Ok(());
        }
        let n = amount(count, &self.wires[position].up);
        if n == 0 {
            return Ok(());
        }
        let outputs = serve_wire(
            self.alloc,
            &mut self.server,
            position,
            &mut self.wires[position],
            n,
            self.moment,
        )?;
        emit_all(
            self.alloc,
            self.version,
            self.moment,
            outputs,
            &mut self.wires,
            &mut self.takes,
        )
    }

    // The server is told that the connection at a place is gone, once nothing is under way and nothing comes.
    fn tell_up(&mut self, position: usize)
        ensures { self.new ≡ end_reported_up position self.old }
    {
        if position >= self.wires.len() {
            return;
        }
        if self.wires[position].up.is_end_due() {
            self.server.gone(position as u64 + 1, self.moment);
            self.wires[position].up.tell_end();
        }
    }

    /// Bytes of the connection at a place are handed to the server.
    pub fn up(&mut self, position: usize, count: Count) -> Result<(), NoMemory>
        ensures { OnOk result (self.new ≡ moved (Up position count) self.old) }
    {
        self.serve(position, count)?;
        self.tell_up(position);
        Ok(())
    }
}
