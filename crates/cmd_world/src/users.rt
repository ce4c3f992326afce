//! What the users of devices ask for.
ghost use Rattle.std.specs.Prelude.{◌≡◌, ◌+◌, ◌<◌, ◌≤◌, ◌^◌, IsTrue, OnOk};
ghost use Rattle.cmd_schedule.specs.Grammar.{is_name};
ghost use Rattle.cmd_world.specs.Moves.{CatchUp, Cut, Say, Tick, moved};

use crate::world::World;
use base_io::NoMemory;
use cmd_network::{cut_wire, put_up_wire};

impl World {
    /// The user of the device at a place submits a message to an account, by a line of the schedule.
    pub fn say(
        &mut self,
        position: usize,
        line: u64,
        to: &str,
        text: &str,
        private: bool,
    ) -> Result<(), NoMemory>
        requires { IsTrue (is_name to.now) }
        ensures { OnOk result (self.new ≡ moved (Say position line to.now text.now private) self.old) }
    {
        if position >= self.devices.len() {
            return Ok(());
        }
        let here = self.devices[position].here();
        let put = self.devices[position].say(self.alloc, line, to, text, private)?;
        put_up_wire(&mut self.wires, here, put.as_slice())
    }

    /// The user of the device at a place asks for the archive, by a line of the schedule.
    pub fn catch_up(&mut self, position: usize, line: u64, most: u32) -> Result<(), NoMemory>
        requires { (1 ≤ most) × (most ≤ 100) }
        ensures { OnOk result (self.new ≡ moved (CatchUp position line most) self.old) }
    {
        if position >= self.devices.len() {
            return Ok(());
        }
        let here = self.devices[position].here();
        let put = self.devices[position].catch_up(self.alloc, line, most)?;
        put_up_wire(&mut self.wires, here, put.as_slice())
    }

    /// The clock moves on by so many milliseconds.
    pub(crate) fn tick(&mut self, milliseconds: u32)
        requires { self.old.moment + milliseconds < 2 ^ 64 }
        ensures { self.new ≡ moved (Tick milliseconds) self.old }
    {
        self.moment += u64::from(milliseconds);
        self.server.tick(self.moment);
    }

    /// The network cuts the connection at a place.
    pub(crate) fn cut(&mut self, position: usize, up: usize, down: usize)
        ensures { self.new ≡ moved (Cut position up down) self.old }
    {
        cut_wire(&mut self.wires, position, up, down);
    }
}
