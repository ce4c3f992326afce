//! A line of a schedule as moves.
ghost use Rattle.std.specs.Prelude.{◌≡◌, ◌≤◌, false, true, length, IsTrue, OnOk};
ghost use Rattle.base_io.specs.Names.{position_of};
ghost use Rattle.cmd_schedule.specs.Grammar.{is_name};
ghost use Rattle.cmd_network.specs.Positions;
ghost use Rattle.cmd_world.specs.Lines.{common_moves, move_of, pass_of, passes_of, passes_where, round_from, rounds_of, stepped};
ghost use Rattle.cmd_world.specs.Moves.{CatchUp, Close, Cut, Dial, Down, Forget, Say, Up, all_moved};
ghost use Rattle.cmd_world.specs.Standing.{IsNumbered, MayAsk, MayStep};

use crate::world::World;
use base_io::NoMemory;
use cmd_schedule::{Count, Step, WireLine, WireStep};

// The place of the connection under a number.
fn position_under(number: u32) -> Option<usize>
    ensures { result ≡ Positions.position_under number }
{
    match number {
        0 => None,
        _ => Some(number as usize - 1),
    }
}

impl World {
    // All bytes of the connection at a place to the server, and then all to its device.
    fn pass(&mut self, position: usize) -> Result<(), NoMemory>
        ensures { OnOk result (self.new ≡ all_moved (pass_of position) self.old) }
    {
        self.up(position, Count::All)?;
        self.down(position, Count::All)
    }

    // The same so many times.
    fn passes(&mut self, position: usize, times: u32) -> Result<(), NoMemory>
        ensures { OnOk result (self.new ≡ all_moved (passes_of times position) self.old) }
    {
        for i in 0..times {
            self.pass(position)?;
        }
        Ok(())
    }

    // The same of so many connections, in ascending order.
    fn round(&mut self, count: usize) -> Result<(), NoMemory>
        ensures { OnOk result (self.new ≡ all_moved (round_from 0 count) self.old) }
    {
        for position in 0..count {
            self.pass(position)?;
        }
        Ok(())
    }

    // That so many times.
    fn rounds(&mut self, times: u32, count: usize) -> Result<(), NoMemory>
        ensures { OnOk result (self.new ≡ all_moved (rounds_of times count) self.old) }
    {
        for i in 0..times {
            self.round(count)?;
        }
        Ok(())
    }

    // The user of a device submits a message.
    fn say_of(
        &mut self,
        line: u64,
        device: &str,
        to: &str,
        text: &str,
        private: bool,
    ) -> Result<(), NoMemory>
        requires { IsTrue (is_name to.now) }
        ensures { OnOk result (self.new ≡ all_moved (move_of (λ position. Say position line to.now text.now private) (position_of device.now self.old.names)) self.old) }
    {
        match self.index.find(device) {
            Some(position) => self.say(position, line, to, text, private),
            None => Ok(()),
        }
    }

    // The user of a device asks for the archive.
    fn catch_up_of(&mut self, line: u64, device: &str, most: u32) -> Result<(), NoMemory>
        requires { (1 ≤ most) × (most ≤ 100) }
        ensures { OnOk result (self.new ≡ all_moved (move_of (λ position. CatchUp position line most) (position_of device.now self.old.names)) self.old) }
    {
        match self.index.find(device) {
            Some(position) => self.catch_up(position, line, most),
            None => Ok(()),
        }
    }

    // A line that direct schedules have too.
    fn step_common(&mut self, line: u64, step: &Step) -> Result<(), NoMemory>
        requires { MayAsk step.now self.old }
        ensures { OnOk result (self.new ≡ all_moved (common_moves self.old.names line step.now) self.old) }
    {
        match step {
            Step::Account(_) | Step::Device(_, _) => Ok(()),
            Step::Say(device, to, text) => {
                self.say_of(line, device.as_str(), to.as_str(), text.as_str(), false)
            }
            Step::Private(device, to, text) => {
                self.say_of(line, device.as_str(), to.as_str(), text.as_str(), true)
            }
            Step::Catchup(device, most) => self.catch_up_of(line, device.as_str(), *most),
            Step::Tick(milliseconds) => {
                self.tick(*milliseconds);
                Ok(())
            }
        }
    }

    // A device dials.
    fn dial_of(&mut self, device: &str) -> Result<(), NoMemory>
        requires { IsNumbered self.old }
        ensures { OnOk result (self.new ≡ all_moved (move_of Dial (position_of device.now self.old.names)) self.old) }
    {
        match self.index.find(device) {
            Some(position) => self.dial(position),
            None => Ok(()),
        }
    }

    // It leaves its connection, and its session ends.
    fn forget_of(&mut self, device: &str)
        ensures { self.new ≡ all_moved (move_of Forget (position_of device.now self.old.names)) self.old }
    {
        match self.index.find(device) {
            Some(position) => self.forget(position),
            None => {}
        }
    }

    // It closes its stream.
    fn close_of(&mut self, device: &str) -> Result<(), NoMemory>
        ensures { OnOk result (self.new ≡ all_moved (move_of Close (position_of device.now self.old.names)) self.old) }
    {
        match self.index.find(device) {
            Some(position) => self.close(position),
            None => Ok(()),
        }
    }

    // Bytes of a connection go to the server.
    fn up_of(&mut self, number: u32, count: Count) -> Result<(), NoMemory>
        ensures { OnOk result (self.new ≡ all_moved (move_of (λ position. Up position count) (Positions.position_under number)) self.old) }
    {
        match position_under(number) {
            Some(position) => self.up(position, count),
            None => Ok(()),
        }
    }

    // Bytes of a connection go to its device.
    fn down_of(&mut self, number: u32, count: Count) -> Result<(), NoMemory>
        ensures { OnOk result (self.new ≡ all_moved (move_of (λ position. Down position count) (Positions.position_under number)) self.old) }
    {
        match position_under(number) {
            Some(position) => self.down(position, count),
            None => Ok(()),
        }
    }

    // The network cuts a connection.
    fn cut_of(&mut self, number: u32, up: u32, down: u32)
        ensures { self.new ≡ all_moved (move_of (λ position. Cut position up down) (Positions.position_under number)) self.old }
    {
        match position_under(number) {
            Some(position) => self.cut(position, up as usize, down as usize),
            None => {}
        }
    }

    // All bytes of a connection are handed over, so many times.
    fn pass_of(&mut self, number: u32, times: u32) -> Result<(), NoMemory>
        ensures { OnOk result (self.new ≡ all_moved (passes_where times (Positions.position_under number)) self.old) }
    {
        match position_under(number) {
            Some(position) => self.passes(position, times),
            None => Ok(()),
        }
    }

    // All bytes of each connection are handed over, so many times.
    fn run_of(&mut self, times: u32) -> Result<(), NoMemory>
        ensures { OnOk result (self.new ≡ all_moved (rounds_of times (length self.old.wires)) self.old) }
    {
        let count = self.wires.len();
        self.rounds(times, count)
    }

    /// A line of the schedule: exactly its moves, in order. `NoMemory` comes only where memory runs out; the world is then only
    /// dropped.
    pub fn step(&mut self, line: &WireLine) -> Result<(), NoMemory>
        requires numbered { IsNumbered self.old }
        requires right { MayStep line.now.step self.old }
        ensures ok { OnOk result (self.new ≡ stepped line.now self.old) }
    {
        match &line.step {
            WireStep::Common(step) => self.step_common(line.number, step),
            WireStep::Dial(device) => self.dial_of(device.as_str()),
            WireStep::Forget(device) => {
                self.forget_of(device.as_str());
                Ok(())
            }
            WireStep::Close(device) => self.close_of(device.as_str()),
            WireStep::Up(number, count) => self.up_of(*number, *count),
            WireStep::Down(number, count) => self.down_of(*number, *count),
            WireStep::Cut(number, up, down) => {
                self.cut_of(*number, *up, *down);
                Ok(())
            }
            WireStep::Pass(number, times) => self.pass_of(*number, *times),
            WireStep::Run(times) => self.run_of(*times),
        }
    }
}
