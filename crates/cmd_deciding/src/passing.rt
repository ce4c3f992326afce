//! Lines that hand over all bytes of connections. Each single move is looked at.
ghost use Rattle.std.specs.Prelude.{◌≡◌, OnOk, length, slice_get};
ghost use Rattle.std.specs.Option.{option_map};
ghost use Rattle.cmd_network.specs.Positions.{position_under};
ghost use Rattle.cmd_schedule.specs.declared.schedule.Count.TheVariants.{All as AllBytes};
ghost use Rattle.cmd_world.specs.Lines.{pass_of, passes_of, passes_where, round_from, rounds_of, stepped};
ghost use Rattle.cmd_world.specs.Moves.{Down};
ghost use Rattle.cmd_world.specs.Standing.{IsNumbered, MayStep};
ghost use Rattle.cmd_resolving.specs.Expansion.{looked_at, watched, watched_line, watched_move};
ghost use Rattle.cmd_deciding.specs.Looks.{HasLooked};

use crate::watch::Watch;
use base_io::NoMemory;
use cmd_schedule::{Count, WireLine, WireStep};

impl Watch {
    // The index of the device of the connection at a place.
    fn device_of(&self, position: usize) -> Option<usize>
        ensures { result ≡ option_map (λ w. w.device) (slice_get self.now.world.wires position) }
    {
        match self.world.wires().get(position) {
            Some(wire) => Some(wire.device),
            None => None,
        }
    }

    // All bytes of the connection at a place go to its device, which is looked at. No other client changes.
    #[tactic(auto, using(crate::proofs::Touched::heard, crate::proofs::Touched::unheard))]
    fn hear(&mut self, position: usize) -> Result<(), NoMemory>
        requires { HasLooked self.old }
        ensures { OnOk result (self.new ≡ watched_move (Down position AllBytes) self.old) }
    {
        let Some(device) = self.device_of(position) else {
            return Ok(());
        };
        self.world.down(position, Count::All)?;
        self.look_at(device);
        Ok(())
    }

    // All bytes of the connection at a place go to the server, where no client changes, and then all to its device.
    #[tactic(auto, using(crate::proofs::Touched::served_looked, crate::proofs::Touched::passed))]
    fn pass(&mut self, position: usize) -> Result<(), NoMemory>
        requires { HasLooked self.old }
        ensures { OnOk result (self.new ≡ watched (pass_of position) self.old) }
    {
        self.world.up(position, Count::All)?;
        self.hear(position)
    }

    // The same so many times.
    fn passes(&mut self, position: usize, times: u32) -> Result<(), NoMemory>
        requires { HasLooked self.old }
        ensures { OnOk result (self.new ≡ watched (passes_of times position) self.old) }
    {
        for i in 0..times {
            self.pass(position)?;
        }
        Ok(())
    }

    // The same of so many connections, in ascending order.
    fn round(&mut self, count: usize) -> Result<(), NoMemory>
        requires { HasLooked self.old }
        ensures { OnOk result (self.new ≡ watched (round_from 0 count) self.old) }
    {
        for position in 0..count {
            self.pass(position)?;
        }
        Ok(())
    }

    // That so many times.
    fn rounds(&mut self, times: u32, count: usize) -> Result<(), NoMemory>
        requires { HasLooked self.old }
        ensures { OnOk result (self.new ≡ watched (rounds_of times count) self.old) }
    {
        for i in 0..times {
            self.round(count)?;
        }
        Ok(())
    }

    // All bytes of the connection under a number are handed over, so many times.
    fn pass_under(&mut self, number: u32, times: u32) -> Result<(), NoMemory>
        requires { HasLooked self.old }
        ensures { OnOk result (self.new ≡ watched (passes_where times (position_under number)) self.old) }
    {
        match number {
            0 => Ok(()),
            _ => self.passes(number as usize - 1, times),
        }
    }

    // All bytes of each connection are handed over, so many times.
    fn run(&mut self, times: u32) -> Result<(), NoMemory>
        requires { HasLooked self.old }
        ensures { OnOk result (self.new ≡ watched (rounds_of times (length self.old.world.wires)) self.old) }
    {
        let count = self.world.wires().len();
        self.rounds(times, count)
    }

    // A line that is one move, or none.
    fn step_once(&mut self, line: &WireLine) -> Result<(), NoMemory>
        requires numbered { IsNumbered self.old.world }
        requires right { MayStep line.now.step self.old.world }
        ensures { OnOk result (self.new ≡ looked_at (stepped line.now self.old.world) self.old.intents) }
    {
        self.world.step(line)?;
        self.look_at_all();
        Ok(())
    }

    /// A line as schedules have it. `NoMemory` comes only where memory runs out.
    pub(crate) fn step(&mut self, line: &WireLine) -> Result<(), NoMemory>
        requires numbered { IsNumbered self.old.world }
        requires right { MayStep line.now.step self.old.world }
        requires looked { HasLooked self.old }
        ensures { OnOk result (self.new ≡ watched_line line.now self.old) }
    {
        match &line.step {
            WireStep::Pass(number, times) => self.pass_under(*number, *times),
            WireStep::Run(times) => self.run(*times),
            _ => self.step_once(line),
        }
    }
}
