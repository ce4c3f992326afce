//! Lines of a file of intents.
ghost use Rattle.std.specs.Prelude.{◌≡◌, OnOk};
ghost use Rattle.cmd_schedule.specs.declared.schedule.Step.TheVariants.{Catchup as CatchupStep, Say as SayStep};
ghost use Rattle.cmd_schedule.specs.declared.schedule.WireStep.TheVariants.{Common};
ghost use Rattle.cmd_world.specs.Standing.{IsNumbered, MayStep};
ghost use Rattle.cmd_resolving.specs.Expansion as expansion;
ghost use Rattle.cmd_resolving.specs.Expansion.{asked_by_intent, asked_by_resolve, gone, gone_by};
ghost use Rattle.cmd_deciding.specs.Looks.{EachNamed, HasLooked};

use crate::watch::Watch;
use base_io::{NoMemory, Text};
use cmd_intents::IntentFile;
use cmd_schedule::{Step, WireLine, WireStep};
use std::alloc::Global;

fn is_number_among(n: u64, numbers: &[u64]) -> bool
    ensures { result ≡ expansion.is_number_among n numbers.now }
{
    numbers.iter().any(|number| *number == n)
}

impl Watch {
    // A new intent of the device of a name, where that is there.
    #[tactic(auto, using(crate::proofs::Turned::message_gone, crate::proofs::Turned::message_nowhere, crate::proofs::Named::named_by_line))]
    fn take_message(
        &mut self,
        alloc: Global,
        line: &WireLine,
        device: &Text,
        to: &Text,
        text: &Text,
    ) -> Result<(), NoMemory>
        requires step { line.now.step ≡ Common (SayStep device.now to.now text.now) }
        requires right { MayStep line.now.step self.old.world }
        requires named { EachNamed self.old.intents }
        ensures { OnOk result (self.new ≡ gone_by (asked_by_intent self.old.world.names (Common (SayStep device.now to.now text.now))) line.now self.old) }
    {
        match self.world.position(device.as_str()) {
            Some(index) => self.submit_new(alloc, line.number, index, to, text),
            None => Ok(()),
        }
    }

    // The intents of the device of a name are resolved, where that is there.
    #[tactic(auto, using(crate::proofs::Turned::request_gone, crate::proofs::Turned::request_nowhere, crate::proofs::Turned::most_by_line))]
    fn take_request(&mut self, line: &WireLine, device: &Text, most: u32) -> Result<(), NoMemory>
        requires step { line.now.step ≡ Common (CatchupStep device.now most) }
        requires right { MayStep line.now.step self.old.world }
        requires named { EachNamed self.old.intents }
        ensures { OnOk result (self.new ≡ gone_by (asked_by_resolve self.old.world.names (Common (CatchupStep device.now most))) line.now self.old) }
    {
        match self.world.position(device.as_str()) {
            Some(index) => self.resolve(line.number, index, most),
            None => Ok(()),
        }
    }

    // An intent line of such a step.
    fn take_intent_step(
        &mut self,
        alloc: Global,
        line: &WireLine,
        step: &Step,
    ) -> Result<(), NoMemory>
        requires step { line.now.step ≡ Common step.now }
        requires numbered { IsNumbered self.old.world }
        requires right { MayStep line.now.step self.old.world }
        requires looked { HasLooked self.old }
        requires named { EachNamed self.old.intents }
        ensures { OnOk result (self.new ≡ gone_by (asked_by_intent self.old.world.names (Common step.now)) line.now self.old) }
    {
        match step {
            Step::Say(device, to, text) => self.take_message(alloc, line, device, to, text),
            _ => self.step(line),
        }
    }

    // A resolve line of such a step.
    fn take_resolve_step(&mut self, line: &WireLine, step: &Step) -> Result<(), NoMemory>
        requires step { line.now.step ≡ Common step.now }
        requires numbered { IsNumbered self.old.world }
        requires right { MayStep line.now.step self.old.world }
        requires looked { HasLooked self.old }
        requires named { EachNamed self.old.intents }
        ensures { OnOk result (self.new ≡ gone_by (asked_by_resolve self.old.world.names (Common step.now)) line.now self.old) }
    {
        match step {
            Step::Catchup(device, most) => self.take_request(line, device, *most),
            _ => self.step(line),
        }
    }

    // An intent line.
    fn take_intent(&mut self, alloc: Global, line: &WireLine) -> Result<(), NoMemory>
        requires numbered { IsNumbered self.old.world }
        requires right { MayStep line.now.step self.old.world }
        requires looked { HasLooked self.old }
        requires named { EachNamed self.old.intents }
        ensures { OnOk result (self.new ≡ gone_by (asked_by_intent self.old.world.names line.now.step) line.now self.old) }
    {
        match &line.step {
            WireStep::Common(step) => self.take_intent_step(alloc, line, step),
            _ => self.step(line),
        }
    }

    // A resolve line.
    fn take_resolve(&mut self, line: &WireLine) -> Result<(), NoMemory>
        requires numbered { IsNumbered self.old.world }
        requires right { MayStep line.now.step self.old.world }
        requires looked { HasLooked self.old }
        requires named { EachNamed self.old.intents }
        ensures { OnOk result (self.new ≡ gone_by (asked_by_resolve self.old.world.names line.now.step) line.now self.old) }
    {
        match &line.step {
            WireStep::Common(step) => self.take_resolve_step(line, step),
            _ => self.step(line),
        }
    }

    /// A line of the file. `NoMemory` comes only where memory runs out.
    pub(crate) fn take(
        &mut self,
        alloc: Global,
        file: &IntentFile,
        line: &WireLine,
    ) -> Result<(), NoMemory>
        requires numbered { IsNumbered self.old.world }
        requires right { MayStep line.now.step self.old.world }
        requires looked { HasLooked self.old }
        requires named { EachNamed self.old.intents }
        ensures { OnOk result (self.new ≡ gone file.now line.now self.old) }
    {
        if is_number_among(line.number, file.intents.as_slice()) {
            self.take_intent(alloc, line)
        } else if is_number_among(line.number, file.resolves.as_slice()) {
            self.take_resolve(line)
        } else {
            self.step(line)
        }
    }
}
