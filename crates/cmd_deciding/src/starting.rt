//! What a run of a file of intents begins with.
ghost use Rattle.std.specs.Prelude.{◌≡◌, ◌++◌, IfOk, OnOk, map};
ghost use Rattle.cl_intents.specs.Intents.{without_rooms};
ghost use Rattle.cmd_intents.specs.Files.{IsIntentFile};
ghost use Rattle.cmd_schedule.specs.declared.schedule.Step.TheVariants.{Device as Declares};
ghost use Rattle.cmd_schedule.specs.declared.schedule.WireStep.TheVariants.{Common};
ghost use Rattle.cmd_resolving.specs.Expansion.{watching_at_start};
ghost use Rattle.cmd_schedule.specs.WireGrammar.{IsWireSchedule};
ghost use Rattle.cmd_world.specs.Histories.{world_at_start};
ghost use Rattle.cmd_deciding.specs.Looks.{watching};
ghost use Rattle.cmd_deciding.specs.Starts.{none_by, none_in};

use crate::watch::Watch;
use base_io::NoMemory;
use cl_intents::Intents;
use cmd_intents::IntentFile;
use cmd_report::full_address;
use cmd_schedule::{Step, WireLine, WireSchedule, WireStep};
use cmd_world::World;
use std::alloc::Global;

// A device more, without intents.
fn push_none(
    alloc: Global,
    intents: &mut Vec<Intents>,
    account: &str,
    device: &str,
) -> Result<(), NoMemory>
    ensures { OnOk result (map without_rooms intents.new.items ≡ map without_rooms intents.old.items ++ none_by (Common (Declares device.now account.now))) }
{
    let full = full_address(alloc, account, device)?;
    intents.push(Intents::new(alloc, full))?;
    Ok(())
}

// Of the device that a step declares, where it declares one.
fn begin_common(alloc: Global, intents: &mut Vec<Intents>, step: &Step) -> Result<(), NoMemory>
    ensures { OnOk result (map without_rooms intents.new.items ≡ map without_rooms intents.old.items ++ none_by (Common step.now)) }
{
    match step {
        Step::Device(name, account) => push_none(alloc, intents, account.as_str(), name.as_str()),
        _ => Ok(()),
    }
}

// Of the device that a line declares.
fn begin(alloc: Global, intents: &mut Vec<Intents>, step: &WireStep) -> Result<(), NoMemory>
    ensures { OnOk result (map without_rooms intents.new.items ≡ map without_rooms intents.old.items ++ none_by step.now) }
{
    match step {
        WireStep::Common(step) => begin_common(alloc, intents, step),
        _ => Ok(()),
    }
}

// Of all devices that lines declare.
fn none_in(alloc: Global, lines: &[WireLine]) -> Result<Vec<Intents>, NoMemory>
    ensures { IfOk result (λ intents. map without_rooms intents.items ≡ none_in lines.now) }
{
    let mut intents = Vec::new(alloc);
    for line in lines {
        begin(alloc, &mut intents, &line.step)?;
    }
    Ok(intents)
}

// The world of a schedule before its first line, and no intents.
#[tactic(auto, using(crate::proofs::Begins::may_keep_first, cmd_world::proofs::Traces::may_run_schedule))]
fn watch_schedule(alloc: Global, schedule: &WireSchedule) -> Result<Watch, NoMemory>
    requires { IsWireSchedule schedule.now }
    ensures { IfOk result (λ watch. watch ≡ watching (world_at_start schedule.now) (none_in schedule.now.lines)) }
{
    let intents = none_in(alloc, schedule.lines.as_slice())?;
    let world = World::new(alloc, schedule)?;
    Ok(Watch { world, intents })
}

/// The world of a file before its first line, and no intents.
#[tactic(auto, using(crate::proofs::Begins::started))]
pub(crate) fn watch_at_start(alloc: Global, file: &IntentFile) -> Result<Watch, NoMemory>
    requires { IsIntentFile file.now }
    ensures { IfOk result (λ watch. watch ≡ watching_at_start file.now) }
{
    watch_schedule(alloc, &file.schedule)
}
