//! A whole schedule.
ghost use Rattle.std.specs.Prelude.{◌≡◌, IfOk, OnOk};
ghost use Rattle.cmd_schedule.specs.WireGrammar.{IsWireSchedule};
ghost use Rattle.cmd_world.specs.Histories.{world_of};
ghost use Rattle.cmd_world.specs.Lines.{all_stepped};
ghost use Rattle.cmd_world.specs.Standing.{IsNumbered, MayAllStep};
ghost use Rattle.cmd_world.specs.WorldReports.{report_of};

use crate::world::World;
use base_io::NoMemory;
use cmd_report::Report;
use cmd_schedule::{WireLine, WireSchedule};
use std::alloc::Global;

// Lines, one after another.
#[tactic(auto, using(crate::proofs::Numbers::numbered_line))]
fn step_all(world: &mut World, lines: &[WireLine]) -> Result<(), NoMemory>
    requires numbered { IsNumbered world.old }
    requires right { MayAllStep lines.now world.old }
    ensures { OnOk result (world.new ≡ all_stepped lines.now world.old) }
{
    for line in lines {
        world.step(line)?;
    }
    Ok(())
}

/// The report of the world in which a wire schedule ends: its server and clients, byte by byte. `NoMemory` comes only where
/// memory runs out, and every schedule has its report.
#[tactic(auto, using(crate::proofs::Traces::may_run_schedule, crate::proofs::Traces::numbered_start, crate::proofs::Traces::may_follow_schedule, crate::proofs::Traces::few_in_schedule))]
pub fn wire_report(alloc: Global, schedule: &WireSchedule) -> Result<Report, NoMemory>
    requires { IsWireSchedule schedule.now }
    ensures { IfOk result (λ report. report ≡ report_of (world_of schedule.now)) }
{
    let mut world = World::new(alloc, schedule)?;
    step_all(&mut world, schedule.lines.as_slice())?;
    world.report()
}
