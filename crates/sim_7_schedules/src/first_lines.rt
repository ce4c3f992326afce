//! The law.
ghost use Rattle.cmd_schedule.specs.Schedules.{WireView};
ghost use Rattle.cmd_schedule.specs.LineLists.{IsLineList};
ghost use Rattle.sim_7_schedules.specs.Simulation.{Simulates};
ghost use Rattle.sim_1_applications.specs.Runs.{begins};
ghost use Rattle.cmd_world.specs.Histories.{world_at_start};

/// A law: the world of bytes in which a list of lines begins is beside the world in which its applications begin: it is
/// the encoding of a world of items that stands beside that world.
pub fn schedules_begin()
    ensures { (s : WireView) → IsLineList s → Simulates s (world_at_start s) (begins s) }
{}
