//! Each move.
ghost use Rattle.cmd_schedule.specs.Schedules.{WireView};
ghost use Rattle.cmd_schedule.specs.LineLists.{IsLineList};
ghost use Rattle.sim_7_schedules.specs.Simulation.{EachMoveSimulates};

/// A law: behind each move of a world of items of a list of lines that is within bounds, whatever it is, the world is beside
/// that of the two applications still, by events that lead there: what a user says, asks for, gives up or closes; what is dialled,
/// cut and told; an item that comes to the server or to a device; and the clock.
pub fn each_move_runs()
    ensures { (schedule : WireView) → IsLineList schedule → EachMoveSimulates schedule }
{}
