//! The law.
//!
//! A run of a list of lines is what each line led to (`LineRun`): moves, each a list of events, and a refusal or none.
//! Archives give at most 4,294,967,295 numbers in a run of which the laws speak (`few`).
ghost use Rattle.cmd_schedule.specs.Schedules.{WireView};
ghost use Rattle.cmd_schedule.specs.LineLists.{IsLineList};
ghost use Rattle.sim_7_schedules.specs.Simulation.{EachMoveSimulates, ScheduleSimulates};

/// A law: where each move of a world of items, within the bounds of a list of lines, is events of the two applications, the
/// whole history of such a list (`IsLineList`) goes beside a run of these, line by line (`ScheduleSimulates`). At each line
/// the device that it names says its message, or refuses the line, and no other says anything; and what was refused is what
/// the report of the list's last world has.
pub fn lines_run()
    ensures { (s : WireView) → IsLineList s → EachMoveSimulates s → ScheduleSimulates s }
{}
