//! The laws.
ghost use Rattle.std.specs.Prelude.{◌≡◌, ◌≤◌, ℕ, List, length};
ghost use Rattle.cmd_restart_lines.specs.RestartLines.{as_schedule};
ghost use Rattle.cmd_restart_lines.specs.RestartedRuns.{restarted_end};
ghost use Rattle.cmd_restart_lines.specs.StartedAgain.{AreStartedAgain, IsStartedAgain};
ghost use Rattle.cmd_restarts.specs.Files.{FileView};
ghost use Rattle.cmd_restarts.specs.RestartFiles.{IsRestartFile};
ghost use Rattle.cmd_schedule.specs.LineLists.{IsLineList};
ghost use Rattle.cmd_schedule.specs.Schedules.{WireView};
ghost use Rattle.cmd_schedule.specs.declared.schedule.WireLine.{WireLine};
ghost use Rattle.cmd_world.specs.Histories.{world_at_start, world_of};
ghost use Rattle.cmd_world.specs.Lines.{all_stepped};

/// A law: the lines that a file of restarts stands for are a list of lines within the bounds of such lists. So what holds of
/// each list holds of each file.
pub fn files_are_line_lists()
    ensures { (f : FileView) → IsRestartFile f → IsLineList (as_schedule f) }
{}

/// A law: a restart starts the server again. Wherever lines lead from the start of a world, let the lines of a restart come,
/// of as many connections as there are at least. The server that they leave is one that is started with the archives and
/// the next session number from before, and at their moment: it has no connection and no session (`world`). Each restart
/// line of a file stands for as many connections as there are, so it is at each (`file`).
pub fn a_restart_starts_the_server_again()
    ensures world { (schedule : WireView) (lines : List WireLine) (number dialed : ℕ) → length (all_stepped lines (world_at_start schedule)).wires ≤ dialed → IsStartedAgain number dialed (all_stepped lines (world_at_start schedule)) }
    ensures file { (f : FileView) → AreStartedAgain 0 f.restarts f.schedule.lines (world_at_start (as_schedule f)) }
{}

/// A law: a file comes to the world of the lines that it stands for, as of a schedule, though at each of its restart lines
/// another server is started in the place of the world's. So nobody sees of a restart more than that all connections were
/// lost, and that time passed.
pub fn files_come_to_worlds_of_schedules()
    ensures { (f : FileView) → IsRestartFile f → restarted_end f ≡ world_of (as_schedule f) }
{}
