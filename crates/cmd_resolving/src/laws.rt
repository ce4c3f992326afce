//! The laws.
ghost use Rattle.std.specs.Prelude.{◌≡◌};
ghost use Rattle.cmd_schedule.specs.LineLists.{IsLineList};
ghost use Rattle.cmd_world.specs.Histories.{world_of};
ghost use Rattle.cmd_intents.specs.Files.{FileView, IsIntentFile};
ghost use Rattle.cmd_resolving.specs.Expansion.{as_schedule, watched_end};

/// A law: the lines that a file of intents stands for are a list of lines within the bounds of such lists, whatever becomes of
/// its intents. So what holds of each list holds of each file.
pub fn files_are_line_lists()
    ensures { (f : FileView) → IsIntentFile f → IsLineList (as_schedule f) }
{}

/// A law: a file comes to the world of the lines that it stands for, as of a schedule, though they were found along the way.
pub fn files_come_to_worlds_of_schedules()
    ensures { (f : FileView) → (watched_end f).world ≡ world_of (as_schedule f) }
{}
