//! The laws of what the five leave open of a direct run.
ghost use Rattle.std.specs.List.{AllByRecursion};
ghost use Rattle.cmd_direct.specs.Direct.{direct_report};
ghost use Rattle.cmd_schedule.specs.Schedules.{ScheduleView};
ghost use Rattle.law_commands.specs.DirectRuns.{HasFewEntries, KeepsClock};

/// A law: ticks alone move the clock of a direct run. A message to an account that exists is taken at the moment that the ticks
/// before its line add up to, and the entries that an archive keeps have the moments of the newest messages of its account.
pub fn direct_runs_keep_the_clock()
    ensures { (s : ScheduleView) → KeepsClock s (direct_report s) }
{}

/// A law: the pages of a device are those of its catch-ups, in the order of their lines, and none has more entries than its
/// catch-up asks for.
pub fn direct_pages_are_as_asked()
    ensures { (s : ScheduleView) → AllByRecursion (HasFewEntries s) (direct_report s).devices }
{}
