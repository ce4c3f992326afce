//! The law.
ghost use Rattle.cmd_schedule.specs.LineLists.{IsLineList};
ghost use Rattle.cmd_schedule.specs.Schedules.{WireView};
ghost use Rattle.cmd_schedule.specs.WireGrammar.{IsWireSchedule};

/// A law: the lines of each wire schedule are a list of lines within the bounds of such lists. So what holds of each list
/// holds of each schedule.
pub fn schedules_are_line_lists()
    ensures { (s : WireView) → IsWireSchedule s → IsLineList s }
{}
