//! Laws of reports, that the answers of this crate call.
ghost use Rattle.std.specs.Prelude.{map};
ghost use Rattle.cmd_schedule.specs.Schedules.{WireView, seen_of};
ghost use Rattle.cmd_schedule.specs.LineLists.{IsLineList};
ghost use Rattle.cmd_schedule.specs.WireGrammar.{IsWireSchedule};
ghost use Rattle.cmd_world.specs.Histories.{history_of, world_of};
ghost use Rattle.cmd_world.specs.WorldReports.{report_of};
ghost use Rattle.cmd_intents.specs.Files.{FileView, IsIntentFile};
ghost use Rattle.cmd_resolving.specs.Expansion.{watched_end};
ghost use Rattle.cmd_run.specs.Table.{IsDecided};
ghost use Rattle.law_commands.specs.OfWorlds.{IsOfWorlds};
ghost use Rattle.sim_7_schedules.specs.ShownWorlds.{shown_of};

use cmd_resolving::{files_are_line_lists, files_come_to_worlds_of_schedules};
use law_commands::runs_are_of_their_worlds;
use sim_7_schedules::{
    intents_are_tried_again_where_absent, intents_of_files_are_taken_once_at_most,
    line_lists_are_lawful,
};

/// A law: the report of a wire schedule, of either version, is of the last world of its history, and of what led there: no page
/// was asked for in the first world, and in each world no more were taken over than were asked for. Each world's archives
/// keep the newest of what their accounts' histories were, and the last one's are the report's. What waits is of the present
/// epoch (`schedules`). So it is of longer lists of lines (`lists`).
pub fn wire_reports_are_of_their_worlds()
    ensures schedules { (s : WireView) → IsWireSchedule s → IsOfWorlds (map shown_of (history_of s)) (seen_of s) (report_of (world_of s)) }
    ensures lists { (s : WireView) → IsLineList s → IsOfWorlds (map shown_of (history_of s)) (seen_of s) (report_of (world_of s)) }
{
    runs_are_of_their_worlds();
}

/// A law: the report of each file of intents is that of the lines that it stands for, and keeps the five laws as that of a
/// schedule does; and its intents are tried right.
pub fn files_are_decided()
    ensures { (f : FileView) → IsIntentFile f → IsDecided f (report_of (watched_end f).world) }
{
    files_are_line_lists();
    files_come_to_worlds_of_schedules();
    line_lists_are_lawful();
    wire_reports_are_of_their_worlds();
    intents_of_files_are_taken_once_at_most();
    intents_are_tried_again_where_absent();
}
