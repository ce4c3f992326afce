//! The laws.
ghost use Rattle.std.specs.List.{AllByRecursion};
ghost use Rattle.std.specs.Prelude.{ℕ, ◌<◌, List, length};
ghost use Rattle.cmd_direct.specs.Direct.{direct_report};
ghost use Rattle.cmd_direct.specs.History.{direct_history};
ghost use Rattle.cmd_report.specs.Reports.{DeviceView, ReportView};
ghost use Rattle.cmd_report.specs.Worlds.{ReportWorld};
ghost use Rattle.cmd_schedule.specs.Grammar.{IsDirectSchedule};
ghost use Rattle.cmd_schedule.specs.Schedules.{ScheduleView, WireView, seen_of};
ghost use Rattle.law_commands.specs.OfWorlds.{HasMove, IsOfWorlds};
ghost use Rattle.sim_1_applications.specs.Runs.{IsRunOf};

use cmd_direct::direct_is_lawful;

/// A law: the report of a direct schedule, of either version, is of the last of its worlds, and of what led there. No page was
/// asked for in the first world, and in each world no more were taken over than were asked for. Each world's archives keep
/// the newest of what their accounts' histories were, and the last one's are the report's.
pub fn direct_reports_are_of_their_worlds()
    ensures { (s : ScheduleView) → IsDirectSchedule s → IsOfWorlds (direct_history s) s (direct_report s) }
{
    direct_is_lawful();
}

/// A law: the same holds of the report of each run of a wire schedule, over sessions that may stop at any time.
pub fn runs_are_of_their_worlds()
    ensures { (s : WireView) (worlds : List ReportWorld) (r : ReportView) → IsRunOf s worlds r → IsOfWorlds worlds (seen_of s) r }
{}

/// A law: so each page of the report has a move at which it was asked for, and one at which it was taken over. Law 5, which is
/// about these moves, is about some.
pub fn pages_have_their_moves()
    ensures { (worlds : List ReportWorld) (s : ScheduleView) (r : ReportView) → IsOfWorlds worlds s r → AllByRecursion (λ (d : DeviceView). (k : ℕ) → k < length d.pages
        → HasMove worlds (λ w. w.asked d.name) k × HasMove worlds (λ w. length (w.pages d.name)) k) r.devices }
{}
