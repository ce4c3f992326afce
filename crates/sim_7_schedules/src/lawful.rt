//! The laws.
ghost use Rattle.std.specs.Prelude.{◌≡◌, map};
ghost use Rattle.cmd_report.specs.LawfulRuns.{KeepsLaws};
ghost use Rattle.cmd_report.specs.ReportText.{text_of};
ghost use Rattle.cmd_report_reader.specs.Readable.{IsReadable};
ghost use Rattle.sim_7_schedules.specs.ShownWorlds.{shown_of};
ghost use Rattle.cmd_schedule.specs.Schedules.{WireView, seen_of};
ghost use Rattle.cmd_schedule.specs.LineLists.{IsLineList};
ghost use Rattle.cmd_schedule.specs.WireGrammar.{IsWireSchedule};
ghost use Rattle.cmd_world.specs.Histories.{history_of, world_of};
ghost use Rattle.cmd_world.specs.WorldReports.{report_of};

/// A law: the report of each list of lines (`IsLineList`) has the form of its version and keeps the five laws of that
/// version, over what each world of the list's history shows. What the archives hold is what was taken, or the newest of it;
/// each message to an existing account was taken at most once, in order, and exactly once where it was acknowledged, or
/// where its device is settled in that session; each log is a prefix of its account's archive, or runs of its history that
/// are broken only where entries were purged; and the pages of a log are tiles of it, each as fresh as its archive.
pub fn line_lists_are_lawful()
    ensures { (s : WireView) → IsLineList s → KeepsLaws (map shown_of (history_of s)) (seen_of s) (report_of (world_of s)) }
{}

/// A law: the text of the report of each list of lines can be read.
pub fn line_lists_are_readable()
    ensures { (s : WireView) → IsLineList s → IsReadable (report_of (world_of s)) }
{}

/// A law: two lists of lines have one report, or reports with different texts.
pub fn line_lists_are_told_apart()
    ensures { (s t : WireView) → IsLineList s → IsLineList t
        → text_of (report_of (world_of s)) ≡ text_of (report_of (world_of t)) → report_of (world_of s) ≡ report_of (world_of t) }
{}

/// A law: so the report of each wire schedule, whose lines are such a list, has the form of its version and keeps the five
/// laws of that version, over what each world of the schedule's history shows.
pub fn wire_schedules_are_lawful()
    ensures { (s : WireView) → IsWireSchedule s → KeepsLaws (map shown_of (history_of s)) (seen_of s) (report_of (world_of s)) }
{}

/// A law: the text of the report of each wire schedule can be read.
pub fn wire_schedules_are_readable()
    ensures { (s : WireView) → IsWireSchedule s → IsReadable (report_of (world_of s)) }
{}

/// A law: two wire schedules have one report, or reports with different texts.
pub fn wire_schedules_are_told_apart()
    ensures { (s t : WireView) → IsWireSchedule s → IsWireSchedule t
        → text_of (report_of (world_of s)) ≡ text_of (report_of (world_of t)) → report_of (world_of s) ≡ report_of (world_of t) }
{}
