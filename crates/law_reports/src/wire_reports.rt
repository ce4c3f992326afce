//! The laws.
ghost use Rattle.std.specs.Prelude.{◌≡◌, ◌<◌, ◌^◌, List};
ghost use Rattle.law_reports.specs.Numbers.{HasNumbers};
ghost use Rattle.cmd_report.specs.ReportText.{text_of};
ghost use Rattle.cmd_report.specs.Reports.{ReportView};
ghost use Rattle.cmd_report.specs.Worlds.{ReportWorld};
ghost use Rattle.cmd_report_reader.specs.Readable.{IsReadable};
ghost use Rattle.cmd_schedule.specs.Schedules.{WireView};
ghost use Rattle.sim_1_applications.specs.Runs.{IsRunOf};

/// A law: the report of each run of a list of lines, of both versions, can be read, where what a run doesn't bound has 64
/// bits: the clock, epochs, the requests under way and the connections' lines.
pub fn runs_are_readable()
    ensures { (s : WireView) (worlds : List ReportWorld) (r : ReportView) (run : IsRunOf s worlds r) → run.last.clock < 2 ^ 64 → HasNumbers r → IsReadable r }
{}

/// A law: two such runs have one report, or reports with different texts.
pub fn runs_are_told_apart()
    ensures { (s t : WireView) (worlds others : List ReportWorld) (one other : ReportView) (run : IsRunOf s worlds one) (again : IsRunOf t others other)
        → run.last.clock < 2 ^ 64 → again.last.clock < 2 ^ 64 → HasNumbers one → HasNumbers other → text_of one ≡ text_of other → one ≡ other }
{}
