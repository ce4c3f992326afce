//! Laws of both versions.
ghost use Rattle.std.specs.Prelude.{List};
ghost use Rattle.cmd_report.specs.LawfulRuns.{KeepsLaws};
ghost use Rattle.cmd_report.specs.Reports.{ReportView};
ghost use Rattle.cmd_report.specs.Worlds.{ReportWorld};
ghost use Rattle.cmd_schedule.specs.Schedules.{WireView, seen_of};
ghost use Rattle.sim_1_applications.specs.Runs.{IsRunOf};
ghost use Rattle.sim_1_applications.specs.Counted.{AreCounted};

/// A law: the report of each run of a wire schedule, over sessions that may stop at any time, has the form of its version
/// and keeps the five laws of that version. In version 1 archives keep all entries, and no log is broken.
pub fn sessions_keep_laws()
    ensures { (s : WireView) (worlds : List ReportWorld) (r : ReportView) (run : IsRunOf s worlds r) → AreCounted run.last →
        KeepsLaws worlds (seen_of s) r }
{}
