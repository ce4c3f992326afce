//! The laws.
ghost use Rattle.std.specs.Prelude.{◌≡◌, ℕ, List, map};
ghost use Rattle.std.specs.List.{AllByRecursion};
ghost use Rattle.cmd_report.specs.Lawful.{at_any_time, takes_in};
ghost use Rattle.cmd_report.specs.LawfulRuns.{IsNewestOf, history_of as history_in};
ghost use Rattle.cmd_report.specs.Lines.{entry_line};
ghost use Rattle.cmd_report.specs.Reports.{ReportView};
ghost use Rattle.cmd_report.specs.Takes.{archive_of};
ghost use Rattle.cmd_schedule.specs.Schedules.{WireView};
ghost use Rattle.cmd_schedule.specs.LineLists.{IsLineList};
ghost use Rattle.cmd_schedule.specs.declared.schedule.Version.TheVariants.{One, Two};
ghost use Rattle.cmd_schedule.specs.declared.schedule.WireLine.{WireLine};
ghost use Rattle.cmd_world.specs.Histories.{history_of, world_of};
ghost use Rattle.cmd_world.specs.WorldReports.{report_of};
ghost use Rattle.sim_3_images.specs.ReportTakes.{AreOfTakes, HasArchivesOfTakes, Taken};
ghost use Rattle.sim_3_images.specs.Submitted.{AreAsSubmitted};

/// A law: of each list of lines, whichever its version, the archives of the report are those of its takes. An archive keeps
/// the newest KEEP entries of its account's history, and LAST is the history's length. The history has an entry of each
/// message that the account sent or that is to it, in the order of the `take` lines, with the moment, the addresses and the
/// origin id that the line tells. So it is of the report of each world of the list's history.
pub fn archives_are_those_of_the_takes()
    ensures end { (schedule : WireView) → IsLineList schedule → HasArchivesOfTakes schedule (report_of (world_of schedule)) }
    ensures history { (schedule : WireView) → IsLineList schedule → AllByRecursion (λ w. HasArchivesOfTakes schedule (report_of w)) (history_of schedule) }
{}

/// A law: where each message that was taken is a submission of its device, the archives are those of the submissions that
/// the `take` lines name, in the words of the first law of reports.
pub fn archives_are_those_of_submissions()
    ensures kept { (keep : ℕ) (lines : List WireLine) (report : ReportView) (takes : List Taken) → AreOfTakes (record { version = Two keep; lines = lines }) takes report → AreAsSubmitted (Two keep) report takes
        → AllByRecursion (λ a. IsNewestOf keep (history_in report a.name) a) report.accounts }
    ensures all { (lines : List WireLine) (report : ReportView) (takes : List Taken) → AreOfTakes (record { version = One; lines = lines }) takes report → AreAsSubmitted One report takes
        → AllByRecursion (λ a. map at_any_time a.entries ≡ map (λ e. at_any_time (entry_line e)) (archive_of a.name (takes_in report))) report.accounts }
{}
