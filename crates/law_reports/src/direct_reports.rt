//! The laws.
ghost use Rattle.std.specs.Prelude.{◌≡◌, Ok};
ghost use Rattle.cmd_direct.specs.Direct.{direct_report};
ghost use Rattle.cmd_report.specs.ReportText.{text_of};
ghost use Rattle.cmd_report_reader.specs.Readable.{IsReadable};
ghost use Rattle.cmd_report_reader.specs.Reading.{report_reading};
ghost use Rattle.cmd_schedule.specs.Grammar.{IsDirectSchedule};
ghost use Rattle.cmd_schedule.specs.Schedules.{ScheduleView};

/// A law: the report of each direct schedule, of both versions, can be read.
pub fn direct_reports_are_readable()
    ensures { (schedule : ScheduleView) → IsDirectSchedule schedule → IsReadable (direct_report schedule) }
{}

/// A law: what is read of the text of a direct schedule's report is that report.
pub fn direct_reports_are_read_back()
    ensures { (schedule : ScheduleView) → IsDirectSchedule schedule → report_reading (text_of (direct_report schedule)) ≡ Ok (direct_report schedule) }
{}

/// A law: two direct schedules have one report, or reports with different texts.
pub fn direct_reports_are_told_apart()
    ensures { (one other : ScheduleView) → IsDirectSchedule one → IsDirectSchedule other
        → text_of (direct_report one) ≡ text_of (direct_report other) → direct_report one ≡ direct_report other }
{}
