//! Laws of reading: a report's text tells all that it tells.
ghost use Rattle.std.specs.Prelude.{◌≡◌, Ok};
ghost use Rattle.cmd_report.specs.ReportText.{text_of};
ghost use Rattle.cmd_report.specs.Reports.{ReportView};
ghost use Rattle.cmd_report_reader.specs.Readable.{IsReadable};
ghost use Rattle.cmd_report_reader.specs.Reading.{report_reading};

/// The text of a report is read as that report.
pub fn reports_are_read_back()
    ensures { (report : ReportView) → IsReadable report → report_reading (text_of report) ≡ Ok report }
{}

/// Different reports have different texts.
pub fn reports_are_told_apart()
    ensures { (one other : ReportView) → IsReadable one → IsReadable other → text_of one ≡ text_of other → one ≡ other }
{}
