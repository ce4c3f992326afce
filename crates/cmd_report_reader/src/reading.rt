//! A report is read from its text.
//!
//! Which reports have a text that is read back is `IsReadable`. Only whether `read_report` refuses is promised, not
//! which line.
ghost use Rattle.std.specs.Prelude.{◌≡◌, ◌≢◌, ◌⊎◌, ◌+◌, ◌<◌, ◌^◌, length, Err, IfOk, IfErr};
ghost use Rattle.cmd_report.specs.ReportText.{text_of};
ghost use Rattle.cmd_report.specs.Reports.{ReportView};
ghost use Rattle.cmd_report_reader.specs.Readable.{IsReadable};
ghost use Rattle.cmd_report_reader.specs.Reading.{read_first, read_lines, read_next, report_reading};
ghost use Rattle.cmd_report_reader.specs.SoFar.{report_of};
ghost use Rattle.cmd_schedule.specs.Gives.{Gives, ReadsAs};
ghost use Rattle.cmd_schedule.specs.Reading.{pieces_of};
ghost use Rattle.cmd_schedule.specs.declared.fault.ScheduleFault.TheVariants.{NoMemory as WantOfMemory};

use crate::heading::read_heading;
use crate::line_reading::read_words;
use crate::so_far::SoFar;
use cmd_report::Report;
use cmd_schedule::{LineFault, LineWhy, ScheduleFault, first_line, spelled};
use std::alloc::Global;

#[tactic(auto, unfolding(crate::specs::Reading::read_first))]
fn read_first(alloc: Global, line: &[u8], ended: bool) -> Result<SoFar, LineFault>
    ensures { Gives (λ begun. begun) result (read_first (record { bytes = line.now; ended = ended })) }
{
    let line = spelled(line, ended)?;
    read_heading(alloc, line)
}

/// With what one line more tells.
#[tactic(auto, unfolding(crate::specs::Reading::read_next))]
fn read_next(alloc: Global, so_far: &mut SoFar, line: &[u8], ended: bool) -> Result<(), LineFault>
    ensures { Gives (λ _. so_far.new) result (read_next so_far.old (record { bytes = line.now; ended = ended })) }
{
    let line = spelled(line, ended)?;
    if so_far.has_ended() {
        return Err(LineFault::Reason(LineWhy::Word));
    }
    let line = read_words(alloc, so_far.version(), line)?;
    so_far.add_line(line)
}

/// With what the lines from line 2 on tell, the last of which ends the report.
#[tactic(auto, unfolding(crate::specs::SoFar::whole_report))]
fn add_lines(alloc: Global, so_far: &mut SoFar, text: &[u8]) -> Result<(), ScheduleFault>
    ensures { ReadsAs (λ _. report_of so_far.new) result (read_lines 2 so_far.old (pieces_of text.now)) }
{
    let mut number = 2;
    let mut rest = text;
    while !rest.is_empty() {
        let (line, ended, after) = first_line(rest);
        match read_next(alloc, so_far, line, ended) {
            Ok(()) => {}
            Err(LineFault::Reason(why)) => return Err(ScheduleFault::BadLine { line: number, why }),
            Err(LineFault::NoMemory) => return Err(ScheduleFault::NoMemory),
        }
        number += 1;
        rest = after;
    }
    if !so_far.has_ended() {
        return Err(ScheduleFault::BadLine {
            line: number,
            why: LineWhy::Ending,
        });
    }
    Ok(())
}

/// The lines from line 2 on.
fn read_lines(alloc: Global, begun: SoFar, text: &[u8]) -> Result<Report, ScheduleFault>
    ensures { ReadsAs (λ report. report) result (read_lines 2 begun (pieces_of text.now)) }
{
    let mut so_far = begun;
    add_lines(alloc, &mut so_far, text)?;
    Ok(so_far.into_report()?)
}

/// What reading answers, unless memory runs out.
#[tactic(auto, unfolding(crate::specs::Reading::report_reading))]
fn report_of(alloc: Global, bytes: &[u8]) -> Result<Report, ScheduleFault>
    ensures { (result ≡ Err WantOfMemory) ⊎ (result ≡ report_reading bytes.now) }
{
    if bytes.is_empty() {
        return Err(ScheduleFault::BadLine {
            line: 1,
            why: LineWhy::Header,
        });
    }
    let (line, ended, rest) = first_line(bytes);
    let begun = match read_first(alloc, line, ended) {
        Ok(begun) => begun,
        Err(LineFault::Reason(why)) => return Err(ScheduleFault::BadLine { line: 1, why }),
        Err(LineFault::NoMemory) => return Err(ScheduleFault::NoMemory),
    };
    read_lines(alloc, begun, rest)
}

/// The report that bytes are the text of. `BadLine` comes only where they are the text of no report that a schedule comes
/// to; it names a line, counted from 1, at which this shows: `Header` where line 1 is none of a report's, `Ending` where a
/// line is not UTF-8 or its LF is missing, or where the text ends before the line `end`, `Word` where its first word is
/// unknown, or no such line may stand there, `Shape` where the number of fields is wrong, `Number` where a number is none.
/// `NoMemory` comes where memory ran out, whatever the bytes are.
pub fn read_report(alloc: Global, bytes: &[u8]) -> Result<Report, ScheduleFault>
    ensures exact { (result ≡ Err WantOfMemory) ⊎ (result ≡ report_reading bytes.now) }
    ensures found { IfOk result (λ report. bytes.now ≡ text_of report) }
    ensures again { (report : ReportView) → IsReadable report → bytes.now ≡ text_of report → IfOk result (λ read. read ≡ report) }
    ensures bad { IfErr result (λ e. (e ≡ WantOfMemory) ⊎ ((report : ReportView) → IsReadable report → bytes.now ≢ text_of report)) }
{
    report_of(alloc, bytes)
}
