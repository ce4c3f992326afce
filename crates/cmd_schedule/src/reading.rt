//! A schedule is read from its text.
//!
//! Which bad line is named is proved: `read_schedule` answers what `reading` says of the bytes, and
//! `reading_is_the_grammar` ties that function to the grammar. The readers of lines and fields are public calls of
//! `cmd_schedule`; journals, accounts files, scripts and reports are read with them.
ghost use Rattle.std.specs.Prelude.{◌≡◌, ◌⊎◌, ℕ, List, Ok, Err, IfOk, IfErr};
ghost use Rattle.cmd_schedule.specs.Gives.{Gives, ReadsAs};
ghost use Rattle.cmd_schedule.specs.Grammar.{nothing_declared};
ghost use Rattle.cmd_schedule.specs.Kinds.{IsSchedule, schedule_text, InGrammar};
ghost use Rattle.cmd_schedule.specs.Reading.{pieces_of, read_header, read_lines};
ghost use Rattle.cmd_schedule.specs.WireGrammar.{nothing_above};
ghost use Rattle.cmd_schedule.specs.WireReading.{read_wire_lines, reading};
ghost use Rattle.cmd_schedule.specs.declared.fault.ScheduleFault.TheVariants.{NoMemory as WantOfMemory};
ghost use Rattle.cmd_schedule.specs.declared.schedule.Schedule.{Schedule};

use crate::fault::{LineFault, LineWhy, ScheduleFault, wants};
use crate::heading::{Heading, read_heading};
use crate::lines::first_line;
use crate::schedule::{DirectSchedule, Line, Lines, Schedule, WireLine, WireLines, WireSchedule};
use crate::steps::{NamesAbove, read_line};
use crate::wire_steps::{WireAbove, read_wire_line};
use std::alloc::Global;

/// What line 1 says, and what follows it.
fn read_header(text: &[u8]) -> Result<(Heading, &[u8]), LineFault>
    ensures { Gives (λ begun. (begun.0, pieces_of begun.1.now)) result (read_header (pieces_of text.now)) }
{
    if text.is_empty() {
        return Err(LineFault::Reason(LineWhy::Header));
    }
    let (line, ended, rest) = first_line(text);
    let heading = match read_heading(line) {
        Ok(heading) => heading,
        Err(LineFault::Reason(_)) => return Err(LineFault::Reason(LineWhy::Header)),
        Err(LineFault::NoMemory) => return Err(LineFault::NoMemory),
    };
    wants(ended, LineWhy::Ending)?;
    Ok((heading, rest))
}

/// The lines of a direct schedule from line 2 on.
fn read_lines(alloc: Global, text: &[u8]) -> Result<Lines, ScheduleFault>
    ensures { ReadsAs (λ lines. lines.items) result (read_lines nothing_declared 2 (pieces_of text.now)) }
{
    let mut above = NamesAbove::new(alloc);
    let mut lines = Lines::new(alloc);
    let mut number = 2;
    let mut rest = text;
    while !rest.is_empty() {
        let (line, ended, after) = first_line(rest);
        let step = match read_line(alloc, &mut above, number, line, ended) {
            Ok(step) => step,
            Err(LineFault::Reason(why)) => {
                return Err(ScheduleFault::BadLine { line: number, why });
            }
            Err(LineFault::NoMemory) => return Err(ScheduleFault::NoMemory),
        };
        lines.push(Line { number, step })?;
        number += 1;
        rest = after;
    }
    Ok(lines)
}

/// The lines of a wire schedule from line 2 on.
fn read_wire_lines(alloc: Global, text: &[u8]) -> Result<WireLines, ScheduleFault>
    ensures { ReadsAs (λ lines. lines.items) result (read_wire_lines nothing_above 2 (pieces_of text.now)) }
{
    let mut above = WireAbove::new(alloc);
    let mut lines = WireLines::new(alloc);
    let mut number = 2;
    let mut rest = text;
    while !rest.is_empty() {
        let (line, ended, after) = first_line(rest);
        let step = match read_wire_line(alloc, &mut above, number, line, ended) {
            Ok(step) => step,
            Err(LineFault::Reason(why)) => {
                return Err(ScheduleFault::BadLine { line: number, why });
            }
            Err(LineFault::NoMemory) => return Err(ScheduleFault::NoMemory),
        };
        lines.push(WireLine { number, step })?;
        number += 1;
        rest = after;
    }
    Ok(lines)
}

/// What reading answers, unless memory runs out.
#[tactic(auto, unfolding(crate::specs::WireReading::reading))]
fn schedule_of(alloc: Global, bytes: &[u8]) -> Result<Schedule, ScheduleFault>
    ensures { (result ≡ Err WantOfMemory) ⊎ (result ≡ reading bytes.now) }
{
    let (heading, rest) = match read_header(bytes) {
        Ok(begun) => begun,
        Err(LineFault::Reason(why)) => return Err(ScheduleFault::BadLine { line: 1, why }),
        Err(LineFault::NoMemory) => return Err(ScheduleFault::NoMemory),
    };
    let version = heading.version;
    if heading.wire {
        let lines = read_wire_lines(alloc, rest)?;
        return Ok(Schedule::Wire(WireSchedule { version, lines }));
    }
    let lines = read_lines(alloc, rest)?;
    Ok(Schedule::Direct(DirectSchedule { version, lines }))
}

/// The schedule that bytes are the text of. `BadLine` comes where they are the text of none: it names the first bad
/// line, counted from 1, and its first reason, up to `Shape` in the order of `LineWhy` and then field by field from
/// the left. `NoMemory` comes where memory ran out, whatever the bytes are.
pub fn read_schedule(alloc: Global, bytes: &[u8]) -> Result<Schedule, ScheduleFault>
    ensures exact { (result ≡ Err WantOfMemory) ⊎ (result ≡ reading bytes.now) }
    ensures found { IfOk result (λ s. IsSchedule s × (bytes.now ≡ schedule_text s)) }
    ensures bad { IfErr result (λ e. (e ≡ WantOfMemory) ⊎ ¬ (InGrammar bytes.now)) }
{
    schedule_of(alloc, bytes)
}

/// What reading answers is a schedule whose text was read, and the text of each schedule is read as that schedule.
pub fn reading_is_the_grammar()
    ensures found { (text : List ℕ) (s : Schedule) → reading text ≡ Ok s → IsSchedule s × (text ≡ schedule_text s) }
    ensures only { (s : Schedule) → IsSchedule s → reading (schedule_text s) ≡ Ok s }
{}
