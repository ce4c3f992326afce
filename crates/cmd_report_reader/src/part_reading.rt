//! What a line below a device's says, by its first word.
ghost use Rattle.std.specs.Prelude.{◌≡◌, IfOk};
ghost use Rattle.cmd_report_reader.specs.LineReading.{read_mark, read_said, read_refused_why, read_refused, read_after, says_more, read_complete, read_total, read_page, read_underway, read_held, read_part};
ghost use Rattle.cmd_schedule.specs.Gives.{Gives, left};
ghost use Rattle.cmd_schedule.specs.Reading.{cut_of};

use crate::fields::number_in;
use crate::line::DevicePart;
use crate::line_reading::read_entry;
use crate::texts::texts;
use base_io::{NoMemory, Text};
use cmd_report::{HeldLine, PageLine, RefusedLine, RefusedWhy, SaidLine, SaidMark, UnderwayLine};
use cmd_schedule::{LineFault, LineWhy, cut_word, last_field, next_field, rest_field, wants};
use std::alloc::Global;

#[tactic(auto, unfolding(crate::specs::LineReading::read_mark))]
fn read_mark(word: &str) -> Result<SaidMark, LineFault>
    ensures { Gives (λ mark. mark) result (read_mark word.now) }
{
    match word {
        "acknowledged" => Ok(SaidMark::Acknowledged),
        "waiting" => Ok(SaidMark::Waiting),
        "undecided" => Ok(SaidMark::Undecided),
        _ => Err(LineFault::Reason(LineWhy::Word)),
    }
}

fn said_line(
    alloc: Global,
    epoch: u64,
    n: u64,
    state: SaidMark,
    to: &str,
    text: &str,
) -> Result<SaidLine, NoMemory>
    ensures { IfOk result (λ line. line ≡ record { epoch = epoch; n = n; state = state; to = to.now; text = text.now }) }
{
    let (to, text) = texts(alloc, to, text)?;
    Ok(SaidLine {
        epoch,
        n,
        state,
        to,
        text,
    })
}

#[tactic(auto, unfolding(crate::specs::LineReading::read_said))]
fn read_said(alloc: Global, fields: Option<&str>) -> Result<SaidLine, LineFault>
    ensures { Gives (λ line. line) result (read_said (left fields.entry)) }
{
    let (epoch, rest) = next_field(fields)?;
    let (n, rest) = next_field(rest)?;
    let (state, rest) = next_field(rest)?;
    let (to, rest) = next_field(rest)?;
    let text = rest_field(rest)?;
    let epoch = number_in(epoch)?;
    let n = number_in(n)?;
    let state = read_mark(state)?;
    Ok(said_line(alloc, epoch, n, state, to, text)?)
}

#[tactic(auto, unfolding(crate::specs::LineReading::read_refused_why))]
fn read_refused_why(word: &str) -> Result<RefusedWhy, LineFault>
    ensures { Gives (λ why. why) result (read_refused_why word.now) }
{
    match word {
        "NotBound" => Ok(RefusedWhy::NotBound),
        "OutboxFull" => Ok(RefusedWhy::OutboxFull),
        "Underway" => Ok(RefusedWhy::Underway),
        _ => Err(LineFault::Reason(LineWhy::Word)),
    }
}

#[tactic(auto, unfolding(crate::specs::LineReading::read_refused))]
fn read_refused(fields: Option<&str>) -> Result<RefusedLine, LineFault>
    ensures { Gives (λ line. line) result (read_refused (left fields.entry)) }
{
    let (line, rest) = next_field(fields)?;
    let why = last_field(rest)?;
    let line = number_in(line)?;
    let why = read_refused_why(why)?;
    Ok(RefusedLine { line, why })
}

/// The id behind which a page was asked for, where there was one.
fn read_after(alloc: Global, word: &str) -> Result<Option<Text>, NoMemory>
    ensures { IfOk result (λ after. after ≡ read_after word.now) }
{
    if word == "-" {
        return Ok(None);
    }
    Ok(Some(Text::from_str(alloc, word)?))
}

/// Whether nothing but the word stands there that a page is not complete.
fn says_more(fields: Option<&str>) -> bool
    ensures { result ≡ says_more (left fields.entry) }
{
    match fields {
        None => false,
        Some(text) => text == "more",
    }
}

/// Of a page that is complete, how many entries the archive had.
#[tactic(auto, unfolding(crate::specs::LineReading::read_complete))]
fn read_complete(fields: Option<&str>) -> Result<Option<u64>, LineFault>
    ensures { Gives (λ total. total) result (read_complete (left fields.entry)) }
{
    let (mark, rest) = next_field(fields)?;
    let total = last_field(rest)?;
    wants(mark == "complete", LineWhy::Word)?;
    let total = number_in(total)?;
    Ok(Some(total))
}

#[tactic(auto, unfolding(crate::specs::LineReading::read_total))]
fn read_total(fields: Option<&str>) -> Result<Option<u64>, LineFault>
    ensures { Gives (λ total. total) result (read_total (left fields.entry)) }
{
    if says_more(fields) {
        return Ok(None);
    }
    read_complete(fields)
}

#[tactic(auto, unfolding(crate::specs::LineReading::read_page))]
fn read_page(alloc: Global, fields: Option<&str>) -> Result<PageLine, LineFault>
    ensures { Gives (λ line. line) result (read_page (left fields.entry)) }
{
    let (after, rest) = next_field(fields)?;
    let (count, rest) = next_field(rest)?;
    let total = read_total(rest)?;
    let count = number_in(count)?;
    Ok(PageLine {
        after: read_after(alloc, after)?,
        count,
        total,
    })
}

#[tactic(auto, unfolding(crate::specs::LineReading::read_underway))]
fn read_underway(alloc: Global, fields: Option<&str>) -> Result<UnderwayLine, LineFault>
    ensures { Gives (λ line. line) result (read_underway (left fields.entry)) }
{
    let (queryid, rest) = next_field(fields)?;
    let got = last_field(rest)?;
    let got = number_in(got)?;
    Ok(UnderwayLine {
        queryid: Text::from_str(alloc, queryid)?,
        got,
    })
}

#[tactic(auto, unfolding(crate::specs::LineReading::read_held))]
fn read_held(alloc: Global, fields: Option<&str>) -> Result<HeldLine, LineFault>
    ensures { Gives (λ line. line) result (read_held (left fields.entry)) }
{
    let id = last_field(fields)?;
    Ok(HeldLine {
        id: Text::from_str(alloc, id)?,
    })
}

/// What a line says of the device whose line stands above it.
#[tactic(auto, unfolding(crate::specs::LineReading::read_part))]
pub fn read_part(alloc: Global, line: &str) -> Result<DevicePart, LineFault>
    ensures { Gives (λ read. read) result (read_part (cut_of line.now)) }
{
    let (word, fields) = cut_word(line);
    match word {
        "said" => Ok(DevicePart::Said(read_said(alloc, fields)?)),
        "refused" => Ok(DevicePart::Refused(read_refused(fields)?)),
        "page" => Ok(DevicePart::Page(read_page(alloc, fields)?)),
        "underway" => Ok(DevicePart::Underway(read_underway(alloc, fields)?)),
        "logged" => Ok(DevicePart::Logged(read_entry(alloc, fields)?)),
        "held" => Ok(DevicePart::Held(read_held(alloc, fields)?)),
        _ => Err(LineFault::Reason(LineWhy::Word)),
    }
}
