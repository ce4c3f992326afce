//! The events of a journal are read from their lines.
ghost use Rattle.std.specs.Prelude.{◌≡◌, ◌+◌, ◌^◌, ◌<◌, true, length, map, IfOk};
ghost use Rattle.std.specs.Option.{option_map};
ghost use Rattle.cmd_journal.specs.Gives.{Gives, ReadsAs, left};
ghost use Rattle.cmd_journal.specs.Journals.{begun_last, ends_events, event_view, journal_header};
ghost use Rattle.cmd_journal.specs.LineReading.{read_connect, read_event, read_gone, read_journal_header, read_piece, read_words};
ghost use Rattle.cmd_journal.specs.Reading.{read_events, with_next};
ghost use Rattle.cmd_schedule.specs.Reading.{cut_of, pieces_of};
ghost use Rattle.cmd_schedule.specs.declared.fault.LineWhy.TheVariants.{Header};

use crate::event::{Event, Events};
use crate::fault::{InputFault, LineFault, wants};
use crate::fields::{bytes_in, connection_in, entropy_in, last_field, moment_in, next_field};
use crate::lines::spelled;
use cmd_schedule::{LineWhy, Version, cut_word, first_line};
use std::alloc::Global;

fn journal_header(version: Version) -> &'static [u8]
    ensures { result.now ≡ journal_header version }
{
    match version {
        Version::One => b"xmpp-journal 1",
        Version::Two { .. } => b"xmpp-journal 2",
    }
}

/// What follows the first line of a journal of this version.
#[tactic(auto, unfolding(crate::specs::LineReading::read_journal_header))]
pub fn read_journal_header(version: Version, text: &[u8]) -> Result<&[u8], LineFault>
    ensures read { Gives (λ rest. (true, pieces_of rest.now)) result (with_next (read_journal_header version) Header (pieces_of text.now)) }
    ensures shorter { IfOk result (λ rest. length rest.now < length text.now) }
{
    if text.is_empty() {
        return Err(LineFault::Reason(LineWhy::Header));
    }
    let (line, ended, rest) = first_line(text);
    wants(line == journal_header(version), LineWhy::Header)?;
    wants(ended, LineWhy::Ending)?;
    Ok(rest)
}

/// A connection begins, after the one that began last.
#[tactic(auto, unfolding(crate::specs::LineReading::read_connect))]
fn read_connect(last: u64, fields: Option<&str>) -> Result<Event, LineFault>
    ensures { Gives event_view result (read_connect last (left fields.entry)) }
{
    let (number, rest) = next_field(fields)?;
    let (time, rest) = next_field(rest)?;
    let field = last_field(rest)?;
    let connection = connection_in(number)?;
    wants(last < connection, LineWhy::Twice)?;
    let moment = moment_in(time)?;
    Ok(Event::Connect {
        connection,
        moment,
        entropy: entropy_in(field)?,
    })
}

#[tactic(auto, unfolding(crate::specs::LineReading::read_piece))]
fn read_piece(alloc: Global, fields: Option<&str>) -> Result<Event, LineFault>
    ensures { Gives event_view result (read_piece (left fields.entry)) }
{
    let (number, rest) = next_field(fields)?;
    let (time, rest) = next_field(rest)?;
    let field = last_field(rest)?;
    let connection = connection_in(number)?;
    let moment = moment_in(time)?;
    Ok(Event::Piece {
        connection,
        moment,
        bytes: bytes_in(alloc, field)?,
    })
}

#[tactic(auto, unfolding(crate::specs::LineReading::read_gone))]
fn read_gone(fields: Option<&str>) -> Result<Event, LineFault>
    ensures { Gives event_view result (read_gone (left fields.entry)) }
{
    let (number, rest) = next_field(fields)?;
    let time = last_field(rest)?;
    Ok(Event::Gone {
        connection: connection_in(number)?,
        moment: moment_in(time)?,
    })
}

/// An event, by its first word.
#[tactic(auto, unfolding(crate::specs::LineReading::read_words))]
fn read_words(
    alloc: Global,
    last: u64,
    word: &str,
    fields: Option<&str>,
) -> Result<Event, LineFault>
    ensures { Gives event_view result (read_words last (record { front = word.now; rest = left fields.entry })) }
{
    match word {
        "connect" => read_connect(last, fields),
        "piece" => read_piece(alloc, fields),
        "gone" => read_gone(fields),
        _ => Err(LineFault::Reason(LineWhy::Word)),
    }
}

fn ends_events(word: &str) -> bool
    ensures { result ≡ ends_events word.now }
{
    word == "account" || word == "overrun" || word == "end"
}

/// What a line behind the journal's first says. `None` where it is behind the events.
#[tactic(auto, unfolding(crate::specs::LineReading::read_event))]
fn read_event(
    alloc: Global,
    last: u64,
    line: &[u8],
    ended: bool,
) -> Result<Option<Event>, LineFault>
    ensures { Gives (option_map event_view) result (read_event last (record { bytes = line.now; ended = ended })) }
{
    let line = spelled(line, ended)?;
    let (word, fields) = cut_word(line);
    if ends_events(word) {
        return Ok(None);
    }
    Ok(Some(read_words(alloc, last, word, fields)?))
}

/// The number of the connection that began last, after an event.
fn begun_last(last: u64, event: &Event) -> u64
    ensures { result ≡ begun_last last (event_view event.now) }
{
    match event {
        Event::Connect { connection, .. } => *connection,
        Event::Piece { .. } | Event::Gone { .. } => last,
    }
}

/// The events from line `number` on.
pub fn read_events(alloc: Global, number: u64, text: &[u8]) -> Result<Events, InputFault>
    requires { number + length text.now < 2 ^ 64 }
    ensures { ReadsAs (λ events. map event_view events.items) result (read_events 0 number (pieces_of text.now)) }
{
    let mut events = Events::new(alloc);
    let mut last = 0;
    let mut next = number;
    let mut rest = text;
    while !rest.is_empty() {
        let (line, ended, after) = first_line(rest);
        let event = match read_event(alloc, last, line, ended) {
            Ok(Some(event)) => event,
            Ok(None) => return Ok(events),
            Err(LineFault::Reason(why)) => return Err(InputFault::BadLine { line: next, why }),
            Err(LineFault::NoMemory) => return Err(InputFault::NoMemory),
        };
        last = begun_last(last, &event);
        events.push(event)?;
        next += 1;
        rest = after;
    }
    Ok(events)
}
