//! What a line of a report says, by its first word.
ghost use Rattle.std.specs.Prelude.{◌≡◌, [], IfOk};
ghost use Rattle.cmd_report.specs.EntryLines.{first_body};
ghost use Rattle.cmd_report_reader.specs.LineReading.{read_told, read_take, read_counts, read_account, read_entry, read_conn_end, read_pipes, read_conn, read_settled, read_device, read_words, read_bare};
ghost use Rattle.cmd_report_reader.specs.declared.line.ReportLine.{ReportLine};
ghost use Rattle.cmd_schedule.specs.Gives.{Gives, left};
ghost use Rattle.cmd_schedule.specs.Reading.{cut_of};

use crate::fields::number_in;
use crate::line::ReportLine;
use crate::part_reading::read_part;
use crate::texts::texts;
use base_io::{ListOf, NoMemory, Text};
use cmd_report::{AccountLine, ConnEnd, ConnLine, DeviceLine, EntryLine, TakeLine};
use cmd_schedule::{
    LineFault, LineWhy, Version, cut_word, last_field, next_field, rest_field, wants,
};
use mam_archive::{ArchivedMessage, Bodies, Body, Entry};
use std::alloc::Global;

/// The account of a take, and the moment that version 2 tells.
#[tactic(auto, unfolding(crate::specs::LineReading::read_told))]
fn read_told(version: Version, fields: Option<&str>) -> Result<(&str, Option<u64>), LineFault>
    ensures { Gives (λ told. (told.0.now, told.1)) result (read_told version (left fields.entry)) }
{
    match version {
        Version::One => {
            let account = last_field(fields)?;
            Ok((account, None))
        }
        Version::Two { .. } => {
            let (account, rest) = next_field(fields)?;
            let moment = last_field(rest)?;
            let moment = number_in(moment)?;
            Ok((account, Some(moment)))
        }
    }
}

fn take_line(
    alloc: Global,
    device: &str,
    epoch: u64,
    n: u64,
    account: &str,
    moment: Option<u64>,
) -> Result<TakeLine, NoMemory>
    ensures { IfOk result (λ line. line ≡ record { device = device.now; epoch = epoch; n = n; account = account.now; moment = moment }) }
{
    let (device, account) = texts(alloc, device, account)?;
    Ok(TakeLine {
        device,
        epoch,
        n,
        account,
        moment,
    })
}

#[tactic(auto, unfolding(crate::specs::LineReading::read_take))]
fn read_take(alloc: Global, version: Version, fields: Option<&str>) -> Result<TakeLine, LineFault>
    ensures { Gives (λ line. line) result (read_take version (left fields.entry)) }
{
    let (device, rest) = next_field(fields)?;
    let (epoch, rest) = next_field(rest)?;
    let (n, rest) = next_field(rest)?;
    let (account, moment) = read_told(version, rest)?;
    let epoch = number_in(epoch)?;
    let n = number_in(n)?;
    Ok(take_line(alloc, device, epoch, n, account, moment)?)
}

/// How many entries an account keeps, and the greatest number that it gave, which version 1 doesn't tell: there it is
/// the count.
#[tactic(auto, unfolding(crate::specs::LineReading::read_counts))]
fn read_counts(version: Version, fields: Option<&str>) -> Result<(u64, u64), LineFault>
    ensures { Gives (λ counts. counts) result (read_counts version (left fields.entry)) }
{
    match version {
        Version::One => {
            let count = last_field(fields)?;
            let count = number_in(count)?;
            Ok((count, count))
        }
        Version::Two { .. } => {
            let (count, rest) = next_field(fields)?;
            let last = last_field(rest)?;
            let count = number_in(count)?;
            let last = number_in(last)?;
            Ok((count, last))
        }
    }
}

/// The line of an account, without its entries.
fn account_line(alloc: Global, name: &str, count: u64, last: u64) -> Result<AccountLine, NoMemory>
    ensures { IfOk result (λ line. line ≡ record { name = name.now; count = count; last = last; entries = [] }) }
{
    let name = Text::from_str(alloc, name)?;
    Ok(AccountLine {
        name,
        count,
        last,
        entries: ListOf::new(alloc),
    })
}

#[tactic(auto, unfolding(crate::specs::LineReading::read_account))]
fn read_account(
    alloc: Global,
    version: Version,
    fields: Option<&str>,
) -> Result<AccountLine, LineFault>
    ensures { Gives (λ line. line) result (read_account version (left fields.entry)) }
{
    let (name, rest) = next_field(fields)?;
    let (count, last) = read_counts(version, rest)?;
    Ok(account_line(alloc, name, count, last)?)
}

/// A body without a language.
fn body_of(alloc: Global, text: &str) -> Result<Body, NoMemory>
    ensures { IfOk result (λ body. body.text ≡ text.now) }
{
    let text = Text::from_str(alloc, text)?;
    Ok(Body {
        lang: Text::new(alloc),
        text,
    })
}

/// One body without a language.
fn bodies_of(alloc: Global, text: &str) -> Result<Bodies, NoMemory>
    ensures { IfOk result (λ bodies. first_body bodies.items ≡ text.now) }
{
    let body = body_of(alloc, text)?;
    let mut bodies = Bodies::new(alloc);
    match bodies.push(body) {
        Ok(()) => Ok(bodies),
        Err(e) => Err(e),
    }
}

/// A message with these bodies between these addresses.
fn message_between(
    alloc: Global,
    stamp: u64,
    ends: (Text, Text),
    origin: &str,
    bodies: Bodies,
) -> Result<ArchivedMessage, NoMemory>
    ensures told { IfOk result (λ message. (message.stamp ≡ stamp) × (message.from ≡ ends.0) × (message.to ≡ ends.1) × (message.origin ≡ origin.now)) }
    ensures bodies { IfOk result (λ message. message.bodies ≡ bodies) }
{
    let (id, origin) = texts(alloc, origin, origin)?;
    let (from, to) = ends;
    Ok(ArchivedMessage {
        stamp,
        from,
        to,
        normal: false,
        id,
        origin,
        bodies,
    })
}

/// A message with one body, as the archive keeps it.
fn message_of(
    alloc: Global,
    stamp: u64,
    from: &str,
    to: &str,
    origin: &str,
    text: &str,
) -> Result<ArchivedMessage, NoMemory>
    ensures told { IfOk result (λ message. (message.stamp ≡ stamp) × (message.from ≡ from.now) × (message.to ≡ to.now) × (message.origin ≡ origin.now)) }
    ensures text { IfOk result (λ message. first_body message.bodies.items ≡ text.now) }
{
    let bodies = bodies_of(alloc, text)?;
    let ends = texts(alloc, from, to)?;
    message_between(alloc, stamp, ends, origin, bodies)
}

/// The line of an entry of which a report tells these fields. It has no number: a line doesn't show it.
fn entry_line(
    alloc: Global,
    id: &str,
    stamp: u64,
    from: &str,
    to: &str,
    origin: &str,
    text: &str,
) -> Result<EntryLine, NoMemory>
    ensures { IfOk result (λ line. line ≡ record { id = id.now; stamp = stamp; from = from.now; to = to.now; origin = origin.now; text = text.now }) }
{
    let message = message_of(alloc, stamp, from, to, origin, text)?;
    let entry = Entry::new(alloc, 0, message)?;
    let id = Text::from_str(alloc, id)?;
    Ok(EntryLine::new(id, entry))
}

/// The fields of an entry, in an archive and in a log alike.
#[tactic(auto, unfolding(crate::specs::LineReading::read_entry))]
pub fn read_entry(alloc: Global, fields: Option<&str>) -> Result<EntryLine, LineFault>
    ensures { Gives (λ line. line) result (read_entry (left fields.entry)) }
{
    let (id, rest) = next_field(fields)?;
    let (stamp, rest) = next_field(rest)?;
    let (from, rest) = next_field(rest)?;
    let (to, rest) = next_field(rest)?;
    let (origin, rest) = next_field(rest)?;
    let text = rest_field(rest)?;
    let stamp = number_in(stamp)?;
    Ok(entry_line(alloc, id, stamp, from, to, origin, text)?)
}

#[tactic(auto, unfolding(crate::specs::LineReading::read_conn_end))]
fn read_conn_end(word: &str) -> Result<ConnEnd, LineFault>
    ensures { Gives (λ end. end) result (read_conn_end word.now) }
{
    match word {
        "cut" => Ok(ConnEnd::Cut),
        "left" => Ok(ConnEnd::Left),
        "shut" => Ok(ConnEnd::Shut),
        "open" => Ok(ConnEnd::Open),
        _ => Err(LineFault::Reason(LineWhy::Word)),
    }
}

/// How many bytes entered and left each pipe of a connection, and its end.
#[derive(Clone, Copy)]
pub struct Pipes {
    pub upput: u64,
    pub uptaken: u64,
    pub downput: u64,
    pub downtaken: u64,
    pub end: ConnEnd,
}

#[tactic(auto, unfolding(crate::specs::LineReading::read_pipes))]
fn read_pipes(fields: Option<&str>) -> Result<Pipes, LineFault>
    ensures { Gives (λ pipes. pipes) result (read_pipes (left fields.entry)) }
{
    let (upput, rest) = next_field(fields)?;
    let (uptaken, rest) = next_field(rest)?;
    let (downput, rest) = next_field(rest)?;
    let (downtaken, rest) = next_field(rest)?;
    let end = last_field(rest)?;
    let upput = number_in(upput)?;
    let uptaken = number_in(uptaken)?;
    let downput = number_in(downput)?;
    let downtaken = number_in(downtaken)?;
    let end = read_conn_end(end)?;
    Ok(Pipes {
        upput,
        uptaken,
        downput,
        downtaken,
        end,
    })
}

fn conn_line(alloc: Global, k: u64, device: &str, pipes: Pipes) -> Result<ConnLine, NoMemory>
    ensures { IfOk result (λ line. line ≡ record { k = k; device = device.now; upput = pipes.upput; uptaken = pipes.uptaken; downput = pipes.downput; downtaken = pipes.downtaken; end = pipes.end }) }
{
    let device = Text::from_str(alloc, device)?;
    Ok(ConnLine {
        k,
        device,
        upput: pipes.upput,
        uptaken: pipes.uptaken,
        downput: pipes.downput,
        downtaken: pipes.downtaken,
        end: pipes.end,
    })
}

#[tactic(auto, unfolding(crate::specs::LineReading::read_conn))]
fn read_conn(alloc: Global, fields: Option<&str>) -> Result<ConnLine, LineFault>
    ensures { Gives (λ line. line) result (read_conn (left fields.entry)) }
{
    let (k, rest) = next_field(fields)?;
    let (device, rest) = next_field(rest)?;
    let pipes = read_pipes(rest)?;
    let k = number_in(k)?;
    Ok(conn_line(alloc, k, device, pipes)?)
}

#[tactic(auto, unfolding(crate::specs::LineReading::read_settled))]
fn read_settled(word: &str) -> Result<bool, LineFault>
    ensures { Gives (λ settled. settled) result (read_settled word.now) }
{
    match word {
        "yes" => Ok(true),
        "no" => Ok(false),
        _ => Err(LineFault::Reason(LineWhy::Word)),
    }
}

/// The line of a device, with nothing below it.
fn bare_device(alloc: Global, name: Text, account: Text, epoch: u64, settled: bool) -> DeviceLine
    ensures { result ≡ record { name = name; account = account; epoch = epoch; settled = settled; said = []; refused = []; pages = []; underway = []; logged = []; held = [] } }
{
    DeviceLine {
        name,
        account,
        epoch,
        settled,
        said: ListOf::new(alloc),
        refused: ListOf::new(alloc),
        pages: ListOf::new(alloc),
        underway: ListOf::new(alloc),
        logged: ListOf::new(alloc),
        held: ListOf::new(alloc),
    }
}

fn device_line(
    alloc: Global,
    name: &str,
    account: &str,
    epoch: u64,
    settled: bool,
) -> Result<DeviceLine, NoMemory>
    ensures { IfOk result (λ line. line ≡ record { name = name.now; account = account.now; epoch = epoch; settled = settled; said = []; refused = []; pages = []; underway = []; logged = []; held = [] }) }
{
    let (name, account) = texts(alloc, name, account)?;
    Ok(bare_device(alloc, name, account, epoch, settled))
}

#[tactic(auto, unfolding(crate::specs::LineReading::read_device))]
fn read_device(alloc: Global, fields: Option<&str>) -> Result<DeviceLine, LineFault>
    ensures { Gives (λ line. line) result (read_device (left fields.entry)) }
{
    let (name, rest) = next_field(fields)?;
    let (account, rest) = next_field(rest)?;
    let (epoch, rest) = next_field(rest)?;
    let settled = last_field(rest)?;
    let epoch = number_in(epoch)?;
    let settled = read_settled(settled)?;
    Ok(device_line(alloc, name, account, epoch, settled)?)
}

/// Whether a line has its first word alone, whichever line it is.
#[tactic(auto, unfolding(crate::specs::LineReading::read_bare))]
fn read_bare(fields: Option<&str>) -> Result<(), LineFault>
    ensures { (line : ReportLine) → Gives (λ _. line) result (read_bare (left fields.entry) line) }
{
    match fields {
        None => Ok(()),
        Some(_) => Err(LineFault::Reason(LineWhy::Shape)),
    }
}

/// What a line says that is no line of a list below a device's, by its first word.
#[tactic(auto, unfolding(crate::specs::LineReading::read_words))]
pub fn read_words(alloc: Global, version: Version, line: &str) -> Result<ReportLine, LineFault>
    ensures { Gives (λ read. read) result (read_words version (cut_of line.now)) }
{
    let (word, fields) = cut_word(line);
    match word {
        "take" => Ok(ReportLine::Take(read_take(alloc, version, fields)?)),
        "account" => Ok(ReportLine::Account(read_account(alloc, version, fields)?)),
        "entry" => Ok(ReportLine::Entry(read_entry(alloc, fields)?)),
        "conn" => Ok(ReportLine::Conn(read_conn(alloc, fields)?)),
        "device" => Ok(ReportLine::Device(read_device(alloc, fields)?)),
        "break" => {
            read_bare(fields)?;
            Ok(ReportLine::Break)
        }
        "end" => {
            read_bare(fields)?;
            Ok(ReportLine::End)
        }
        _ => Ok(ReportLine::Part(read_part(alloc, line)?)),
    }
}
