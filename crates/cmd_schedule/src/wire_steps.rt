//! What a line of a wire schedule says, by its first word, below what stands above it.
ghost use Rattle.std.specs.Prelude.{◌≡◌, ◌≤◌, true, IfOk, OnOk, OnErr};
ghost use Rattle.cmd_schedule.specs.Gives.{Gives, left};
ghost use Rattle.cmd_schedule.specs.Reading.{cut_of, wants};
ghost use Rattle.cmd_schedule.specs.WireGrammar.{above_by, nothing_above};
ghost use Rattle.cmd_schedule.specs.WireReading.{conn_of, count_of, fit_with, times_of, read_device_name, read_dial, read_forget, read_close, read_moved, read_up, read_down, read_cut, read_pass, read_run, read_common, read_moves, read_wire_words, read_wire_line};
ghost use Rattle.cmd_schedule.specs.declared.fault.LineWhy.TheVariants.{Many};

use crate::decimals::number_within;
use crate::fault::{LineFault, LineWhy, wants};
use crate::fields::{cut_word, last_field, next_field};
use crate::lines::spelled;
use crate::schedule::{Count, MOST_DIALS, MOST_NUMBER, MOST_TIMES, MOST_TIMES_TOGETHER, WireStep};
use crate::steps::{NamesAbove, read_words};
use base_io::{Copied, Text};
use std::alloc::Global;
use std::marker::Model;

/// What stands above a line: the names, how many connections are made, and the times of `pass` and `run` lines.
#[derive(Drop)]
pub struct WireAbove {
    names: NamesAbove,
    dials: u32,
    times: u32,
}

impl Model for WireAbove {
    ghost use Rattle.cmd_schedule.specs.WireGrammar.{WireAbove};

    ghost Value = { WireAbove };

    ghost view = { λ a. record { names = a.names; dials = a.dials; times = a.times } };
}

impl WireAbove {
    /// Nothing. It takes no memory.
    pub fn new(alloc: Global) -> WireAbove
        ensures { result ≡ nothing_above }
    {
        WireAbove {
            names: NamesAbove::new(alloc),
            dials: 0,
            times: 0,
        }
    }
}

/// The only field of a line, which names a device.
#[tactic(auto, unfolding(crate::specs::WireReading::read_device_name))]
fn read_device_name(
    alloc: Global,
    above: &WireAbove,
    fields: Option<&str>,
) -> Result<Text, LineFault>
    ensures { Gives (λ name. name) result (read_device_name above.now (left fields.entry)) }
{
    let device = last_field(fields)?;
    let device = above.names.devices.known(device)?;
    Ok(device.copied(alloc)?)
}

#[tactic(auto, unfolding(crate::specs::WireReading::read_dial))]
fn read_dial(
    alloc: Global,
    above: &mut WireAbove,
    fields: Option<&str>,
) -> Result<WireStep, LineFault>
    ensures exact { Gives (λ step. step) result (read_dial above.old (left fields.entry)) }
    ensures above { IfOk result (λ step. above.new ≡ above_by step above.old) }
    ensures err { OnErr result (above.new ≡ above.old) }
{
    wants(above.dials < MOST_DIALS, LineWhy::Many)?;
    let device = read_device_name(alloc, above, fields)?;
    above.dials += 1;
    Ok(WireStep::Dial(device))
}

#[tactic(auto, unfolding(crate::specs::WireReading::read_forget))]
fn read_forget(
    alloc: Global,
    above: &WireAbove,
    fields: Option<&str>,
) -> Result<WireStep, LineFault>
    ensures exact { Gives (λ step. step) result (read_forget above.now (left fields.entry)) }
    ensures above { IfOk result (λ step. above_by step above.now ≡ above.now) }
{
    Ok(WireStep::Forget(read_device_name(alloc, above, fields)?))
}

#[tactic(auto, unfolding(crate::specs::WireReading::read_close))]
fn read_close(alloc: Global, above: &WireAbove, fields: Option<&str>) -> Result<WireStep, LineFault>
    ensures exact { Gives (λ step. step) result (read_close above.now (left fields.entry)) }
    ensures above { IfOk result (λ step. above_by step above.now ≡ above.now) }
{
    Ok(WireStep::Close(read_device_name(alloc, above, fields)?))
}

/// The number of one of so many connections.
fn conn_of(dials: u32, field: &str) -> Result<u32, LineFault>
    ensures { Gives (λ conn. conn) result (conn_of dials field.now) }
{
    match number_within(1, dials, field) {
        Ok(conn) => Ok(conn),
        Err(LineFault::Reason(_)) => Err(LineFault::Reason(LineWhy::Unknown)),
        Err(LineFault::NoMemory) => Err(LineFault::NoMemory),
    }
}

/// How many bytes are moved.
fn count_of(field: &str) -> Result<Count, LineFault>
    ensures { Gives (λ count. count) result (count_of field.now) }
{
    if field == "all" {
        return Ok(Count::All);
    }
    Ok(Count::Number(number_within(0, MOST_NUMBER, field)?))
}

/// A connection, and how many bytes of it are moved.
#[tactic(auto, unfolding(crate::specs::WireReading::read_moved))]
fn read_moved(above: &WireAbove, fields: Option<&str>) -> Result<(u32, Count), LineFault>
    ensures { Gives (λ moved. moved) result (read_moved above.now (left fields.entry)) }
{
    let (conn, rest) = next_field(fields)?;
    let field = last_field(rest)?;
    let conn = conn_of(above.dials, conn)?;
    Ok((conn, count_of(field)?))
}

#[tactic(auto, unfolding(crate::specs::WireReading::read_up))]
fn read_up(above: &WireAbove, fields: Option<&str>) -> Result<WireStep, LineFault>
    ensures exact { Gives (λ step. step) result (read_up above.now (left fields.entry)) }
    ensures above { IfOk result (λ step. above_by step above.now ≡ above.now) }
{
    let (conn, count) = read_moved(above, fields)?;
    Ok(WireStep::Up(conn, count))
}

#[tactic(auto, unfolding(crate::specs::WireReading::read_down))]
fn read_down(above: &WireAbove, fields: Option<&str>) -> Result<WireStep, LineFault>
    ensures exact { Gives (λ step. step) result (read_down above.now (left fields.entry)) }
    ensures above { IfOk result (λ step. above_by step above.now ≡ above.now) }
{
    let (conn, count) = read_moved(above, fields)?;
    Ok(WireStep::Down(conn, count))
}

#[tactic(auto, unfolding(crate::specs::WireReading::read_cut))]
fn read_cut(above: &WireAbove, fields: Option<&str>) -> Result<WireStep, LineFault>
    ensures exact { Gives (λ step. step) result (read_cut above.now (left fields.entry)) }
    ensures above { IfOk result (λ step. above_by step above.now ≡ above.now) }
{
    let (conn, rest) = next_field(fields)?;
    let (up, rest) = next_field(rest)?;
    let down = last_field(rest)?;
    let conn = conn_of(above.dials, conn)?;
    let up = number_within(0, MOST_NUMBER, up)?;
    let down = number_within(0, MOST_NUMBER, down)?;
    Ok(WireStep::Cut(conn, up, down))
}

/// A test that the times of a line fit with those of the lines above, which they do where they are no number that a
/// line may have.
fn wants_few(before: u32, field: &str) -> Result<(), LineFault>
    ensures { Gives (λ _. true) result (wants (fit_with before (times_of field.now)) Many) }
{
    match number_within(1, MOST_TIMES, field) {
        Ok(times) => {
            let together = u64::from(before) + u64::from(times);
            wants(together <= u64::from(MOST_TIMES_TOGETHER), LineWhy::Many)
        }
        Err(LineFault::Reason(_)) => Ok(()),
        Err(LineFault::NoMemory) => Err(LineFault::NoMemory),
    }
}

#[tactic(auto, unfolding(crate::specs::WireReading::read_pass))]
fn read_pass(above: &mut WireAbove, fields: Option<&str>) -> Result<WireStep, LineFault>
    ensures exact { Gives (λ step. step) result (read_pass above.old (left fields.entry)) }
    ensures above { IfOk result (λ step. above.new ≡ above_by step above.old) }
    ensures err { OnErr result (above.new ≡ above.old) }
{
    let (conn, rest) = next_field(fields)?;
    let field = last_field(rest)?;
    wants_few(above.times, field)?;
    let conn = conn_of(above.dials, conn)?;
    let times = number_within(1, MOST_TIMES, field)?;
    above.times += times;
    Ok(WireStep::Pass(conn, times))
}

#[tactic(auto, unfolding(crate::specs::WireReading::read_run))]
fn read_run(above: &mut WireAbove, fields: Option<&str>) -> Result<WireStep, LineFault>
    ensures exact { Gives (λ step. step) result (read_run above.old (left fields.entry)) }
    ensures above { IfOk result (λ step. above.new ≡ above_by step above.old) }
    ensures err { OnErr result (above.new ≡ above.old) }
{
    let field = last_field(fields)?;
    wants_few(above.times, field)?;
    let times = number_within(1, MOST_TIMES, field)?;
    above.times += times;
    Ok(WireStep::Run(times))
}

/// A line that direct schedules have too.
#[tactic(auto, unfolding(crate::specs::WireReading::read_common))]
fn read_common(alloc: Global, above: &mut WireAbove, line: &str) -> Result<WireStep, LineFault>
    ensures exact { Gives (λ step. step) result (read_common above.old (cut_of line.now)) }
    ensures above { IfOk result (λ step. above.new ≡ above_by step above.old) }
    ensures err { OnErr result (above.new ≡ above.old) }
{
    Ok(WireStep::Common(read_words(alloc, &mut above.names, line)?))
}

/// What a line says, by its first word, where that is one that moves bytes.
#[tactic(auto, unfolding(crate::specs::WireReading::read_moves))]
fn read_moves(alloc: Global, above: &mut WireAbove, line: &str) -> Result<WireStep, LineFault>
    ensures exact { Gives (λ step. step) result (read_moves above.old (cut_of line.now)) }
    ensures above { IfOk result (λ step. above.new ≡ above_by step above.old) }
    ensures err { OnErr result (above.new ≡ above.old) }
{
    let (word, fields) = cut_word(line);
    match word {
        "up" => read_up(above, fields),
        "down" => read_down(above, fields),
        "cut" => read_cut(above, fields),
        "pass" => read_pass(above, fields),
        "run" => read_run(above, fields),
        _ => read_common(alloc, above, line),
    }
}

/// What a line says, by its first word. It adds to what stands above.
#[tactic(auto, unfolding(crate::specs::WireReading::read_wire_words))]
fn read_wire_words(alloc: Global, above: &mut WireAbove, line: &str) -> Result<WireStep, LineFault>
    ensures exact { Gives (λ step. step) result (read_wire_words above.old (cut_of line.now)) }
    ensures above { IfOk result (λ step. above.new ≡ above_by step above.old) }
    ensures err { OnErr result (above.new ≡ above.old) }
{
    let (word, fields) = cut_word(line);
    match word {
        "dial" => read_dial(alloc, above, fields),
        "forget" => read_forget(alloc, above, fields),
        "close" => read_close(alloc, above, fields),
        _ => read_moves(alloc, above, line),
    }
}

/// What line `number` says. It adds to what stands above, and a line that is not read leaves that as it was.
#[tactic(auto, unfolding(crate::specs::WireReading::read_wire_line))]
pub fn read_wire_line(
    alloc: Global,
    above: &mut WireAbove,
    number: u64,
    line: &[u8],
    ended: bool,
) -> Result<WireStep, LineFault>
    ensures exact { Gives (λ step. step) result (read_wire_line above.old number (record { bytes = line.now; ended = ended })) }
    ensures above { IfOk result (λ step. above.new ≡ above_by step above.old) }
    ensures err { OnErr result (above.new ≡ above.old) }
    ensures few { OnOk result (number ≤ 100000) }
{
    let line = spelled(line, ended)?;
    wants(number <= 100_000, LineWhy::Many)?;
    read_wire_words(alloc, above, line)
}
