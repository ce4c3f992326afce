//! A file of restarts is read from its text: it is written as the schedule that it is, which is read.
ghost use Rattle.std.specs.Prelude.{◌≡◌, ◌⊎◌, ◌<◌, ◌^◌, ◌+◌, ◌++◌, Err, IfOk, OnOk, Some, length};
ghost use Rattle.cmd_restarts.specs.Files.{number_if, read_below, reading_restarts};
ghost use Rattle.cmd_restarts.specs.RestartFiles.{IsRestartFile};
ghost use Rattle.cmd_restarts.specs.Rewritten.{IsRewritten};
ghost use Rattle.cmd_schedule.specs.Reading.{pieces_of};
ghost use Rattle.cmd_schedule.specs.declared.fault.ScheduleFault.TheVariants.{NoMemory as WantOfMemory};

use crate::file::RestartFile;
use crate::rewriting::{is_restart, push_line};
use base_io::{Bytes, ListOf, NoMemory, Numbers};
use cmd_rewriting::{heading, push_ending, read_wire_schedule};
use cmd_schedule::{LineWhy, ScheduleFault, first_line};
use std::alloc::Global;

// Lines as a schedule has them: their text, the number of the next one, and which of them are `restart` lines.
#[derive(Drop)]
struct Rewritten {
    text: Bytes,
    next: u64,
    restarts: Numbers,
}

// The number of a line is noted down where it is a restart.
fn note(restarts: &mut Numbers, is: bool, number: u64) -> Result<(), NoMemory>
    ensures { OnOk result (restarts.new.items ≡ restarts.old.items ++ number_if is number) }
{
    if is { restarts.push(number) } else { Ok(()) }
}

// The lines of a text are written.
fn rewrite(so_far: &mut Rewritten, text: &[u8]) -> Result<(), NoMemory>
    requires few { so_far.old.next + length text.now < 2 ^ 64 }
    ensures { OnOk result (IsRewritten so_far.old (pieces_of text.now) so_far.new) }
{
    let mut rest = text;
    while !rest.is_empty() {
        let (line, ended, below) = first_line(rest);
        push_line(&mut so_far.text, line, ended)?;
        note(&mut so_far.restarts, is_restart(line, ended), so_far.next)?;
        so_far.next += 1;
        rest = below;
    }
    Ok(())
}

// The file of a heading and the lines after it.
fn read_lines(
    alloc: Global,
    heading: Bytes,
    ended: bool,
    below: &[u8],
) -> Result<RestartFile, ScheduleFault>
    requires { 2 + length below.now < 2 ^ 64 }
    ensures { (result ≡ Err WantOfMemory) ⊎ (result ≡ read_below (Some heading.items) ended (pieces_of below.now)) }
{
    let mut so_far = Rewritten {
        text: heading,
        next: 2,
        restarts: ListOf::new(alloc),
    };
    push_ending(&mut so_far.text, ended)?;
    rewrite(&mut so_far, below)?;
    let schedule = read_wire_schedule(alloc, so_far.text.as_slice())?;
    Ok(RestartFile {
        schedule,
        restarts: so_far.restarts,
    })
}

// What reading answers, unless memory runs out.
#[tactic(auto, unfolding(crate::specs::Files::reading_restarts))]
fn file_of(alloc: Global, bytes: &[u8]) -> Result<RestartFile, ScheduleFault>
    ensures { (result ≡ Err WantOfMemory) ⊎ (result ≡ reading_restarts bytes.now) }
{
    if bytes.is_empty() {
        return Err(ScheduleFault::BadLine {
            line: 1,
            why: LineWhy::Header,
        });
    }
    let (line, ended, below) = first_line(bytes);
    match heading(alloc, "xmpp-restarts", line)? {
        Some(heading) => read_lines(alloc, heading, ended, below),
        None => Err(ScheduleFault::BadLine {
            line: 1,
            why: LineWhy::Header,
        }),
    }
}

/// The file of restarts that bytes are the text of. `BadLine` comes where they are the text of none: `Header` at line 1
/// where that is none of such a file; else with the first bad line and its first reason, as `read_schedule` has them of the
/// schedule that the file is. `NoMemory` comes where memory ran out, whatever the bytes are.
pub fn read_restarts(alloc: Global, bytes: &[u8]) -> Result<RestartFile, ScheduleFault>
    ensures exact { (result ≡ Err WantOfMemory) ⊎ (result ≡ reading_restarts bytes.now) }
    ensures found { IfOk result IsRestartFile }
{
    file_of(alloc, bytes)
}
