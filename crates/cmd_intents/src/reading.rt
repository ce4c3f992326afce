//! A file of intents is read from its text: it is written as the schedule that it is, which is read.
ghost use Rattle.std.specs.Prelude.{◌≡◌, ◌⊎◌, ◌<◌, ◌^◌, ◌++◌, ◌+◌, Err, OnOk, IfOk, Some, length};
ghost use Rattle.cmd_schedule.specs.Reading.{pieces_of};
ghost use Rattle.cmd_schedule.specs.declared.fault.ScheduleFault.TheVariants.{NoMemory as WantOfMemory};
ghost use Rattle.cmd_intents.specs.Files;
ghost use Rattle.cmd_intents.specs.Files.{IsIntentFile, beyond, is_intent, is_resolve, judged, number_if, read_below, reading_intents, within};
ghost use Rattle.cmd_intents.specs.Rewritten.{IsRewritten};

use crate::file::IntentFile;
use crate::rewriting::{LineKind, MOST_LINES, heading, kind_of_line, push_ending, push_line};
use base_io::{Bytes, ListOf, NoMemory, Numbers};
use cmd_schedule::{LineWhy, Schedule, ScheduleFault, first_line, read_schedule};
use std::alloc::Global;

// Lines as a schedule has them: their text, how many there are, and which of them are `intent` lines and `resolve` lines.
#[derive(Drop)]
struct Rewritten {
    text: Bytes,
    next: u64,
    intents: Numbers,
    resolves: Numbers,
}

// The line is one too many.
fn is_beyond(kind: LineKind, so_far: &Rewritten) -> bool
    ensures { result ≡ Files.is_beyond (length so_far.now.intents.items) (length so_far.now.resolves.items) kind }
{
    match kind {
        LineKind::Plain => false,
        LineKind::Intent => so_far.intents.as_slice().len() as u64 >= MOST_LINES,
        LineKind::Resolve => so_far.resolves.as_slice().len() as u64 >= MOST_LINES,
    }
}

// The number of the next line is noted down.
fn note(so_far: &mut Rewritten, kind: LineKind) -> Result<(), NoMemory>
    ensures intents { OnOk result (so_far.new.intents.items ≡ so_far.old.intents.items ++ number_if (is_intent kind) so_far.old.next) }
    ensures resolves { OnOk result (so_far.new.resolves.items ≡ so_far.old.resolves.items ++ number_if (is_resolve kind) so_far.old.next) }
    ensures next { so_far.new.next ≡ so_far.old.next }
    ensures text { so_far.new.text.items ≡ so_far.old.text.items }
{
    match kind {
        LineKind::Plain => Ok(()),
        LineKind::Intent => so_far.intents.push(so_far.next),
        LineKind::Resolve => so_far.resolves.push(so_far.next),
    }
}

// The lines of a text above the first one that is one too many are written, and the text from that one on is left.
#[tactic(auto, using(crate::proofs::Lines::nothing_more))]
fn rewrite<'a>(so_far: &mut Rewritten, text: &'a [u8]) -> Result<&'a [u8], NoMemory>
    requires few { so_far.old.next + length text.now < 2 ^ 64 }
    ensures rest { IfOk result (λ rest. pieces_of rest.now ≡ beyond (length so_far.old.intents.items) (length so_far.old.resolves.items) (pieces_of text.now)) }
    ensures ok { OnOk result (IsRewritten so_far.old (within (length so_far.old.intents.items) (length so_far.old.resolves.items) (pieces_of text.now)) so_far.new) }
{
    let mut rest = text;
    while !rest.is_empty() {
        let (line, ended, after) = first_line(rest);
        let kind = match kind_of_line(line, ended) {
            Ok(kind) => kind,
            Err(NoMemory) => return Err(NoMemory),
        };
        let stops = is_beyond(kind, so_far);
        if stops {
            return Ok(rest);
        }
        push_line(&mut so_far.text, line, ended)?;
        note(so_far, kind)?;
        so_far.next += 1;
        rest = after;
    }
    Ok(rest)
}

// The file that good lines are. A line that is one too many after them is the bad one.
fn judged(file: IntentFile, number: u64, rest: &[u8]) -> Result<IntentFile, ScheduleFault>
    ensures { result ≡ judged file number (pieces_of rest.now) }
{
    if rest.is_empty() {
        return Ok(file);
    }
    let (_line, _ended, _after) = first_line(rest);
    Err(ScheduleFault::BadLine {
        line: number,
        why: LineWhy::Many,
    })
}

// The file of a heading and the lines after it.
fn read_lines(
    alloc: Global,
    heading: Bytes,
    ended: bool,
    below: &[u8],
) -> Result<IntentFile, ScheduleFault>
    requires { 2 + length below.now < 2 ^ 64 }
    ensures { (result ≡ Err WantOfMemory) ⊎ (result ≡ read_below (Some heading.items) ended (pieces_of below.now)) }
{
    let mut so_far = Rewritten {
        text: heading,
        next: 2,
        intents: ListOf::new(alloc),
        resolves: ListOf::new(alloc),
    };
    push_ending(&mut so_far.text, ended)?;
    let rest = rewrite(&mut so_far, below)?;
    let schedule = match read_schedule(alloc, so_far.text.as_slice())? {
        Schedule::Wire(schedule) => schedule,
        Schedule::Direct(_) => {
            return Err(ScheduleFault::BadLine {
                line: 1,
                why: LineWhy::Header,
            });
        }
    };
    let file = IntentFile {
        schedule,
        intents: so_far.intents,
        resolves: so_far.resolves,
    };
    judged(file, so_far.next, rest)
}

// What reading answers, unless memory runs out.
#[tactic(auto, unfolding(crate::specs::Files::reading_intents))]
fn file_of_bytes(alloc: Global, bytes: &[u8]) -> Result<IntentFile, ScheduleFault>
    ensures { (result ≡ Err WantOfMemory) ⊎ (result ≡ reading_intents bytes.now) }
{
    if bytes.is_empty() {
        return Err(ScheduleFault::BadLine {
            line: 1,
            why: LineWhy::Header,
        });
    }
    let (line, ended, below) = first_line(bytes);
    match heading(alloc, line)? {
        Some(heading) => read_lines(alloc, heading, ended, below),
        None => Err(ScheduleFault::BadLine {
            line: 1,
            why: LineWhy::Header,
        }),
    }
}

/// The file of intents that bytes are the text of. `BadLine` comes where they are the text of none: `Header` at line 1 where
/// that is none of such a file; else with the first bad line and its first reason, as `read_schedule` has them of the
/// schedule that the file is; `Many` besides, where an `intent` or `resolve` line is one too many. `NoMemory` comes where
/// memory ran out, whatever the bytes are.
pub fn read_intents(alloc: Global, bytes: &[u8]) -> Result<IntentFile, ScheduleFault>
    ensures exact { (result ≡ Err WantOfMemory) ⊎ (result ≡ reading_intents bytes.now) }
    ensures found { IfOk result IsIntentFile }
{
    file_of_bytes(alloc, bytes)
}
