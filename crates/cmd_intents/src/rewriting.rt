//! Lines of a file of intents, written as a schedule has them.
ghost use Rattle.std.specs.Prelude.{◌≡◌, ◌++◌, OnOk, IfOk};
ghost use Rattle.std.specs.Option.{option_map};
ghost use Rattle.cmd_schedule.specs.Gives.{left};
ghost use Rattle.cmd_schedule.specs.Reading.{cut_of};
ghost use Rattle.cmd_intents.specs.Files;
ghost use Rattle.cmd_intents.specs.Files.{ending_of, heading_as_schedule, heading_by, heading_of, line_as_schedule, line_by, with_rest};

use base_io::{Bytes, NoMemory};
use cmd_schedule::{LineFault, cut_word, spelled};
use std::alloc::Global;

/// The most `intent` lines of a file, and the most `resolve` lines.
pub const MOST_LINES: u64 = 1_000;

/// What a line asks for.
#[derive(Clone, Copy, Debug, PartialEq, Eq)]
pub enum LineKind {
    /// A line that schedules have too.
    Plain,
    /// A message that is an intent.
    Intent,
    /// What became of a device's intents is to be resolved.
    Resolve,
}

// What a line with this first word asks for.
fn kind_of(word: &str) -> LineKind
    ensures { result ≡ Files.kind_of word.now }
{
    match word {
        "intent" => LineKind::Intent,
        "resolve" => LineKind::Resolve,
        _ => LineKind::Plain,
    }
}

// A word, and what follows the space after it.
fn push_with_rest(text: &mut Bytes, word: &str, rest: Option<&str>) -> Result<(), NoMemory>
    ensures { OnOk result (text.new.items ≡ text.old.items ++ with_rest word.now (left rest.entry)) }
{
    text.append(word.as_bytes())?;
    match rest {
        Some(rest) => {
            text.push(b' ')?;
            text.append(rest.as_bytes())
        }
        None => Ok(()),
    }
}

/// The LF of a line that has one.
pub(crate) fn push_ending(text: &mut Bytes, ended: bool) -> Result<(), NoMemory>
    ensures { OnOk result (text.new.items ≡ text.old.items ++ ending_of ended) }
{
    if ended { text.push(b'\n') } else { Ok(()) }
}

/// What a line asks for.
pub(crate) fn kind_of_line(line: &[u8], ended: bool) -> Result<LineKind, NoMemory>
    ensures { IfOk result (λ kind. kind ≡ Files.kind_of_line (record { bytes = line.now; ended = ended })) }
{
    match spelled(line, ended) {
        Ok(text) => Ok(kind_of(cut_word(text).0)),
        Err(LineFault::Reason(_)) => Ok(LineKind::Plain),
        Err(LineFault::NoMemory) => Err(NoMemory),
    }
}

// A line that is ended and UTF-8.
fn push_spelled(text: &mut Bytes, line: &str) -> Result<(), NoMemory>
    ensures { OnOk result (text.new.items ≡ text.old.items ++ line_by (Files.kind_of (cut_of line.now).front) line.now) }
{
    let (word, rest) = cut_word(line);
    match kind_of(word) {
        LineKind::Plain => text.append(line.as_bytes()),
        LineKind::Intent => push_with_rest(text, "say", rest),
        LineKind::Resolve => push_with_rest(text, "catchup", rest),
    }
}

// A line without its LF.
fn push_unended(text: &mut Bytes, line: &[u8], ended: bool) -> Result<(), NoMemory>
    ensures { OnOk result (text.new.items ≡ text.old.items ++ line_by (Files.kind_of_line (record { bytes = line.now; ended = ended })) line.now) }
{
    match spelled(line, ended) {
        Ok(spelled) => push_spelled(text, spelled),
        Err(LineFault::Reason(_)) => text.append(line),
        Err(LineFault::NoMemory) => Err(NoMemory),
    }
}

/// A line as a schedule has it.
pub(crate) fn push_line(text: &mut Bytes, line: &[u8], ended: bool) -> Result<(), NoMemory>
    ensures { OnOk result (text.new.items ≡ text.old.items ++ line_as_schedule (record { bytes = line.now; ended = ended })) }
{
    push_unended(text, line, ended)?;
    push_ending(text, ended)
}

// What follows `xmpp-intents` in line 1, as a schedule has it.
fn heading_by(alloc: Global, words: &str) -> Result<Option<Bytes>, NoMemory>
    ensures { IfOk result (λ heading. option_map (λ b. b.items) heading ≡ heading_by (cut_of words.now)) }
{
    let (version, rest) = cut_word(words);
    if version != "1" {
        return Ok(None);
    }
    let mut text = Bytes::new(alloc);
    push_with_rest(&mut text, "xmpp-schedule 2 wire", rest)?;
    Ok(Some(text))
}

// Line 1 as a schedule has it, of its text.
fn heading_of(alloc: Global, line: &str) -> Result<Option<Bytes>, NoMemory>
    ensures { IfOk result (λ heading. option_map (λ b. b.items) heading ≡ heading_of (cut_of line.now)) }
{
    let (name, rest) = cut_word(line);
    if name != "xmpp-intents" {
        return Ok(None);
    }
    match rest {
        Some(words) => heading_by(alloc, words),
        None => Ok(None),
    }
}

/// Line 1 as a schedule has it. `None` exactly where it isn't a file's of intents.
pub(crate) fn heading(alloc: Global, line: &[u8]) -> Result<Option<Bytes>, NoMemory>
    ensures { IfOk result (λ heading. option_map (λ b. b.items) heading ≡ heading_as_schedule line.now) }
{
    match spelled(line, true) {
        Ok(text) => heading_of(alloc, text),
        Err(LineFault::Reason(_)) => Ok(None),
        Err(LineFault::NoMemory) => Err(NoMemory),
    }
}
