//! Line 1, the ends of lines and first words, written as a schedule has them.
ghost use Rattle.std.specs.Prelude.{◌≡◌, ◌++◌, OnOk, IfOk};
ghost use Rattle.std.specs.Option.{option_map};
ghost use Rattle.cmd_rewriting.specs.Headings.{ending_of, heading_as_schedule, heading_by, heading_of, with_rest};
ghost use Rattle.cmd_schedule.specs.Gives.{left};
ghost use Rattle.cmd_schedule.specs.Reading.{cut_of};

use base_io::{Bytes, NoMemory};
use cmd_schedule::cut_word;
use std::alloc::Global;
use std::str;

/// Writes the LF of a line that has one.
pub fn push_ending(text: &mut Bytes, ended: bool) -> Result<(), NoMemory>
    ensures { OnOk result (text.new.items ≡ text.old.items ++ ending_of ended) }
{
    if ended { text.push(b'\n') } else { Ok(()) }
}

/// Writes a word, and behind a space what follows it in a line, where there is anything.
pub fn push_with_rest(text: &mut Bytes, word: &str, rest: Option<&str>) -> Result<(), NoMemory>
    ensures { OnOk result (text.new.items ≡ text.old.items ++ with_rest word.now (left rest.entry)) }
{
    text.append(word.as_bytes())?;
    match rest {
        Some(rest) => {
            text.push(b' ')?;
            text.append(rest.as_bytes())
        }
        None => Ok(()),
    }
}

// What follows the name in line 1, as a schedule has it.
fn heading_by(alloc: Global, words: &str) -> Result<Option<Bytes>, NoMemory>
    ensures { IfOk result (λ heading. option_map (λ b. b.items) heading ≡ heading_by (cut_of words.now)) }
{
    let (version, rest) = cut_word(words);
    if version != "1" {
        return Ok(None);
    }
    let mut text = Bytes::new(alloc);
    push_with_rest(&mut text, "xmpp-schedule 2 wire", rest)?;
    Ok(Some(text))
}

// Line 1 as a schedule has it, of its text.
fn heading_of(alloc: Global, name: &str, line: &str) -> Result<Option<Bytes>, NoMemory>
    ensures { IfOk result (λ heading. option_map (λ b. b.items) heading ≡ heading_of name.now (cut_of line.now)) }
{
    let (word, rest) = cut_word(line);
    if word != name {
        return Ok(None);
    }
    match rest {
        Some(words) => heading_by(alloc, words),
        None => Ok(None),
    }
}

/// Line 1 of a file of a kind, as a schedule has it: `xmpp-schedule 2 wire KEEP` where it is `NAME 1 KEEP`, whatever stands
/// in the place of KEEP. `None` exactly where it is no such line, or isn't UTF-8.
pub fn heading(alloc: Global, name: &str, line: &[u8]) -> Result<Option<Bytes>, NoMemory>
    ensures { IfOk result (λ heading. option_map (λ b. b.items) heading ≡ heading_as_schedule name.now line.now) }
{
    match str::from_utf8(line) {
        Ok(line) => heading_of(alloc, name, line),
        Err(_) => Ok(None),
    }
}
