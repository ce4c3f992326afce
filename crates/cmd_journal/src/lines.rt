//! A text cut into lines.
ghost use Rattle.std.specs.Prelude.{◌≡◌, ◌&&◌, true, IfOk};
ghost use Rattle.std.specs.Str.{is_utf8};
ghost use Rattle.cmd_journal.specs.Gives.{Gives, left};
ghost use Rattle.cmd_journal.specs.LineReading.{fields_after};
ghost use Rattle.cmd_schedule.specs.Reading.{wants};
ghost use Rattle.cmd_schedule.specs.declared.fault.LineWhy.TheVariants.{Ending};

use crate::fault::{LineFault, wants};
use cmd_schedule::{LineWhy, cut_word};
use std::str;

/// The characters of a line that an LF ends.
pub fn spelled(line: &[u8], ended: bool) -> Result<&str, LineFault>
    ensures exact { Gives (λ _. true) result (wants (ended && is_utf8 line.now) Ending) }
    ensures same { IfOk result (λ text. text.now ≡ line.now) }
{
    if !ended {
        return Err(LineFault::Reason(LineWhy::Ending));
    }
    match str::from_utf8(line) {
        Ok(text) => Ok(text),
        Err(_) => Err(LineFault::Reason(LineWhy::Ending)),
    }
}

/// What follows the first word of a line, which must be this word.
#[tactic(auto, unfolding(crate::specs::LineReading::fields_after))]
pub fn fields_after<'a>(
    word: &str,
    line: &'a [u8],
    ended: bool,
) -> Result<Option<&'a str>, LineFault>
    ensures { Gives left result (fields_after word.now (record { bytes = line.now; ended = ended })) }
{
    let line = spelled(line, ended)?;
    let (front, fields) = cut_word(line);
    wants(front == word, LineWhy::Word)?;
    Ok(fields)
}
