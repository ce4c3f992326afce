//! A text cut into lines.
ghost use Rattle.std.specs.Prelude.{◌≡◌, ◌≢◌, ◌<◌, ◌&&◌, ◌∷◌, ◌++◌, true, length, All, IfOk, MatchOption};
ghost use Rattle.std.specs.Str.{is_utf8};
ghost use Rattle.cmd_schedule.specs.Gives.{Gives};
ghost use Rattle.cmd_schedule.specs.Reading.{pieces_of, wants};
ghost use Rattle.cmd_schedule.specs.declared.fault.LineWhy.TheVariants.{Ending};

use crate::fault::{LineFault, LineWhy};
use memchr::memchr;
use std::str;

/// The first line of a text, whether an LF ends it, and what follows that LF.
pub fn first_line(text: &[u8]) -> (&[u8], bool, &[u8])
    requires { 0 < length text.now }
    ensures pieces { pieces_of text.now ≡ record { bytes = result.0.now; ended = result.1 } ∷ pieces_of result.2.now }
    ensures shorter { length result.2.now < length text.now }
{
    match cut(text, b'\n') {
        Some((line, rest)) => (line, true, rest),
        None => (text, false, &[]),
    }
}

/// What stands before and behind the first such byte, where there is one.
#[tactic(auto, using(crate::proofs::Cuts::cut_there, crate::proofs::Cuts::cut_nowhere))]
fn cut(bytes: &[u8], at: u8) -> Option<(&[u8], &[u8])>
    ensures { MatchOption result (All (λ b. b ≢ at) bytes.now)
        (λ x. (bytes.now ≡ x.0.now ++ at ∷ x.1.now) × All (λ b. b ≢ at) x.0.now) }
{
    match memchr(at, bytes) {
        Some(i) => Some((&bytes[..i], &bytes[i + 1..])),
        None => None,
    }
}

/// The characters of a line that an LF ends. `Ending` comes where none does, and where the line is not UTF-8.
pub fn spelled(line: &[u8], ended: bool) -> Result<&str, LineFault>
    ensures exact { Gives (λ _. true) result (wants (ended && is_utf8 line.now) Ending) }
    ensures same { IfOk result (λ text. text.now ≡ line.now) }
{
    if !ended {
        return Err(LineFault::Reason(LineWhy::Ending));
    }
    match str::from_utf8(line) {
        Ok(text) => Ok(text),
        Err(_) => Err(LineFault::Reason(LineWhy::Ending)),
    }
}
