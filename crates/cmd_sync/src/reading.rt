//! A script is read from its text.
ghost use Rattle.std.specs.Prelude.{◌≡◌, ◌⊎◌, ◌+◌, ◌^◌, ◌<◌, true, length, Err, IfOk, IfErr};
ghost use Rattle.cmd_schedule.specs.Reading.{pieces_of};
ghost use Rattle.cmd_schedule.specs.declared.fault.LineWhy.TheVariants.{Header, Word};
ghost use Rattle.cmd_sync.specs.Gives.{Gives, ReadsAs};
ghost use Rattle.cmd_sync.specs.ScriptReading.{read_below, read_first, read_steps, read_user, script_reading, with_next};
ghost use Rattle.cmd_sync.specs.Scripts.{Says, ScriptView};
ghost use Rattle.cmd_sync.specs.declared.script_fault.ScriptFault.TheVariants.{NoMemory as WantOfMemory};

use crate::script::{Script, Steps, User};
use crate::script_fault::{LineFault, ScriptFault, wants};
use crate::steps::{read_step, read_user};
use cmd_schedule::{LineWhy, first_line};
use std::alloc::Global;

/// What follows the first line of a script.
#[tactic(auto, unfolding(crate::specs::ScriptReading::read_first))]
fn read_first(text: &[u8]) -> Result<&[u8], LineFault>
    ensures read { Gives (λ rest. (true, pieces_of rest.now)) result (with_next read_first Header (pieces_of text.now)) }
    ensures shorter { IfOk result (λ rest. length rest.now < length text.now) }
{
    if text.is_empty() {
        return Err(LineFault::Reason(LineWhy::Header));
    }
    let (line, ended, rest) = first_line(text);
    wants(line == b"xmpp-sync 1".as_slice(), LineWhy::Header)?;
    wants(ended, LineWhy::Ending)?;
    Ok(rest)
}

/// Who logs in, and what follows that line.
fn read_login(alloc: Global, text: &[u8]) -> Result<(User, &[u8]), LineFault>
    ensures read { Gives (λ begun. (begun.0, pieces_of begun.1.now)) result (with_next read_user Word (pieces_of text.now)) }
    ensures shorter { IfOk result (λ begun. length begun.1.now < length text.now) }
{
    if text.is_empty() {
        return Err(LineFault::Reason(LineWhy::Word));
    }
    let (line, ended, rest) = first_line(text);
    let user = read_user(alloc, line, ended)?;
    Ok((user, rest))
}

/// The steps from line `number` on.
fn read_steps(alloc: Global, number: u64, text: &[u8]) -> Result<Steps, ScriptFault>
    requires { number + length text.now < 2 ^ 64 }
    ensures { ReadsAs (λ steps. steps.items) result (read_steps number (pieces_of text.now)) }
{
    let mut steps = Steps::new(alloc);
    let mut next = number;
    let mut rest = text;
    while !rest.is_empty() {
        let (line, ended, after) = first_line(rest);
        let step = match read_step(alloc, line, ended) {
            Ok(step) => step,
            Err(LineFault::Reason(why)) => return Err(ScriptFault::BadLine { line: next, why }),
            Err(LineFault::NoMemory) => return Err(ScriptFault::NoMemory),
        };
        steps.push(step)?;
        next += 1;
        rest = after;
    }
    Ok(steps)
}

/// A script from its second line on.
fn read_below(alloc: Global, text: &[u8]) -> Result<Script, ScriptFault>
    ensures { ReadsAs (λ script. script) result (read_below (pieces_of text.now)) }
{
    let (user, rest) = match read_login(alloc, text) {
        Ok(begun) => begun,
        Err(LineFault::Reason(why)) => return Err(ScriptFault::BadLine { line: 2, why }),
        Err(LineFault::NoMemory) => return Err(ScriptFault::NoMemory),
    };
    let steps = read_steps(alloc, 3, rest)?;
    Ok(Script { user, steps })
}

// What reading answers, unless memory runs out.
#[tactic(auto, unfolding(crate::specs::ScriptReading::script_reading))]
fn script_of(alloc: Global, bytes: &[u8]) -> Result<Script, ScriptFault>
    ensures { (result ≡ Err WantOfMemory) ⊎ (result ≡ script_reading bytes.now) }
{
    match read_first(bytes) {
        Ok(rest) => read_below(alloc, rest),
        Err(LineFault::Reason(why)) => Err(ScriptFault::BadLine { line: 1, why }),
        Err(LineFault::NoMemory) => Err(ScriptFault::NoMemory),
    }
}

/// The script that bytes say: the line `xmpp-sync 1`, the line `account ADDRESS PASSWORD RESOURCE`, then the lines
/// `say ADDRESS TEXT` and `catchup MAX` in any order. `BadLine` comes where they say none: it names the first bad line,
/// counted from 1, and its first reason: `Header` for line 1, and of the others `Ending`, `Word`, `Shape`, then by the
/// fields from the left `Name` (no address, or the account's is not bare or has no local part; no resource), `Text` and
/// `Number`. An `account` line that is missing is `Word`. `NoMemory` comes where memory ran out, whatever the bytes are.
pub fn read_script(alloc: Global, bytes: &[u8]) -> Result<Script, ScriptFault>
    ensures exact { (result ≡ Err WantOfMemory) ⊎ (result ≡ script_reading bytes.now) }
    ensures found { IfOk result (λ script. Says bytes.now script) }
    ensures bad { IfErr result (λ e. (e ≡ WantOfMemory) ⊎ ((script : ScriptView) → ¬ (Says bytes.now script))) }
{
    script_of(alloc, bytes)
}
