//! What a run is done again from is read from its text.
//!
//! The laws of a journal speak of the input that a user makes of it: the accounts file, the line `%%`, the journal to
//! its last byte.
ghost use Rattle.std.specs.Prelude.{◌≡◌, ◌⊎◌, Err, IfOk, IfErr};
ghost use Rattle.cmd_journal.specs.AccountsFiles.{AccountsView, IsAccountsFile, accounts_text};
ghost use Rattle.cmd_journal.specs.Journals.{InputView, Says};
ghost use Rattle.cmd_journal.specs.Reading.{accounts_reading, rerun_reading};
ghost use Rattle.cmd_journal.specs.declared.fault.InputFault.TheVariants.{NoMemory as WantOfMemory};

use crate::accounts_file::AccountsFile;
use crate::accounts_reading::{Behind, read_file};
use crate::event::RerunInput;
use crate::event_reading::{read_events, read_journal_header};
use crate::fault::{InputFault, LineFault};
use std::alloc::Global;

// What reading answers, unless memory runs out.
#[tactic(auto, unfolding(crate::specs::Reading::accounts_reading))]
fn accounts_of(alloc: Global, bytes: &[u8]) -> Result<AccountsFile, InputFault>
    ensures { (result ≡ Err WantOfMemory) ⊎ (result ≡ accounts_reading bytes.now) }
{
    match read_file(alloc, Behind::Nothing, bytes) {
        Ok(begun) => Ok(begun.file),
        Err(fault) => Err(fault),
    }
}

/// The accounts file that bytes are the text of. `BadLine` comes where they are the text of none: it names the first bad
/// line, counted from 1, and its first reason: `Header` for line 1, and of the others `Ending`, `Word`, `Shape`, then
/// `Name`, `Twice` and `Text` by the fields from the left, and `Number`. A `domain` or `keep` line that is missing is `Word`.
/// `NoMemory` comes where memory ran out, whatever the bytes are.
pub fn read_accounts(alloc: Global, bytes: &[u8]) -> Result<AccountsFile, InputFault>
    ensures exact { (result ≡ Err WantOfMemory) ⊎ (result ≡ accounts_reading bytes.now) }
    ensures found { IfOk result (λ file. IsAccountsFile file × (bytes.now ≡ accounts_text file)) }
    ensures bad { IfErr result (λ e. (e ≡ WantOfMemory) ⊎ ((file : AccountsView) → ¬ (IsAccountsFile file × (bytes.now ≡ accounts_text file)))) }
{
    accounts_of(alloc, bytes)
}

// What reading answers, unless memory runs out.
#[tactic(auto, unfolding(crate::specs::Reading::rerun_reading))]
fn input_of(alloc: Global, bytes: &[u8]) -> Result<RerunInput, InputFault>
    ensures { (result ≡ Err WantOfMemory) ⊎ (result ≡ rerun_reading bytes.now) }
{
    let begun = match read_file(alloc, Behind::Journal, bytes) {
        Ok(begun) => begun,
        Err(fault) => return Err(fault),
    };
    let rest = match read_journal_header(begun.file.version, begun.rest) {
        Ok(rest) => rest,
        Err(LineFault::Reason(why)) => {
            return Err(InputFault::BadLine {
                line: begun.next,
                why,
            });
        }
        Err(LineFault::NoMemory) => return Err(InputFault::NoMemory),
    };
    let events = read_events(alloc, begun.next + 1, rest)?;
    Ok(RerunInput {
        accounts: begun.file,
        events,
    })
}

/// What a run is done again from: an accounts file, the line `%%`, and a journal of the same version. `BadLine` names the
/// first bad line, counted from 1 over the whole input, and its first reason. No line `%%`, or an unended one, is
/// `Ending`, and so is a `domain` or `keep` line that is missing because the text ends. The line behind `%%` is `Header`
/// where it is not the journal's first, and `Ending` where it lacks its LF alone. Of an event's line the order is `Ending`,
/// `Word`, `Shape`, then by the fields from the left `Number`, `Twice` (a connection whose number is not above each
/// earlier one's), `Number`, `Text`. The first line whose first word is `account`, `overrun` or `end` ends the events, and
/// what stands behind it is not judged. `NoMemory` comes where memory ran out, whatever the bytes are.
pub fn read_rerun(alloc: Global, bytes: &[u8]) -> Result<RerunInput, InputFault>
    ensures exact { (result ≡ Err WantOfMemory) ⊎ (result ≡ rerun_reading bytes.now) }
    ensures found { IfOk result (λ input. Says bytes.now input) }
    ensures bad { IfErr result (λ e. (e ≡ WantOfMemory) ⊎ ((input : InputView) → ¬ (Says bytes.now input))) }
{
    input_of(alloc, bytes)
}
