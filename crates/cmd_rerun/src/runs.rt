//! A run of the server's core that is done again.
//!
//! `rerun` shows what the core does with events, and reads no clock. That the numbers of a run's connections are
//! fresh is proved in `cmd_rerun`, so that `Server` can ask for it.
//!
//! With 2^32 accounts or more a run is not done again (`NoMemory`).
ghost use Rattle.std.specs.Prelude.{◌≡◌, ◌⊎◌, ◌<◌, ◌^◌, Err, IfErr, IfOk, length, map};
ghost use Rattle.cmd_journal.specs.AccountsFiles.{IsAccountsFile};
ghost use Rattle.cmd_journal.specs.Journals.{AreEvents, InputView, IsInput, Says, event_view};
ghost use Rattle.cmd_journal.specs.Reading.{rerun_reading};
ghost use Rattle.cmd_journal.specs.declared.fault.InputFault.TheVariants.{NoMemory as WantOfMemory};
ghost use Rattle.cmd_rerun.specs.Reruns.{SaysRun, after_events, rerun_of, run_at_start, run_of, text_of_run};

use crate::configuring::server_of;
use crate::events::on_events;
use crate::outputs::{lines_of, named_archives};
use base_io::{Bytes, NoMemory};
use cmd_journal::{AccountsFile, Event, InputFault, RerunInput, read_rerun, rerun_text};
use srv_core::{Outputs, Server};
use std::alloc::Global;

// The text of a run.
fn text_of_run(
    alloc: Global,
    file: &AccountsFile,
    server: &Server,
    outputs: Outputs,
) -> Result<Bytes, NoMemory>
    requires { length file.now.accounts < 2 ^ 32 }
    ensures { IfOk result (λ text. text.items ≡ text_of_run file.now (run_of server.now outputs.items)) }
{
    let lines = lines_of(alloc, outputs)?;
    let archives = named_archives(alloc, file.accounts.as_slice(), server)?;
    rerun_text(alloc, file.version, &lines, archives.as_slice())
}

// The text of the run of a server of these accounts, to which these events happen.
#[tactic(auto, using(crate::proofs::Numbers::start_fresh))]
fn run_again(alloc: Global, file: &AccountsFile, events: &[Event]) -> Result<Bytes, NoMemory>
    requires right { IsAccountsFile file.now }
    requires ascending { AreEvents 0 (map event_view events.now) }
    ensures { IfOk result (λ text. text.items ≡ text_of_run file.now (after_events (map event_view events.now) (run_at_start file.now))) }
{
    if file.accounts.as_slice().len() > u32::MAX as usize {
        return Err(NoMemory);
    }
    let mut server = server_of(alloc, file)?;
    let mut outputs = Outputs::new(alloc);
    on_events(&mut server, events, &mut outputs)?;
    text_of_run(alloc, file, &server, outputs)
}

/// What a server with these accounts puts out while this happens to it, and its archives in the end, as a text (RFC 6120,
/// RFC 6121). Nothing else is looked at, neither a clock nor a source of random bytes, so that the same input gives the
/// same text. `NoMemory` comes where memory ran out, and where there are 2^32 accounts or more, so that some have no place.
#[tactic(auto, unfolding(crate::specs::Reruns::rerun_of))]
pub fn rerun(alloc: Global, input: &RerunInput) -> Result<Bytes, NoMemory>
    requires { IsInput input.now }
    ensures { IfOk result (λ text. text.items ≡ rerun_of input.now) }
{
    run_again(alloc, &input.accounts, input.events.as_slice())
}

/// The same of the input that bytes are the text of. `BadLine` comes exactly where they are the text of none, with the
/// first bad line and its first reason, as `read_rerun` has them. `NoMemory` comes where memory ran out, as in `rerun`.
pub fn rerun_bytes(alloc: Global, bytes: Bytes) -> Result<Bytes, InputFault>
    ensures exact { IfOk result (λ text. (input : InputView) × Says bytes.items input × (text.items ≡ rerun_of input)) }
    ensures read { IfErr result (λ e. (e ≡ WantOfMemory) ⊎ (rerun_reading bytes.items ≡ Err e)) }
    ensures bad { IfErr result (λ e. (e ≡ WantOfMemory) ⊎ ¬ (SaysRun bytes.items)) }
{
    let read = read_rerun(alloc, bytes.as_slice());
    drop(bytes);
    match read {
        Ok(input) => match rerun(alloc, &input) {
            Ok(text) => Ok(text),
            Err(NoMemory) => Err(InputFault::NoMemory),
        },
        Err(fault) => Err(fault),
    }
}
