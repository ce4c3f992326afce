//! The bytes of a file of intents, run.
ghost use Rattle.std.specs.Prelude.{◌≡◌, ◌⊎◌, Ok, Err, IfErr, IfOk};
ghost use Rattle.cmd_intents.specs.Files.{IsIntentFile};
ghost use Rattle.cmd_schedule.specs.declared.fault.ScheduleFault.TheVariants.{NoMemory as WantOfMemory};
ghost use Rattle.cmd_deciding.specs.Answers.{answer_of};
ghost use Rattle.cmd_resolving.specs.Expansion.{watched_end};
ghost use Rattle.cmd_deciding.specs.Texts.{text_of_intents};

use crate::resolving::resolve;
use crate::texts::intents_text;
use base_io::{Bytes, NoMemory};
use cmd_intents::{IntentFile, read_intents};
use cmd_schedule::ScheduleFault;
use std::alloc::Global;

// The text of what a file comes to.
#[tactic(auto, using(crate::proofs::Along::few_in_end))]
fn file_text(alloc: Global, file: &IntentFile) -> Result<Bytes, NoMemory>
    requires { IsIntentFile file.now }
    ensures { IfOk result (λ text. text.items ≡ text_of_intents (watched_end file.now)) }
{
    let watch = resolve(alloc, file)?;
    intents_text(alloc, &watch)
}

/// The text of what the bytes of a file of intents come to: its report, and what became of its intents. The refusals are those
/// of `read_intents`, where the bytes are the text of no such file. `NoMemory` comes where memory ran out, whatever the
/// bytes are.
pub fn resolved_bytes(alloc: Global, input: Bytes) -> Result<Bytes, ScheduleFault>
    ensures ok { IfOk result (λ text. answer_of input.items ≡ Ok text.items) }
    ensures err { IfErr result (λ why. (why ≡ WantOfMemory) ⊎ (answer_of input.items ≡ Err why)) }
{
    let file = read_intents(alloc, input.as_slice())?;
    Ok(file_text(alloc, &file)?)
}
