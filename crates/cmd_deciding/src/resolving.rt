//! A whole file of intents.
ghost use Rattle.std.specs.Prelude.{◌≡◌, IfOk, OnOk};
ghost use Rattle.cmd_intents.specs.Files.{IsIntentFile};
ghost use Rattle.cmd_resolving.specs.Expansion.{all_gone, watched_end, watching_at_start};

use crate::starting::watch_at_start;
use crate::watch::Watch;
use base_io::NoMemory;
use cmd_intents::IntentFile;
use cmd_schedule::WireLine;
use std::alloc::Global;

// All lines of a file, one after another.
fn take_all(
    alloc: Global,
    watch: &mut Watch,
    file: &IntentFile,
    lines: &[WireLine],
) -> Result<(), NoMemory>
    requires right { IsIntentFile file.now }
    requires lines { lines.now ≡ file.now.schedule.lines }
    requires start { watch.old ≡ watching_at_start file.now }
    ensures { OnOk result (watch.new ≡ all_gone file.now lines.now watch.old) }
{
    for line in lines {
        watch.take(alloc, file, line)?;
    }
    Ok(())
}

/// A file of intents is run: its world, byte by byte, and the intents of its devices, in the end. Which lines it stands for
/// is found along the way. `NoMemory` comes only where memory runs out.
#[tactic(auto, unfolding(cmd_resolving::specs::Expansion::watched_end))]
pub fn resolve(alloc: Global, file: &IntentFile) -> Result<Watch, NoMemory>
    requires { IsIntentFile file.now }
    ensures { IfOk result (λ watch. watch ≡ watched_end file.now) }
{
    let mut watch = watch_at_start(alloc, file)?;
    take_all(alloc, &mut watch, file, file.schedule.lines.as_slice())?;
    Ok(watch)
}
