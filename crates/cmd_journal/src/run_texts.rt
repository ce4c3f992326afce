//! The text of a run that was done again.
//!
//! A connection that the server shuts has no `gone` behind that in a journal. Another program that reads on to its
//! end may write one.
ghost use Rattle.std.specs.Prelude.{◌≡◌, IfOk, map};
ghost use Rattle.cmd_journal.specs.Texts.{named_view, output_view, rerun_text};

use crate::archive_texts::{NamedArchive, append_archives};
use crate::output::Outputs;
use crate::output_texts::append_outputs;
use base_io::{Bytes, NoMemory};
use cmd_schedule::Version;
use std::alloc::Global;

/// The text of a run that was done again: its first line, a line for each thing that was put out, in order, the archives
/// as a journal of this version has them, and `end`.
#[tactic(auto, unfolding(crate::specs::Texts::rerun_text))]
pub fn rerun_text(
    alloc: Global,
    version: Version,
    outputs: &Outputs,
    archives: &[NamedArchive<'_>],
) -> Result<Bytes, NoMemory>
    ensures { IfOk result (λ text. text.items ≡ rerun_text version (map output_view outputs.now.items) (map named_view archives.now)) }
{
    let mut out = Bytes::new(alloc);
    out.append(b"xmpp-rerun 1\n")?;
    append_outputs(alloc, &mut out, outputs)?;
    append_archives(&mut out, version, archives)?;
    out.append(b"end\n")?;
    Ok(out)
}
