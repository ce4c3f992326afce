//! The text of a log.
ghost use Rattle.std.specs.Prelude.{◌≡◌, IfOk};
ghost use Rattle.cmd_sync.specs.Texts.{synced_text};

use crate::logged::{append_all_held, append_entries, append_pages};
use base_io::{Bytes, NoMemory};
use mam_log::Log;
use std::alloc::Global;

/// The text of a log: its first line, a line for each page that was taken over, for each entry, and for each message that
/// is held, and `end`. In the fields that a peer chooses, which are ids and texts, each character below U+20 is written as
/// a space.
#[tactic(auto, unfolding(crate::specs::Texts::synced_text))]
pub fn synced_text(alloc: Global, log: &Log) -> Result<Bytes, NoMemory>
    ensures { IfOk result (λ text. text.items ≡ synced_text log.now) }
{
    let mut out = Bytes::new(alloc);
    out.append(b"xmpp-synced 2\n")?;
    append_pages(&mut out, log.tiles())?;
    append_entries(&mut out, log.tiles(), log.entries())?;
    append_all_held(&mut out, log.held())?;
    out.append(b"end\n")?;
    Ok(out)
}
