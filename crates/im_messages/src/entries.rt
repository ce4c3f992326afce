//! What an archive keeps of a message (XEP-0313, section 4.2).
//!
//! What both ends make of a message's payload is one crate (`im_messages`): bodies, ids taken out, the archive's
//! entry.
ghost use Rattle.std.specs.Prelude.{◌≡◌, ℕ, [], IfOk, unwrap_or};
ghost use Rattle.mam_archive.specs.Entries.{entry_with};
ghost use Rattle.im_extensions.specs.Given.{origin_of};
ghost use Rattle.im_messages.specs.Entries.{entry_of, is_normal};
ghost use Rattle.xml_trees.specs.Views.{nodes_view};

use crate::bodies::bodies_of;
use base_io::{Copied, NoMemory, Text};
use im_extensions::origin_of;
use im_jid::Jid;
use im_stanza::{Message, MessageKind};
use mam_archive::{ArchivedMessage, Entry};
use std::alloc::Global;
use xml_trees::Node;

/// The entry of a message under a number, taken at a moment in milliseconds since 1970: its addresses, empty where absent,
/// whether it is of type `normal`, its id, the id of its first `origin-id`, and its bodies. Both ends keep the same of a
/// message, but for its number and the moment.
pub fn message_entry(
    alloc: Global,
    number: u64,
    stamp: u64,
    message: &Message,
) -> Result<Entry, NoMemory>
    ensures { IfOk result (λ entry. entry ≡ entry_of number stamp message.now) }
{
    let kept = archived(alloc, stamp, message)?;
    Entry::new(alloc, number, kept)
}

// What is kept of a message, whatever its number.
fn archived(alloc: Global, stamp: u64, m: &Message) -> Result<ArchivedMessage, NoMemory>
    ensures { IfOk result (λ kept. (number : ℕ) → entry_with number kept ≡ entry_of number stamp m.now) }
{
    Ok(ArchivedMessage {
        stamp,
        from: address_text(alloc, &m.from)?,
        to: address_text(alloc, &m.to)?,
        normal: is_normal(m.kind),
        id: m.id.copied(alloc)?,
        origin: origin_text(alloc, m.payload.as_slice())?,
        bodies: bodies_of(alloc, m.payload.as_slice())?,
    })
}

// The text of an address, empty where there is none.
fn address_text(alloc: Global, address: &Option<Jid>) -> Result<Text, NoMemory>
    ensures { IfOk result (λ text. text ≡ unwrap_or address.now []) }
{
    match address {
        None => Ok(Text::new(alloc)),
        Some(jid) => Text::from_str(alloc, jid.text()),
    }
}

// The id of the first `origin-id`, empty where there is none.
fn origin_text(alloc: Global, payload: &[Node]) -> Result<Text, NoMemory>
    ensures { IfOk result (λ text. text ≡ unwrap_or (origin_of (nodes_view payload.now)) []) }
{
    match origin_of(payload) {
        None => Ok(Text::new(alloc)),
        Some(id) => Text::from_str(alloc, id),
    }
}

fn is_normal(kind: MessageKind) -> bool
    ensures { result ≡ is_normal kind }
{
    matches!(kind, MessageKind::Normal)
}
