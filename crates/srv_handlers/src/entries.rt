//! What archives keep of a message (XEP-0313, section 4.2; XEP-0359), and how that is told.
ghost use Rattle.std.specs.Prelude.{◌≡◌, ℕ, [], IfOk, unwrap_or};
ghost use Rattle.mam_archive.specs.Entries.{entry_with};
ghost use Rattle.im_extensions.specs.Given.{origin_of};
ghost use Rattle.im_forwarding.specs.Passed.{addressed_view};
ghost use Rattle.im_messages.specs.Entries.{entry_of, is_normal};
ghost use Rattle.xml_trees.specs.Views.{nodes_view};

use base_io::{Copied, NoMemory, Text};
use im_extensions::origin_of;
use im_forwarding::Addressed;
use im_messages::bodies_of;
use im_stanza::MessageKind;
use mam_archive::{ArchivedMessage, Entry};
use srv_state::Output;
use std::alloc::Global;
use xml_trees::Node;

// The id of the first `origin-id`, empty where there is none.
fn origin_text(alloc: Global, payload: &[Node]) -> Result<Text, NoMemory>
    ensures { IfOk result (λ text. text ≡ unwrap_or (origin_of (nodes_view payload.now)) []) }
{
    match origin_of(payload) {
        None => Ok(Text::new(alloc)),
        Some(id) => Text::from_str(alloc, id),
    }
}

fn is_normal(kind: MessageKind) -> bool
    ensures { result ≡ is_normal kind }
{
    matches!(kind, MessageKind::Normal)
}

// What is kept of a message that goes on with these addresses, whatever its number.
fn archived(
    alloc: Global,
    moment: u64,
    addressed: &Addressed<'_>,
) -> Result<ArchivedMessage, NoMemory>
    ensures { IfOk result (λ kept. (number : ℕ) → entry_with number kept ≡ entry_of number moment (addressed_view addressed.now)) }
{
    let message = addressed.message;
    Ok(ArchivedMessage {
        stamp: moment,
        from: Text::from_str(alloc, addressed.from)?,
        to: Text::from_str(alloc, addressed.to)?,
        normal: is_normal(message.kind),
        id: message.id.copied(alloc)?,
        origin: origin_text(alloc, message.payload.as_slice())?,
        bodies: bodies_of(alloc, message.payload.as_slice())?,
    })
}

/// The entry of a message, before it has a number: as it is addressed, and taken at a moment in milliseconds since 1970.
pub(crate) fn entry_of(
    alloc: Global,
    moment: u64,
    addressed: &Addressed<'_>,
) -> Result<Entry, NoMemory>
    ensures { IfOk result (λ entry. entry ≡ entry_of 0 moment (addressed_view addressed.now)) }
{
    let kept = archived(alloc, moment, addressed)?;
    Entry::new(alloc, 0, kept)
}

/// It is told that the message of an entry was archived: its addresses, and the id that its sender gave it.
pub(crate) fn took_of(alloc: Global, entry: &Entry) -> Result<Output, NoMemory>
    ensures { IfOk result (λ output. output ≡ Output.Took entry.now.from entry.now.to entry.now.origin) }
{
    let message = entry.message();
    Ok(Output::Took {
        from: message.from.copied(alloc)?,
        to: message.to.copied(alloc)?,
        origin: message.origin.copied(alloc)?,
    })
}
