//! What goes to sessions, in the making.
ghost use Rattle.std.specs.Prelude.{◌≡◌, [], ◌∷◌, ◌++◌, IfOk, OnOk, length};
ghost use Rattle.srv_state.specs.OutgoingStanzas.{sends_of};
ghost use Rattle.srv_state.specs.Steps.{Send};

use base_io::{Bytes, NoMemory};
use srv_state::OutgoingStanza;
use std::alloc::Global;

/// What was made for the sessions of an account, by the account's place: bytes that all of them get.
#[derive(Drop)]
pub(crate) struct Made {
    pub(crate) account: u32,
    pub(crate) bytes: Bytes,
}

/// A stanza more, to the session with a number.
#[tactic(auto, using(std::proofs::lemmas::List::map_push))]
pub(crate) fn add_stanza(
    alloc: Global,
    outgoing_stanzas: &mut Vec<OutgoingStanza>,
    number: u64,
    bytes: Bytes,
) -> Result<(), NoMemory>
    ensures { OnOk result (sends_of outgoing_stanzas.new.items ≡ sends_of outgoing_stanzas.old.items ++ Send number bytes.items ∷ []) }
{
    let outgoing_stanza = OutgoingStanza::new(alloc, number, bytes)?;
    outgoing_stanzas.push(outgoing_stanza)?;
    Ok(())
}

/// How many stanzas there are. `NoMemory` where they are more than 32 bits count.
pub(crate) fn count_of(outgoing_stanzas: &[OutgoingStanza]) -> Result<u32, NoMemory>
    ensures { IfOk result (λ count. count ≡ length outgoing_stanzas.now) }
{
    match u32::try_from(outgoing_stanzas.len()) {
        Ok(count) => Ok(count),
        Err(_) => Err(NoMemory),
    }
}
