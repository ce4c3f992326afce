//! Stanzas that are moved into trees and copied.
//!
//! `stanza_of` moves a stanza's content as one list, so that no payload is copied.
ghost use Rattle.std.specs.Prelude.{◌≡◌, Ok, IfOk};
ghost use Rattle.im_stanza.specs.Readings.{stanza_of};
ghost use Rattle.im_stanza.specs.Written.{iq_elem, message_elem};
ghost use Rattle.xml_trees.specs.Tidied.{tidied, tidied_nodes};

use crate::stanzas::{Iq, Message, Presence, Stanza};
use crate::writing::{iq_element, message_element};
use base_io::{Copied, NoMemory};
use im_jid::Jid;
use std::alloc::Global;
use std::mem;
use xml_trees::{Nodes, Tree, copy_nodes};

impl Message {
    /// The message as a tree, with its payload moved into it. It is written as by `message_tree`.
    #[tactic(auto, using(crate::proofs::WrittenLaws::message_tidied))]
    pub fn into_tree(mut self, alloc: Global) -> Result<Tree, NoMemory>
        ensures tree { IfOk result (λ tree. tree ≡ tidied (message_elem self)) }
        ensures read { IfOk result (λ tree. stanza_of tree ≡ Ok (Stanza.Message (record self { payload = tidied_nodes self.payload }))) }
    {
        let payload = mem::replace(&mut self.payload, Nodes::new(alloc));
        Tree::of(alloc, message_element(alloc, &self, payload)?)
    }

    /// An equal message, in memory of its own.
    pub fn copy(&self, alloc: Global) -> Result<Message, NoMemory>
        ensures { IfOk result (λ copy. copy ≡ self.now) }
    {
        Ok(Message {
            from: address_copy(alloc, &self.from)?,
            to: address_copy(alloc, &self.to)?,
            id: self.id.copied(alloc)?,
            kind: self.kind,
            lang: self.lang.copied(alloc)?,
            payload: copy_nodes(alloc, self.payload.as_slice())?,
        })
    }
}

impl Presence {
    /// An equal presence, in memory of its own.
    pub fn copy(&self, alloc: Global) -> Result<Presence, NoMemory>
        ensures { IfOk result (λ copy. copy ≡ self.now) }
    {
        Ok(Presence {
            from: address_copy(alloc, &self.from)?,
            to: address_copy(alloc, &self.to)?,
            id: self.id.copied(alloc)?,
            kind: self.kind,
            priority: self.priority,
        })
    }
}

impl Iq {
    /// The `iq` as a tree, with its payload moved into it. It is written as by `iq_tree`.
    #[tactic(auto, using(crate::proofs::WrittenLaws::iq_tidied))]
    pub fn into_tree(mut self, alloc: Global) -> Result<Tree, NoMemory>
        ensures tree { IfOk result (λ tree. tree ≡ tidied (iq_elem self)) }
        ensures read { IfOk result (λ tree. stanza_of tree ≡ Ok (Stanza.Iq (record self { payload = tidied_nodes self.payload }))) }
    {
        let payload = mem::replace(&mut self.payload, Nodes::new(alloc));
        Tree::of(alloc, iq_element(alloc, &self, payload)?)
    }

    /// An equal `iq`, in memory of its own.
    pub fn copy(&self, alloc: Global) -> Result<Iq, NoMemory>
        ensures { IfOk result (λ copy. copy ≡ self.now) }
    {
        Ok(Iq {
            from: address_copy(alloc, &self.from)?,
            to: address_copy(alloc, &self.to)?,
            id: self.id.copied(alloc)?,
            kind: self.kind,
            payload: copy_nodes(alloc, self.payload.as_slice())?,
        })
    }
}

// An equal address, where there is one.
fn address_copy(alloc: Global, address: &Option<Jid>) -> Result<Option<Jid>, NoMemory>
    ensures { IfOk result (λ copy. copy ≡ address.now) }
{
    match address {
        None => Ok(None),
        Some(jid) => Ok(Some(jid.copied(alloc)?)),
    }
}
