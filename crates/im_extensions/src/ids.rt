//! Unique and stable ids of stanzas (XEP-0359).
ghost use Rattle.std.specs.Prelude.{◌≡◌, IfErr, IfOk};
ghost use Rattle.im_payload.specs.Faults.{IsFault};
ghost use Rattle.xml_trees.specs.Views.{elem_view};
ghost use Rattle.im_extensions.specs.Ids.{IsOriginId, IsStanzaId, OriginIdLacks, StanzaIdLacks, is_origin_id, is_stanza_id, origin_id_elem, stanza_id_elem};
ghost use Rattle.im_extensions.specs.Readings.{origin_id_read, stanza_id_read};
ghost use Rattle.im_payload.specs.Readings.{Reads};

use base_io::{NoMemory, Text};
use im_payload::{ExtFault, Field, STANZA_IDS, push_value};
use std::alloc::Global;
use xml_trees::{Element, Tree};

/// The id that an archive or another entity gave to a stanza, and that entity's address as it is written (XEP-0359,
/// section 3.1).
#[derive(Drop)]
pub struct StanzaId {
    pub id: Text,
    pub by: Text,
}

/// The id that a sender gave to its stanza (XEP-0359, section 3.2).
#[derive(Drop)]
pub struct OriginId {
    pub id: Text,
}

impl StanzaId {
    /// Reads a `stanza-id` of its namespace: its attributes `id` and `by`, either of which may be empty. `NotThis` where the
    /// tree is another element, `Bad(Id)` where `id` is absent, and else `Bad(Jid)` where `by` is absent.
    pub fn read(alloc: Global, tree: &Tree) -> Result<StanzaId, ExtFault>
        ensures ok { IfOk result (λ id. IsStanzaId tree.now id) }
        ensures err { IfErr result (IsFault (is_stanza_id tree.now) (StanzaIdLacks tree.now)) }
        ensures reading { Reads result (stanza_id_read tree.now) }
    {
        StanzaId::read_element(alloc, tree.element())
    }

    /// The same of an element, which need not keep the rule of a tree.
    pub fn read_element(alloc: Global, element: &Element) -> Result<StanzaId, ExtFault>
        ensures ok { IfOk result (λ id. IsStanzaId (elem_view element.now) id) }
        ensures err { IfErr result (IsFault (is_stanza_id (elem_view element.now)) (StanzaIdLacks (elem_view element.now))) }
        ensures reading { Reads result (stanza_id_read (elem_view element.now)) }
    {
        if !element.is(STANZA_IDS, "stanza-id") {
            return Err(ExtFault::NotThis);
        }
        let Some(id) = element.attr("", "id") else {
            return Err(ExtFault::Bad(Field::Id));
        };
        let Some(by) = element.attr("", "by") else {
            return Err(ExtFault::Bad(Field::Jid));
        };
        Ok(StanzaId {
            id: Text::from_str(alloc, id)?,
            by: Text::from_str(alloc, by)?,
        })
    }

    /// The element as a tree.
    pub fn tree(&self, alloc: Global) -> Result<Tree, NoMemory>
        ensures { IfOk result (λ tree. tree ≡ stanza_id_elem self.now) }
    {
        let mut element = Element::from_strs(alloc, STANZA_IDS, "stanza-id")?;
        push_value(alloc, &mut element, "by", self.by.as_str())?;
        push_value(alloc, &mut element, "id", self.id.as_str())?;
        Tree::of(alloc, element)
    }
}

impl OriginId {
    /// Reads an `origin-id` of its namespace: its attribute `id`, which may be empty. `NotThis` where the tree is another
    /// element, `Bad(Id)` where `id` is absent.
    pub fn read(alloc: Global, tree: &Tree) -> Result<OriginId, ExtFault>
        ensures ok { IfOk result (λ id. IsOriginId tree.now id) }
        ensures err { IfErr result (IsFault (is_origin_id tree.now) (OriginIdLacks tree.now)) }
        ensures reading { Reads result (origin_id_read tree.now) }
    {
        OriginId::read_element(alloc, tree.element())
    }

    /// The same of an element, which need not keep the rule of a tree.
    pub fn read_element(alloc: Global, element: &Element) -> Result<OriginId, ExtFault>
        ensures ok { IfOk result (λ id. IsOriginId (elem_view element.now) id) }
        ensures err { IfErr result (IsFault (is_origin_id (elem_view element.now)) (OriginIdLacks (elem_view element.now))) }
        ensures reading { Reads result (origin_id_read (elem_view element.now)) }
    {
        if !element.is(STANZA_IDS, "origin-id") {
            return Err(ExtFault::NotThis);
        }
        match element.attr("", "id") {
            Some(id) => Ok(OriginId {
                id: Text::from_str(alloc, id)?,
            }),
            None => Err(ExtFault::Bad(Field::Id)),
        }
    }

    /// The element as a tree.
    pub fn tree(&self, alloc: Global) -> Result<Tree, NoMemory>
        ensures { IfOk result (λ tree. tree ≡ origin_id_elem self.now) }
    {
        let mut element = Element::from_strs(alloc, STANZA_IDS, "origin-id")?;
        push_value(alloc, &mut element, "id", self.id.as_str())?;
        Tree::of(alloc, element)
    }
}
