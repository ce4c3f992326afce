//! Elements under construction.
ghost use Rattle.std.specs.Prelude.{◌≡◌, [], map, string_bytes, IfOk, OnOk, OnErr};
ghost use Rattle.xml_trees.specs.Attributes.{sorted_attributes};
ghost use Rattle.xml_framer.specs.Expanded.{attribute_of};
ghost use Rattle.xml_framer.specs.States.{gives, item_ended, turn};
ghost use Rattle.xml_framer.specs.TagSteps.{closed, closed_joined, deeper, joined_text, leaf, level};
ghost use Rattle.xml_framer.specs.declared.items.Item.TheVariants as item;
ghost use Rattle.xml_open.specs.Open.{joined};
ghost use Rattle.xml_trees.specs.Tidied.{text_node, tidied};
ghost use Rattle.xml_trees.specs.Views.{elem_view};
ghost use Rattle.xml_names.specs.TagView.{tag_view};

use crate::framer::Framer;
use crate::items::{Item, Items};
use base_io::{NoMemory, Text};
use std::alloc::Global;
use std::mem;
use xml_names::{ExpandedAttribute, Tag};
use xml_open::OpenElements;
use xml_trees::{Attr, Attrs, Element, Tree, tidy_attrs};

// A text of up to so many bytes is copied out of the room that it was read into, which stays for the next one. The room of
// a longer one goes with it.
const COPIED: usize = 512;

// The attributes of a tag in the order of a tree, moved.
fn attrs_of(alloc: Global, attributes: Vec<ExpandedAttribute>) -> Result<Attrs, NoMemory>
    ensures { IfOk result (λ attrs. attrs.items ≡ sorted_attributes (map attribute_of attributes.items)) }
{
    let mut attrs = Vec::with_capacity(alloc, attributes.len())?;
    for attribute in attributes {
        let ExpandedAttribute { ns, name, value } = attribute;
        attrs.push_reserved(Attr { ns, name, value });
    }
    tidy_attrs(Attrs::from(attrs))
}

// The text in hand joins the innermost open element.
fn join_to(alloc: Global, opens: &mut OpenElements, chars: &mut String) -> Result<(), NoMemory>
    ensures joined { OnOk result (opens.new ≡ joined opens.old (text_node (string_bytes chars.old))) }
    ensures taken { OnOk result (string_bytes chars.new ≡ []) }
{
    if chars.as_str().is_empty() {
        return Ok(());
    }
    if chars.as_str().len() <= COPIED {
        opens.text(Text::from_str(alloc, chars.as_str())?)?;
        chars.clear();
        return Ok(());
    }
    let text = mem::replace(chars, String::new(alloc));
    opens.text(Text::from(text))?;
    Ok(())
}

impl Framer {
    // The text in hand joins the innermost open element.
    fn join_text(&mut self) -> Result<(), NoMemory>
        ensures { OnOk result (self.new ≡ joined_text self.old) }
    {
        join_to(self.alloc, &mut self.opens, &mut self.chars)?;
        Ok(())
    }

    // A whole element that none is around is given.
    fn give(&mut self, element: Element, items: &mut Items) -> Result<(), NoMemory>
        ensures ok { OnOk result (turn self.new items.new.items ≡ gives (item_ended self.old) items.old.items (item.Element (tidied (elem_view element)))) }
        ensures err { OnErr result (items.new.items ≡ items.old.items) }
    {
        // Attributes were put in order and texts joined as they were read. `Tree::of` finds that so in one walk, and takes
        // no memory: the state of the definitions needn't say it of each open element.
        let tree = Tree::of(self.alloc, element)?;
        items.push(Item::Element(tree))?;
        self.end_item();
        Ok(())
    }

    // The tag of an empty element.
    #[tactic(auto, unfolding(crate::specs::TagSteps::leaf))]
    pub(crate) fn add_leaf(&mut self, tag: Tag, items: &mut Items) -> Result<(), NoMemory>
        ensures ok { OnOk result (turn self.new items.new.items ≡ leaf (turn self.old items.old.items) (tag_view tag)) }
        ensures err { OnErr result (items.new.items ≡ items.old.items) }
    {
        let Tag {
            ns,
            name,
            attributes,
            ..
        } = tag;
        let attrs = attrs_of(self.alloc, attributes)?;
        self.join_text()?;
        if self.opens.is_inside() {
            self.opens.leaf(self.alloc, ns, name, attrs)?;
            self.end_token();
        } else {
            let element = Element {
                ns,
                name,
                attrs,
                children: Vec::new(self.alloc),
            };
            self.give(element, items)?;
        }
        Ok(())
    }

    // An element begins inside the one that was the innermost.
    #[tactic(auto, using(crate::proofs::Stacks::scopes_push))]
    fn deepen(&mut self, tag: Tag) -> Result<(), NoMemory>
        ensures { OnOk result (self.new ≡ deeper self.old (tag_view tag)) }
    {
        let Tag {
            prefix,
            ns,
            name,
            attributes,
            bindings,
            ..
        } = tag;
        let attrs = attrs_of(self.alloc, attributes)?;
        self.scopes.open(self.alloc, bindings)?;
        self.opens.begin(self.alloc, prefix, ns, name, attrs)?;
        Ok(())
    }

    // The tag of an element that isn't empty.
    #[tactic(auto, unfolding(crate::specs::TagSteps::level))]
    pub(crate) fn open_level(&mut self, tag: Tag) -> Result<(), NoMemory>
        ensures { OnOk result (self.new ≡ level self.old (tag_view tag)) }
    {
        self.join_text()?;
        self.deepen(tag)?;
        self.end_token();
        Ok(())
    }

    // The innermost open element, behind which no text is in hand, is whole.
    #[tactic(auto, using(crate::proofs::Stacks::scopes_less))]
    fn close_joined(&mut self, items: &mut Items) -> Result<(), NoMemory>
        ensures ok { OnOk result (turn self.new items.new.items ≡ closed_joined (turn self.old items.old.items)) }
        ensures err { OnErr result (items.new.items ≡ items.old.items) }
    {
        if !self.opens.is_inside() {
            return Ok(());
        }
        let whole = self.opens.end(self.alloc)?;
        self.scopes.close();
        match whole {
            Some(element) => self.give(element, items)?,
            None => self.end_token(),
        }
        Ok(())
    }

    // The innermost open element is whole.
    #[tactic(auto, unfolding(crate::specs::TagSteps::closed))]
    pub(crate) fn close(&mut self, items: &mut Items) -> Result<(), NoMemory>
        ensures ok { OnOk result (turn self.new items.new.items ≡ closed (turn self.old items.old.items)) }
        ensures err { OnErr result (items.new.items ≡ items.old.items) }
    {
        self.join_text()?;
        self.close_joined(items)?;
        Ok(())
    }
}
