//! A tree under construction, piece by piece.
ghost use Rattle.std.specs.Prelude.{◌≡◌, [], ◌∷◌, IfOk, OnOk};
ghost use Rattle.std.specs.Option.{option_map};
ghost use Rattle.xml_open.specs.Building.{reading_of};
ghost use Rattle.xml_open.specs.Nested.{first_of, rest_of};
ghost use Rattle.xml_open.specs.Pieces.{at_start, begun, ended, next_element, step, with_leaf, with_text, with_value};
ghost use Rattle.xml_trees.specs.Views.{elem_view};

use crate::pieces::Piece;
use base_io::{Copied, NoMemory, Text};
use std::alloc::Global;
use std::mem;
use xml_trees::{Attr, Attrs, Element};

/// What was read of pieces: the namespace that holds, the attribute in hand, the attributes of the element that begins next,
/// the innermost open element, and those around it. The innermost of these may stand by itself, the others in a list, the
/// innermost last: a child that contains a text alone takes no list for what is around it.
#[derive(Drop)]
pub(crate) struct Building {
    pub(crate) ns: Text,
    pub(crate) attr_ns: Text,
    pub(crate) attr_name: Text,
    pub(crate) attrs: Attrs,
    pub(crate) here: Option<Element>,
    pub(crate) around: Option<Element>,
    pub(crate) below: Vec<Element>,
}

impl Building {
    /// Before the first piece. It takes no memory.
    pub(crate) fn new(alloc: Global) -> Building
        ensures { reading_of result ≡ at_start }
    {
        Building {
            ns: Text::new(alloc),
            attr_ns: Text::new(alloc),
            attr_name: Text::new(alloc),
            attrs: Attrs::new(alloc),
            here: None,
            around: None,
            below: Vec::new(alloc),
        }
    }

    // The attribute in hand has this value.
    fn add_attr(&mut self, alloc: Global, value: Text) -> Result<(), NoMemory>
        ensures { OnOk result (reading_of self.new ≡ with_value (reading_of self.old) value) }
    {
        let ns = mem::replace(&mut self.attr_ns, Text::new(alloc));
        let name = mem::replace(&mut self.attr_name, Text::new(alloc));
        self.attrs.push(Attr { ns, name, value })?;
        Ok(())
    }

    // An element with this name, the namespace that holds, and the attributes that were read.
    fn take_element(&mut self, alloc: Global, name: Text) -> Result<Element, NoMemory>
        ensures made { IfOk result (λ e. elem_view e ≡ next_element (reading_of self.old) name) }
        ensures taken { OnOk result (reading_of self.new ≡ record (reading_of self.old) { attrs = [] }) }
    {
        let ns = self.ns.copied(alloc)?;
        let attrs = mem::replace(&mut self.attrs, Attrs::new(alloc));
        Ok(Element {
            ns,
            name,
            attrs,
            children: Vec::new(alloc),
        })
    }

    // One more element is around.
    #[tactic(auto, using(crate::proofs::Stacks::views_push))]
    fn cover(&mut self, outer: Element) -> Result<(), NoMemory>
        ensures { OnOk result (reading_of self.new ≡ record (reading_of self.old) { below = elem_view outer ∷ (reading_of self.old).below }) }
    {
        match self.around.take() {
            Some(further) => self.below.push(further)?,
            None => {}
        }
        self.around = Some(outer);
        Ok(())
    }

    // The innermost of the elements around is taken out of them.
    #[tactic(auto, using(crate::proofs::Stacks::views_push))]
    fn uncover(&mut self) -> Option<Element>
        ensures first { option_map elem_view result ≡ first_of (reading_of self.old).below }
        ensures rest { reading_of self.new ≡ record (reading_of self.old) { below = rest_of (reading_of self.old).below } }
    {
        match self.around.take() {
            Some(outer) => Some(outer),
            None => self.below.pop(),
        }
    }

    fn begin(&mut self, alloc: Global, name: Text) -> Result<(), NoMemory>
        ensures { OnOk result (reading_of self.new ≡ begun (reading_of self.old) name) }
    {
        let element = self.take_element(alloc, name)?;
        match self.here.take() {
            Some(outer) => self.cover(outer)?,
            None => {}
        }
        self.here = Some(element);
        Ok(())
    }

    fn add_leaf(&mut self, alloc: Global, name: Text) -> Result<(), NoMemory>
        ensures { OnOk result (reading_of self.new ≡ with_leaf (reading_of self.old) name) }
    {
        let element = self.take_element(alloc, name)?;
        match &mut self.here {
            Some(around) => around.push_child(element)?,
            None => {}
        }
        Ok(())
    }

    fn add_text(&mut self, content: Text) -> Result<(), NoMemory>
        ensures { OnOk result (reading_of self.new ≡ with_text (reading_of self.old) content) }
    {
        match &mut self.here {
            Some(around) => around.push_text(content)?,
            None => {}
        }
        Ok(())
    }

    fn end(&mut self) -> Result<(), NoMemory>
        ensures { OnOk result (reading_of self.new ≡ ended (reading_of self.old)) }
    {
        let Some(whole) = self.here.take() else {
            return Ok(());
        };
        self.here = self.uncover();
        match &mut self.here {
            Some(around) => around.push_child(whole)?,
            None => {}
        }
        Ok(())
    }

    /// The next piece.
    pub(crate) fn step(&mut self, alloc: Global, piece: Piece) -> Result<(), NoMemory>
        ensures { OnOk result (reading_of self.new ≡ step (reading_of self.old) piece) }
    {
        match piece {
            Piece::Namespace(ns) => self.ns = ns,
            Piece::AttributeName(name) => {
                self.attr_name = name;
                self.attr_ns = Text::new(alloc);
            }
            Piece::AttributeNamespace(ns) => self.attr_ns = ns,
            Piece::Value(value) => self.add_attr(alloc, value)?,
            Piece::Attributes(attrs) => self.attrs = attrs,
            Piece::Start(name) => self.begin(alloc, name)?,
            Piece::Leaf(name) => self.add_leaf(alloc, name)?,
            Piece::Text(content) => self.add_text(content)?,
            Piece::End => self.end()?,
        }
        Ok(())
    }
}
