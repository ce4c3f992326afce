//! Open elements: their names, and all that was read of them in pieces.
ghost use Rattle.std.specs.Prelude.{◌≡◌, [], None, Some, IfOk, OnErr, OnOk, true};
ghost use Rattle.std.specs.Option.{is_some, option_map};
ghost use Rattle.xml_names.specs.Names.{with_prefix};
ghost use Rattle.xml_open.specs.Open.{begun, closed, is_innermost, joined, left_open, none_open, open_count, outermost};
ghost use Rattle.xml_trees.specs.Trees.{child, element, no_nodes, text};
ghost use Rattle.xml_trees.specs.Views.{elem_view};

use crate::pieces::Pieces;
use base_io::{Copied, NoMemory, Text};
use std::alloc::Global;
use std::marker::Model;
use xml_trees::{Attrs, Element};

// A name as it is spelled, with its prefix where it has one.
fn spelled(alloc: Global, prefix: Option<Text>, local: &Text) -> Result<Text, NoMemory>
    ensures { IfOk result (λ t. t ≡ with_prefix prefix local.now) }
{
    let Some(prefix) = prefix else {
        return local.copied(alloc);
    };
    let mut name = String::from_str(alloc, prefix.as_str())?;
    name.push(':')?;
    name.push_str(local.as_str())?;
    Text::from(name).shared()
}

/// The elements of a stream whose end tags haven't come. Contracts see the innermost, and those around it, each with its name
/// as it is spelled and what there is of it.
///
/// What was read of them stands in pieces, one behind the other: a piece has 40 bytes, a node of a tree has 120. The tree is
/// made once the outermost element is whole.
#[derive(Drop)]
pub struct OpenElements {
    here: Option<Text>,
    below: Vec<Text>,
    pieces: Pieces,
}

impl Model for OpenElements {
    ghost use Rattle.xml_open.specs.Named.{AreNamed, opens_of};
    ghost use Rattle.xml_open.specs.Open.{Opens};
    ghost use Rattle.xml_open.specs.OpenCodes.{opens_coded};

    ghost Value = { Opens };

    ghost coded = { opens_coded };

    ghost view = { λ o. opens_of o.here o.below.items o.pieces.reading };

    ghost invariant = { λ o. AreNamed o.here o.below.items o.pieces.reading };
}

impl OpenElements {
    /// No open elements. It takes no memory.
    pub fn new(alloc: Global) -> OpenElements
        ensures { result ≡ none_open }
    {
        OpenElements {
            here: None,
            below: Vec::new(alloc),
            pieces: Pieces::new(alloc),
        }
    }

    /// Whether an element is open.
    pub fn is_inside(&self) -> bool
        ensures { result ≡ is_some self.now.here }
    {
        self.here.is_some()
    }

    /// How many elements are open.
    #[tactic(auto, using(crate::proofs::Names::count_is))]
    pub fn len(&self) -> usize
        ensures { result ≡ open_count self.now }
    {
        match &self.here {
            Some(_) => self.below.len() + 1,
            None => 0,
        }
    }

    /// Whether the innermost open element has this name, as it is spelled.
    pub fn is_innermost(&self, name: &str) -> bool
        ensures { result ≡ is_innermost self.now name.now }
    {
        match &self.here {
            Some(here) => here.as_str() == name,
            None => false,
        }
    }

    /// An element begins inside the innermost one, or is the first. A refusal leaves the open elements as they were.
    pub fn begin(
        &mut self,
        alloc: Global,
        prefix: Option<Text>,
        ns: Text,
        name: Text,
        attrs: Attrs,
    ) -> Result<(), NoMemory>
        ensures ok { OnOk result (self.new ≡ begun self.old (record { spelled = with_prefix prefix name; element = element ns name attrs.items no_nodes })) }
        ensures err { OnErr result (self.new ≡ self.old) }
    {
        let spelled = spelled(alloc, prefix, &name)?;
        self.below.reserve(1)?;
        self.pieces.begin(alloc, ns, name, attrs)?;
        match self.here.take() {
            Some(outer) => self.below.push_reserved(outer),
            None => {}
        }
        self.here = Some(spelled);
        Ok(())
    }

    /// An element that contains nothing stands in the innermost one. A refusal leaves the open elements as they were.
    pub fn leaf(
        &mut self,
        alloc: Global,
        ns: Text,
        name: Text,
        attrs: Attrs,
    ) -> Result<(), NoMemory>
        ensures ok { OnOk result (self.new ≡ joined self.old (child (element ns name attrs.items no_nodes) no_nodes)) }
        ensures err { OnErr result (self.new ≡ self.old) }
    {
        self.pieces.leaf(alloc, ns, name, attrs)?;
        Ok(())
    }

    /// A text stands in the innermost element. A refusal drops it, and leaves the open elements as they were.
    pub fn text(&mut self, content: Text) -> Result<(), NoMemory>
        ensures ok { OnOk result (self.new ≡ joined self.old (text content no_nodes)) }
        ensures err { OnErr result (self.new ≡ self.old) }
    {
        self.pieces.text(content)?;
        Ok(())
    }

    /// The innermost element is whole. It becomes a child of the one around it, or is given where there is none. A refusal
    /// leaves the open elements as they were where one is around it, and none open where there is none.
    #[tactic(auto, using(crate::proofs::Names::left_around))]
    pub fn end(&mut self, alloc: Global) -> Result<Option<Element>, NoMemory>
        ensures ok { IfOk result (λ e. (option_map elem_view e ≡ outermost self.old) × (self.new ≡ closed self.old)) }
        ensures err { OnErr result (self.new ≡ left_open self.old) }
    {
        if self.here.is_none() {
            return Ok(None);
        }
        if self.below.is_empty() {
            self.here = None;
            let built = self.pieces.build(alloc)?;
            return Ok(built.here);
        }
        self.pieces.end()?;
        self.here = self.below.pop();
        Ok(None)
    }

    /// Gives back the room of what is empty. It takes no memory.
    pub fn slim(&mut self, alloc: Global)
        ensures { self.new ≡ self.old }
    {
        self.pieces.slim(alloc);
        if self.below.is_empty() {
            self.below = Vec::new(alloc);
        }
    }
}
