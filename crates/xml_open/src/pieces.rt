//! The pieces of elements, one behind the other.
//!
//! Open elements stand in pieces, and no tree is made before the outermost one is whole (`xml_open`). A tag, a text
//! and an end tag are a few pieces of 40 bytes in one row, where a node of a tree has 120: so what an unfinished
//! element holds is bounded. The row grows by a half, past 1,024 pieces by an eighth. What pieces say is a fold whose
//! steps are those of the machine, and the tree is made by the same steps.
ghost use Rattle.std.specs.Prelude.{◌≡◌, ◌+◌, ◌-◌, ◌≤◌, [], IfOk, OnErr, OnOk, Some};
ghost use Rattle.std.specs.VecDeque.{deque_capacity, deque_len};
ghost use Rattle.xml_open.specs.Building.{reading_of};
ghost use Rattle.xml_open.specs.Nested.{covered};
ghost use Rattle.xml_open.specs.Pieces.{at_start, attr_pieces, attrs_pieces, ended, has_namespace, in_namespace, most_pieces, put_in, reading, step, with_attr, with_attrs, with_text};
ghost use Rattle.xml_trees.specs.Trees.{child, element, no_nodes};

use crate::building::Building;
use base_io::{Copied, NoMemory, Text};
use std::alloc::Global;
use std::collections::VecDeque;
use std::marker::Model;
use std::mem;
use xml_trees::{Attr, Attrs};

/// Room for so many pieces is kept from one element to the next. Most elements of a chat have fewer.
const KEPT_PIECES: usize = 64;

/// Room for so many pieces is taken at first.
const FIRST_PIECES: usize = 16;

/// Behind fewer pieces than these the attributes of a tag are moved in their list, which takes more memory than pieces do. Most
/// elements of a chat have fewer.
const LISTED: usize = 256;

/// Behind more pieces up to so many attributes of a tag are pieces of their own.
const FEW: usize = 4;

/// Few attributes take so many pieces at most: three each, one of them for a namespace.
const FEW_PIECES: usize = 12;

/// Up to so many pieces room grows by a half of itself, and by an eighth past it.
const HALF_MORE: usize = 1_024;

/// What stands in an element: a part of a tag, a text, or an end tag. A namespace holds until another one is told, and
/// attributes stand before the name of their element.
#[derive(Drop)]
pub(crate) enum Piece {
    /// The namespace of the elements that begin behind it.
    Namespace(Text),
    /// The name of an attribute, which has no namespace unless one follows.
    AttributeName(Text),
    /// The namespace of the attribute whose name stands before it.
    AttributeNamespace(Text),
    /// The value of an attribute.
    Value(Text),
    /// All attributes of the element that begins next.
    Attributes(Attrs),
    /// The name of an element that begins.
    Start(Text),
    /// The name of an element that contains nothing.
    Leaf(Text),
    /// A text.
    Text(Text),
    /// The innermost element ends.
    End,
}

/// Pieces, and the namespace that holds behind them. Contracts see what they say, and the room that is left.
#[derive(Drop)]
pub(crate) struct Pieces {
    items: VecDeque<Piece>,
    ns: Text,
}

impl Model for Pieces {
    ghost use Rattle.std.specs.Prelude.{◌≡◌, ◌-◌};
    ghost use Rattle.std.specs.VecDeque.{deque_capacity, deque_len};
    ghost use Rattle.xml_open.specs.OpenCodes.{pieces_coded};
    ghost use Rattle.xml_open.specs.Pieces.{PiecesView, reading};

    ghost Value = { PiecesView };

    ghost coded = { pieces_coded };

    ghost view = { λ p. record { reading = reading p.items.items; spare = deque_capacity p.items - deque_len p.items } };

    ghost invariant = { λ p. (reading p.items.items).ns ≡ p.ns };
}

// How many pieces there is to be room for where so many are wanted and there was room for so many. Room grows by a part of
// itself and doesn't double: what is unfinished for long shall take little more than its pieces.
fn room_for(there: usize, wanted: usize) -> usize
    ensures { wanted ≤ result }
{
    let more = if there <= HALF_MORE {
        there / 2
    } else {
        there / 8
    };
    wanted.max(there.saturating_add(more)).max(FIRST_PIECES)
}

// Adds a piece. There is room.
#[tactic(auto, using(crate::proofs::Said::said_more))]
fn push(items: &mut VecDeque<Piece>, piece: Piece)
    requires { deque_len items.old + 1 ≤ deque_capacity items.old }
    ensures said { reading items.new.items ≡ step (reading items.old.items) piece }
    ensures len { deque_len items.new ≡ deque_len items.old + 1 }
    ensures capacity { deque_capacity items.new ≡ deque_capacity items.old }
{
    items.push_back_reserved(piece);
}

// Whether an attribute has a namespace.
fn has_namespace(attr: &Attr) -> bool
    ensures { result ≡ has_namespace attr.now }
{
    !attr.ns.as_str().is_empty()
}

// Adds an attribute of the element that begins next. There is room.
fn push_attr(items: &mut VecDeque<Piece>, attr: Attr)
    requires { deque_len items.old + attr_pieces attr ≤ deque_capacity items.old }
    ensures said { reading items.new.items ≡ with_attr (reading items.old.items) attr }
    ensures len { deque_len items.new ≡ deque_len items.old + attr_pieces attr }
    ensures capacity { deque_capacity items.new ≡ deque_capacity items.old }
{
    let qualified = has_namespace(&attr);
    let Attr { ns, name, value } = attr;
    push(items, Piece::AttributeName(name));
    if qualified {
        push(items, Piece::AttributeNamespace(ns));
    }
    push(items, Piece::Value(value));
}

// Adds the attributes of the element that begins next, each by itself. There is room.
fn push_each(items: &mut VecDeque<Piece>, attrs: Attrs)
    requires { deque_len items.old + attrs_pieces attrs.items ≤ deque_capacity items.old }
    ensures said { reading items.new.items ≡ with_attrs (reading items.old.items) attrs.items }
    ensures len { deque_len items.new ≡ deque_len items.old + attrs_pieces attrs.items }
    ensures capacity { deque_capacity items.new ≡ deque_capacity items.old }
{
    for attr in attrs.into_items() {
        push_attr(items, attr);
    }
}

// How many pieces attributes take at most.
fn most_pieces(attrs: &Attrs) -> usize
    ensures { result ≡ most_pieces attrs.now.items }
{
    if attrs.as_slice().is_empty() {
        0
    } else {
        FEW_PIECES
    }
}

// Adds the attributes of the element that begins next. There is room.
#[tactic(auto, using(crate::proofs::Said::attrs_after, crate::proofs::Said::attrs_here, crate::proofs::Said::attrs_below, crate::proofs::Said::attrs_ns, crate::proofs::Said::pieces_bound))]
fn push_attrs(items: &mut VecDeque<Piece>, attrs: Attrs)
    requires room { deque_len items.old + most_pieces attrs.items ≤ deque_capacity items.old }
    requires none { (reading items.old.items).attrs ≡ [] }
    ensures attrs { (reading items.new.items).attrs ≡ attrs.items }
    ensures here { (reading items.new.items).here ≡ (reading items.old.items).here }
    ensures below { (reading items.new.items).below ≡ (reading items.old.items).below }
    ensures ns { (reading items.new.items).ns ≡ (reading items.old.items).ns }
    ensures len { deque_len items.new ≤ deque_len items.old + most_pieces attrs.items }
    ensures capacity { deque_capacity items.new ≡ deque_capacity items.old }
{
    let n = attrs.as_slice().len();
    if n > FEW || n > 0 && items.len() < LISTED {
        push(items, Piece::Attributes(attrs));
    } else {
        push_each(items, attrs);
    }
}

impl Pieces {
    /// No pieces. It takes no memory.
    pub(crate) fn new(alloc: Global) -> Pieces
        ensures { result.reading ≡ at_start }
    {
        Pieces {
            items: VecDeque::new(alloc),
            ns: Text::new(alloc),
        }
    }

    // How many pieces more there is room for.
    fn room(&self) -> usize
        ensures { result ≡ self.now.spare }
    {
        self.items.capacity() - self.items.len()
    }

    // Makes room for so many pieces more.
    fn reserve(&mut self, n: usize) -> Result<(), NoMemory>
        ensures ok { OnOk result (n ≤ self.new.spare) }
        ensures reading { self.new.reading ≡ self.old.reading }
    {
        if n > self.room() {
            let len = self.items.len();
            let wanted = room_for(self.items.capacity(), len.saturating_add(n));
            self.items.reserve_exact(wanted - len)?;
        }
        Ok(())
    }

    // A namespace holds from here on. A refusal leaves what is said as it was.
    fn hold(&mut self, alloc: Global, ns: Text) -> Result<(), NoMemory>
        requires { 1 ≤ self.old.spare }
        ensures ok { OnOk result (self.new.reading ≡ in_namespace self.old.reading ns) }
        ensures err { OnErr result (self.new.reading ≡ self.old.reading) }
        ensures spare { self.old.spare ≤ self.new.spare + 1 }
    {
        if self.ns.as_str() == ns.as_str() {
            return Ok(());
        }
        let copy = ns.copied(alloc)?;
        push(&mut self.items, Piece::Namespace(ns));
        self.ns = copy;
        Ok(())
    }

    // Makes room for a tag with these attributes, in whose namespace pieces are from here on.
    fn prepare(&mut self, alloc: Global, ns: Text, attrs: &Attrs) -> Result<(), NoMemory>
        ensures room { OnOk result (most_pieces attrs.now.items + 1 ≤ self.new.spare) }
        ensures ok { OnOk result (self.new.reading ≡ in_namespace self.old.reading ns) }
        ensures err { OnErr result (self.new.reading ≡ self.old.reading) }
    {
        self.reserve(most_pieces(attrs) + 2)?;
        self.hold(alloc, ns)?;
        Ok(())
    }

    /// An element begins inside the innermost one. A refusal leaves the open elements as they were.
    pub(crate) fn begin(
        &mut self,
        alloc: Global,
        ns: Text,
        name: Text,
        attrs: Attrs,
    ) -> Result<(), NoMemory>
        requires { self.old.reading.attrs ≡ [] }
        ensures here { OnOk result (self.new.reading.here ≡ Some (element ns name attrs.items no_nodes)) }
        ensures below { OnOk result (self.new.reading.below ≡ covered self.old.reading.here self.old.reading.below) }
        ensures attrs { self.new.reading.attrs ≡ [] }
        ensures err { OnErr result ((self.new.reading.here ≡ self.old.reading.here) × (self.new.reading.below ≡ self.old.reading.below)) }
    {
        self.prepare(alloc, ns, &attrs)?;
        push_attrs(&mut self.items, attrs);
        push(&mut self.items, Piece::Start(name));
        Ok(())
    }

    /// An element that contains nothing stands in the innermost one. A refusal leaves the open elements as they were.
    pub(crate) fn leaf(
        &mut self,
        alloc: Global,
        ns: Text,
        name: Text,
        attrs: Attrs,
    ) -> Result<(), NoMemory>
        requires { self.old.reading.attrs ≡ [] }
        ensures here { OnOk result (self.new.reading.here ≡ put_in self.old.reading.here (child (element ns name attrs.items no_nodes) no_nodes)) }
        ensures below { self.new.reading.below ≡ self.old.reading.below }
        ensures attrs { self.new.reading.attrs ≡ [] }
        ensures err { OnErr result (self.new.reading.here ≡ self.old.reading.here) }
    {
        self.prepare(alloc, ns, &attrs)?;
        push_attrs(&mut self.items, attrs);
        push(&mut self.items, Piece::Leaf(name));
        Ok(())
    }

    /// A text. A refusal drops it, and leaves what is said as it was.
    pub(crate) fn text(&mut self, content: Text) -> Result<(), NoMemory>
        ensures ok { OnOk result (self.new.reading ≡ with_text self.old.reading content) }
        ensures err { OnErr result (self.new.reading ≡ self.old.reading) }
    {
        self.reserve(1)?;
        push(&mut self.items, Piece::Text(content));
        Ok(())
    }

    /// The innermost element ends. A refusal leaves what is said as it was.
    pub(crate) fn end(&mut self) -> Result<(), NoMemory>
        ensures ok { OnOk result (self.new.reading ≡ ended self.old.reading) }
        ensures err { OnErr result (self.new.reading ≡ self.old.reading) }
    {
        self.reserve(1)?;
        push(&mut self.items, Piece::End);
        Ok(())
    }

    /// Takes all pieces out, and makes of them what they say. Room for few stays.
    pub(crate) fn build(&mut self, alloc: Global) -> Result<Building, NoMemory>
        ensures built { IfOk result (λ b. reading_of b ≡ self.old.reading) }
        ensures none { self.new.reading ≡ at_start }
    {
        let mut items = mem::replace(&mut self.items, VecDeque::new(alloc));
        self.ns = Text::new(alloc);
        let built = build(alloc, &mut items)?;
        if items.capacity() <= KEPT_PIECES {
            self.items = items;
        }
        Ok(built)
    }

    /// Gives back the room of what is empty. It takes no memory.
    pub(crate) fn slim(&mut self, alloc: Global)
        ensures { self.new.reading ≡ self.old.reading }
    {
        if self.items.is_empty() {
            self.items = VecDeque::new(alloc);
            self.ns = Text::new(alloc);
        }
    }
}

// Takes each piece out, and makes of them what they say.
fn build(alloc: Global, items: &mut VecDeque<Piece>) -> Result<Building, NoMemory>
    ensures built { IfOk result (λ b. reading_of b ≡ reading items.old.items) }
    ensures none { OnOk result (items.new.items ≡ []) }
{
    let mut building = Building::new(alloc);
    while let Some(piece) = items.pop_front() {
        building.step(alloc, piece)?;
    }
    Ok(building)
}
