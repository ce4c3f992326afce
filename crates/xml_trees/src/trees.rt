//! Trees: elements that own all that they hold.
//!
//! A `Tree` is seen as a tree of the definitions, a declared `Element` through a fold, since the declared type has
//! the room of its lists in it. `Copied` cannot be said of `Element` and `Node` for the same reason: they have `copy`
//! through their views.
//!
//! Going through a tree calls itself once a level, its drop included, so the stack grows with the depth. A framer's
//! depth is at most 1,000 (`MOST_DEPTH`): a thread's stack of 2 megabytes was enough for 3,500.
//!
//! `Tree::of` drops the element on want of memory, and takes none where the element keeps the rule already.
ghost use Rattle.std.specs.Prelude.{◌≡◌, IfOk, IsOk};
ghost use Rattle.xml_trees.specs.Tidied.{tidied};
ghost use Rattle.xml_trees.specs.Trees.{IsTree};
ghost use Rattle.xml_trees.specs.Views.{elem_view};

use crate::elements::Element;
use crate::rule::keeps_rule;
use crate::tidying::tidy;
use base_io::{Copied, NoMemory};
use std::alloc::Global;
use std::marker::Model;

/// An element that keeps the rule of a tree, at every level: its attributes ascend by namespace and then name,
/// compared by bytes, and no two have one namespace and name; no text is empty, and none stands beside another.
/// Contracts see it as a tree of the definitions.
#[derive(Drop)]
pub struct Tree {
    root: Element,
}

impl Model for Tree {
    ghost use Rattle.xml_trees.specs.Codes.{elem_coded};
    ghost use Rattle.xml_trees.specs.Trees.{Elem, IsTree};
    ghost use Rattle.xml_trees.specs.Views.{elem_view};

    ghost Value = { Elem };

    ghost coded = { elem_coded };

    ghost view = { λ t. elem_view t.root };

    ghost invariant = { λ t. IsTree (elem_view t.root) };
}

impl Tree {
    /// The tree of an element: its attributes in the order of their names, of several with one namespace and name the
    /// first, its adjoining texts joined and the empty ones dropped, and so in each element inside it. An element that
    /// keeps the rule stays as it is, and takes no memory.
    ///
    /// Names, values and texts are moved. A text is copied only where it is joined with another. The stack used grows
    /// with the depth of the element. On want of memory the element is dropped.
    pub fn of(alloc: Global, mut element: Element) -> Result<Tree, NoMemory>
        ensures tree { IfOk result (λ tree. tree ≡ tidied (elem_view element)) }
        ensures stays { IsTree (elem_view element) → IsOk result }
    {
        if keeps_rule(&element) {
            return Ok(Tree { root: element });
        }
        tidy(alloc, &mut element)?;
        Ok(Tree { root: element })
    }

    /// The tree as an element.
    pub fn element(&self) -> &Element
        ensures { elem_view result.now ≡ self.now }
    {
        &self.root
    }

    /// The element, taken out of the tree.
    pub fn into_element(self) -> Element
        ensures { elem_view result ≡ self }
    {
        self.root
    }

    /// An equal tree, in memory of its own.
    pub fn copy(&self, alloc: Global) -> Result<Tree, NoMemory>
        ensures { IfOk result (λ copy. copy ≡ self.now) }
    {
        let root = self.root.copy(alloc)?;
        Ok(Tree { root })
    }
}

impl Copied for Tree {
    fn copied(&self, alloc: Global) -> Result<Tree, NoMemory> {
        self.copy(alloc)
    }
}
