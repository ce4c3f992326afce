ghost use Rattle.std.specs.Prelude.{◌≡◌, [], IfOk, OnOk};
ghost use Rattle.xml_trees.specs.Runs.{HasNoEmptyText, run_text};
ghost use Rattle.xml_trees.specs.Tidied.{inner_tidied, text_node, texts_joined, tidied};
ghost use Rattle.xml_trees.specs.Trees.{joined};
ghost use Rattle.xml_trees.specs.Views.{elem_view, node_view, nodes_view};

use crate::attributes::{Attrs, tidy_attrs};
use crate::elements::{Element, Node};
use crate::runs::Run;
use base_io::NoMemory;
use std::alloc::Global;
use std::mem;

// The run as a node behind the others, where it isn't empty.
fn put_run(kept: &mut Vec<Node>, run: Run) -> Result<(), NoMemory>
    requires { HasNoEmptyText run }
    ensures { OnOk result (nodes_view kept.new.items ≡ joined (nodes_view kept.old.items) (text_node (run_text run))) }
{
    match run.into_text() {
        Some(text) => kept.push(Node::Text(text))?,
        None => {}
    }
    Ok(())
}

// The nodes with adjoining texts joined and without empty ones, moved.
fn join_texts(alloc: Global, nodes: Vec<Node>) -> Result<Vec<Node>, NoMemory>
    ensures { IfOk result (λ kept. nodes_view kept.items ≡ texts_joined [] (nodes_view nodes.items)) }
{
    let mut kept = Vec::with_capacity(alloc, nodes.len())?;
    let mut run = Run::Nothing;
    for node in nodes {
        match node {
            Node::Text(text) => run = run.joined_with(alloc, text)?,
            Node::Child(element) => {
                put_run(&mut kept, run)?;
                run = Run::Nothing;
                kept.push(Node::Child(element))?;
            }
        }
    }
    put_run(&mut kept, run)?;
    Ok(kept)
}

/// Makes an element one that keeps the rule of a tree. A refusal leaves an element of which parts may be gone.
#[cycle(tidy)]
pub(crate) fn tidy(alloc: Global, element: &mut Element) -> Result<(), NoMemory>
    ensures { OnOk result (elem_view element.new ≡ tidied (elem_view element.old)) }
{
    for i in 0..element.children.len() {
        tidy_node(alloc, &mut element.children[i])?;
    }
    let attrs = mem::replace(&mut element.attrs, Attrs::new(alloc));
    element.attrs = tidy_attrs(attrs)?;
    let children = mem::replace(&mut element.children, Vec::new(alloc));
    element.children = join_texts(alloc, children)?;
    Ok(())
}

#[cycle(tidy)]
fn tidy_node(alloc: Global, node: &mut Node) -> Result<(), NoMemory>
    ensures { OnOk result (node_view node.new ≡ inner_tidied (node_view node.old)) }
{
    match node {
        Node::Child(element) => tidy(alloc, element)?,
        Node::Text(_) => {}
    }
    Ok(())
}
