//! What a client submits, and what it asks of its archive.
ghost use Rattle.std.specs.Prelude.{◌≡◌, IfOk};
ghost use Rattle.std.specs.Option.{option_copied};
ghost use Rattle.im_requests.specs.Messages.{chat_elem, page_elem, page_text, position_after, queryid_text, submission_nodes, submission_text};
ghost use Rattle.im_stanza.specs.Written.{unless_empty};
ghost use Rattle.xml_trees.specs.Views.{elem_view, nodes_view};
ghost use Rattle.xml_writer.specs.Canon.{canon};

use crate::spelling::{setting, spelled_element};
use base_io::{Bytes, NoMemory, Text};
use im_extensions::OriginId;
use im_mam::MamQuery;
use im_payload::{CARBONS, text_element};
use im_stanza::{CLIENT, MessageKind, StanzaAttrs, stanza_element};
use mam_pages::{PagePosition, PageQuery};
use std::alloc::Global;
use xml_trees::{Element, Node, Nodes};

/// A message that is submitted: its id, to whom it goes, its text, and whether no other client gets a copy of it.
#[derive(Clone, Copy, Debug, PartialEq, Eq)]
pub struct Submission<'a> {
    pub id: &'a str,
    pub to: &'a str,
    pub text: &'a str,
    pub private: bool,
}

/// A page that is asked for: the id of the query, the id behind which it begins, unless it is the first page, and how many
/// results it may have.
#[derive(Clone, Copy, Debug, PartialEq, Eq)]
pub struct PageRequest<'a> {
    pub queryid: &'a str,
    pub after: Option<&'a str>,
    pub max: u32,
}

/// The id of a query, by its number.
pub fn queryid(alloc: Global, number: u64) -> Result<Text, NoMemory>
    ensures { IfOk result (λ id. id ≡ queryid_text number) }
{
    let mut id = String::from_str(alloc, "q")?;
    id.push_str(&number.to_string(alloc)?)?;
    Ok(Text::from(id))
}

// What a submission contains.
fn submission_nodes(alloc: Global, given: &Submission<'_>) -> Result<Nodes, NoMemory>
    ensures { IfOk result (λ nodes. nodes_view nodes.items ≡ submission_nodes given.now.id.now given.now.text.now given.now.private) }
{
    let text = Text::from_str(alloc, given.text)?;
    let body = text_element(alloc, CLIENT, "body", text)?;
    let id = Text::from_str(alloc, given.id)?;
    let origin = OriginId { id }.tree(alloc)?;
    let mut nodes = Nodes::new(alloc);
    nodes.push(Node::Child(body))?;
    nodes.push(Node::Child(origin.into_element()))?;
    if given.private {
        let element = Element::from_strs(alloc, CARBONS, "private")?;
        nodes.push(Node::Child(element))?;
    }
    Ok(nodes)
}

// A text where it isn't empty.
fn unless_empty(text: &str) -> Option<&str>
    ensures { option_copied result ≡ unless_empty text.now }
{
    if text.is_empty() { None } else { Some(text) }
}

// A message of type `chat` with this payload.
fn chat<'a>(alloc: Global, id: &'a str, to: &'a str, payload: Nodes) -> Result<Bytes, NoMemory>
    ensures { IfOk result (λ b. b.items ≡ canon (chat_elem id.now to.now (nodes_view payload.items))) }
{
    let attrs = StanzaAttrs {
        from: None,
        id: unless_empty(id),
        to: Some(to),
        kind: Some(MessageKind::Chat.text()),
        lang: None,
    };
    let element = stanza_element(alloc, "message", &attrs, payload)?;
    spelled_element(alloc, element)
}

/// A message that is submitted: of type `chat`, with its text as its body and its id as its `origin-id` (XEP-0359, section
/// 3.2), and last `private` where it is (XEP-0280, section 6). The `id` is left out where it is empty.
pub fn submitted(alloc: Global, given: &Submission<'_>) -> Result<Bytes, NoMemory>
    ensures { IfOk result (λ b. b.items ≡ submission_text given.now.id.now given.now.to.now given.now.text.now given.now.private) }
{
    let nodes = submission_nodes(alloc, given)?;
    chat(alloc, given.id, given.to, nodes)
}

// Where a page begins.
fn position_after(alloc: Global, after: Option<&str>) -> Result<PagePosition, NoMemory>
    ensures { IfOk result (λ position. position ≡ position_after (option_copied after.entry)) }
{
    match after {
        None => Ok(PagePosition::First),
        Some(id) => Ok(PagePosition::After(Text::from_str(alloc, id)?)),
    }
}

// The query for a page.
#[tactic(auto, using(crate::proofs::PageQueries::is_page))]
fn page_element(alloc: Global, asked: &PageRequest<'_>) -> Result<Element, NoMemory>
    ensures { IfOk result (λ e. elem_view e ≡ page_elem asked.now.queryid.now (option_copied asked.now.after) asked.now.max) }
{
    let query = PageQuery {
        peer: None,
        start: None,
        end: None,
        position: position_after(alloc, asked.after)?,
        max: Some(asked.max),
    };
    let queryid = Text::from_str(alloc, asked.queryid)?;
    let tree = MamQuery { queryid, query }.tree(alloc)?;
    Ok(tree.into_element())
}

/// The request for a page, under its query's id (XEP-0313, section 4).
pub fn page(alloc: Global, asked: &PageRequest<'_>) -> Result<Bytes, NoMemory>
    ensures { IfOk result (λ b. b.items ≡ page_text asked.now.queryid.now (option_copied asked.now.after) asked.now.max) }
{
    let query = page_element(alloc, asked)?;
    setting(alloc, asked.queryid, query)
}
