//! What an archive answers to a query: its entries one by one, and the end of a page (XEP-0313, sections 4.2 and 4.3).
ghost use Rattle.std.specs.Prelude.{◌≡◌, [], ◌∷◌, ◌++◌, codes, IfOk, OnOk};
ghost use Rattle.mam_archive.specs.Entries.{entry_with};
ghost use Rattle.mam_archive.specs.Ids.{id_of};
ghost use Rattle.im_forwarding.specs.Results.{archived_elem, archived_kind, archived_message, archived_result, asker_view, body_elem, end_elem, entry_nodes, entry_text, fin_text, origin_node};
ghost use Rattle.im_payload.specs.Names.{archive};
ghost use Rattle.im_replies.specs.Requests.{envelope_view};
ghost use Rattle.im_stanza.specs.Names.{client_ns, xml_ns};
ghost use Rattle.im_stanza.specs.Written.{attr_where, message_elem, unless_empty};
ghost use Rattle.xml_trees.specs.Attributes.{attribute};
ghost use Rattle.xml_trees.specs.Trees.{element, no_nodes};
ghost use Rattle.xml_trees.specs.Views.{elem_view};
ghost use Rattle.xml_writer.specs.Canon.{has_nothing, written, written_nodes};

use crate::writing::{
    close_forwarded, close_message, open_element, open_forwarded, open_message, unless_empty,
    write_element,
};
use base_io::{Bytes, NoMemory};
use im_mam::{fin_tree, fin_tree_without_index};
use im_payload::{ARCHIVE, FORWARDING, STANZA_IDS, push_unless_empty, push_value};
use im_replies::{Envelope, result_of};
use im_stanza::{CLIENT, MessageKind, StanzaAttrs, XML, stanza_element};
use mam_archive::{ArchivedMessage, Body, Entry, id_of_number};
use mam_pages::PageCut;
use std::alloc::Global;
use xml_tokens::append_text;
use xml_trees::{Attr, Element, Nodes, Tree};
use xml_writer::write_end;

/// Who asked an archive: the bare address of the account whose archive it is, the full address of the session, and the id
/// of its query, which is empty where it gave none (XEP-0313, section 4.1).
#[derive(Clone, Copy, Debug, PartialEq, Eq)]
pub struct Asker<'a> {
    pub by: &'a str,
    pub full: &'a str,
    pub queryid: &'a str,
}

// The type of an archived message.
fn archived_kind(normal: bool) -> MessageKind
    ensures { result ≡ archived_kind normal }
{
    if normal {
        MessageKind::Normal
    } else {
        MessageKind::Chat
    }
}

// An archived message without what it contains.
fn archived_head(alloc: Global, message: &ArchivedMessage) -> Result<Element, NoMemory>
    ensures { IfOk result (λ e. elem_view e ≡ message_elem (record (archived_message (entry_with 0 message.now)) { payload = no_nodes })) }
{
    let given = StanzaAttrs {
        from: unless_empty(message.from.as_str()),
        id: unless_empty(message.id.as_str()),
        to: unless_empty(message.to.as_str()),
        kind: Some(archived_kind(message.normal).text()),
        lang: None,
    };
    stanza_element(alloc, "message", &given, Nodes::new(alloc))
}

// A body without its text.
fn body_head(alloc: Global, lang: &str) -> Result<Element, NoMemory>
    ensures { IfOk result (λ e. elem_view e ≡ element client_ns (codes "body") (attr_where xml_ns (codes "lang") (unless_empty lang.now)) no_nodes) }
{
    let mut head = Element::from_strs(alloc, CLIENT, "body")?;
    if let Some(lang) = unless_empty(lang) {
        head.push_attr(Attr::from_strs(alloc, XML, "lang", lang)?)?;
    }
    Ok(head)
}

// Writes a body. Its text isn't copied.
fn write_body(alloc: Global, out: &mut Bytes, body: &Body) -> Result<(), NoMemory>
    ensures { OnOk result (out.new.items ≡ out.old.items ++ written client_ns (body_elem body.now)) }
{
    let head = body_head(alloc, body.lang.as_str())?;
    let text = body.text.as_str();
    if text.is_empty() {
        return write_element(alloc, out, CLIENT, head);
    }
    open_element(out, CLIENT, &head)?;
    append_text(out, text.as_bytes())?;
    write_end(out, CLIENT, "body")
}

// Writes bodies.
fn write_bodies(alloc: Global, out: &mut Bytes, bodies: &[Body]) -> Result<(), NoMemory>
    ensures { OnOk result (out.new.items ≡ out.old.items ++ written_nodes client_ns (entry_nodes bodies.now [])) }
{
    for body in bodies {
        write_body(alloc, out, body)?;
    }
    Ok(())
}

// Writes the sender's own id, where it gave one.
fn write_origin(alloc: Global, out: &mut Bytes, origin: &str) -> Result<(), NoMemory>
    ensures { OnOk result (out.new.items ≡ out.old.items ++ written_nodes client_ns (origin_node origin.now)) }
{
    if origin.is_empty() {
        return Ok(());
    }
    let mut element = Element::from_strs(alloc, STANZA_IDS, "origin-id")?;
    push_value(alloc, &mut element, "id", origin)?;
    write_element(alloc, out, CLIENT, element)
}

// Whether an archived message has nothing inside.
#[tactic(auto, using(crate::proofs::EntryParts::nothing_in_entry))]
fn has_nothing(bodies: &[Body], origin: &str) -> bool
    ensures { result ≡ has_nothing (entry_nodes bodies.now origin.now) }
{
    bodies.is_empty() && origin.is_empty()
}

// Writes an archived message, where a default namespace is in force.
fn write_archived(
    alloc: Global,
    out: &mut Bytes,
    default: &str,
    message: &ArchivedMessage,
) -> Result<(), NoMemory>
    ensures { OnOk result (out.new.items ≡ out.old.items ++ written default.now (archived_elem (entry_with 0 message.now))) }
{
    let head = archived_head(alloc, message)?;
    let bodies = message.bodies.as_slice();
    let origin = message.origin.as_str();
    if has_nothing(bodies, origin) {
        return write_element(alloc, out, default, head);
    }
    open_element(out, default, &head)?;
    write_bodies(alloc, out, bodies)?;
    write_origin(alloc, out, origin)?;
    close_message(out)
}

// A result without what it contains.
fn result_head(alloc: Global, queryid: &str, number: u64) -> Result<Element, NoMemory>
    ensures { IfOk result (λ e. elem_view e ≡ element archive (codes "result") (attribute [] (codes "id") (id_of number) ∷ attr_where [] (codes "queryid") (unless_empty queryid.now)) no_nodes) }
{
    let id = id_of_number(alloc, number)?;
    let mut head = Element::from_strs(alloc, ARCHIVE, "result")?;
    push_value(alloc, &mut head, "id", id.as_str())?;
    push_unless_empty(alloc, &mut head, "queryid", queryid)?;
    Ok(head)
}

// Writes a result in a message.
fn write_result(
    alloc: Global,
    out: &mut Bytes,
    queryid: &str,
    entry: &Entry,
) -> Result<(), NoMemory>
    ensures { OnOk result (out.new.items ≡ out.old.items ++ written client_ns (archived_result queryid.now entry.now)) }
{
    let message = entry.message();
    let head = result_head(alloc, queryid, entry.number())?;
    open_element(out, CLIENT, &head)?;
    open_forwarded(alloc, out, ARCHIVE, message.stamp)?;
    write_archived(alloc, out, FORWARDING, message)?;
    close_forwarded(out)?;
    write_end(out, ARCHIVE, "result")
}

/// One result of a query: a message without a type, from the account to the session that asked, around the entry's id,
/// its moment and the message as the archive kept it (XEP-0313, section 4.2). It is written straight from the entry; no
/// address is read again, and no body is copied. A moment past `LAST_MOMENT` is written as that.
pub fn archived(alloc: Global, asker: &Asker<'_>, entry: &Entry) -> Result<Bytes, NoMemory>
    ensures { IfOk result (λ b. b.items ≡ entry_text (asker_view asker.now) entry.now) }
{
    let mut out = Bytes::new(alloc);
    open_message(alloc, &mut out, asker.by, asker.full, None)?;
    write_result(alloc, &mut out, asker.queryid, entry)?;
    close_message(&mut out)?;
    Ok(out)
}

// The end of a page, with the place of its first entry unless the page was asked for backwards.
fn end_tree(alloc: Global, cut: &PageCut) -> Result<Tree, NoMemory>
    ensures { IfOk result (λ tree. tree ≡ end_elem cut.now) }
{
    let fin = cut.fin(alloc)?;
    if cut.backward {
        fin_tree_without_index(alloc, &fin)
    } else {
        fin_tree(alloc, &fin)
    }
}

/// The end of a page, which answers the query (XEP-0313, section 4.3; XEP-0059, section 2.6): whether nothing remains, the
/// ids of the page's first and last entry, the place of the first unless the page was asked for backwards, and how many
/// entries match.
pub fn page_end(alloc: Global, envelope: &Envelope<'_>, cut: &PageCut) -> Result<Bytes, NoMemory>
    ensures { IfOk result (λ b. b.items ≡ fin_text (envelope_view envelope.now) cut.now) }
{
    let tree = end_tree(alloc, cut)?;
    result_of(alloc, envelope, tree.into_element())
}
