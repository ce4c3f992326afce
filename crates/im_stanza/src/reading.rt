//! Trees are read as stanzas (RFC 6120, section 8).
ghost use Rattle.std.specs.Prelude.{◌≡◌, ◌≢◌, Ok, Err, [], true, false, unwrap_or, codes, IfOk, IfErr};
ghost use Rattle.std.specs.Option.{option_copied, option_map};
ghost use Rattle.xml_trees.specs.Trees.{nodes_of};
ghost use Rattle.xml_trees.specs.Views.{elem_view, nodes_view};
ghost use Rattle.im_stanza.specs.Heads.{iq_whole, message_with};
ghost use Rattle.im_stanza.specs.Kinds.{answers_iq, answers_message, iq_kind, message_kind, presence_kind};
ghost use Rattle.im_stanza.specs.Priority.{presence_priority, priority_of};
ghost use Rattle.im_stanza.specs.Readings.{Answers, AnswersAddress, address_of, addresses_of, iq_of, message_of, presence_of, stanza_of};

use crate::fault::StanzaFault;
use crate::kinds::{IqKind, MessageKind, PresenceKind};
use crate::names::{CLIENT, XML};
use crate::stanzas::{Iq, Message, Presence, Stanza};
use base_io::{NoMemory, Text};
use im_jid::{Jid, JidFault};
use std::alloc::Global;
use xml_trees::{Element, Node, Nodes, Tree, copy_nodes};

/// The stanza that a tree is. Each refusal but `NoMemory` comes exactly where the definition refuses so, in the order
/// `NotAStanza`, `BadFormat`, `BadFrom`, `BadTo`; `stanzas_are_read_as_stated` says what that means.
pub fn read_stanza(alloc: Global, tree: &Tree) -> Result<Stanza, StanzaFault>
    ensures ok { IfOk result (λ stanza. stanza_of tree.now ≡ Ok stanza) }
    ensures refused { IfErr result (λ fault. fault ≢ StanzaFault.NoMemory → stanza_of tree.now ≡ Err fault) }
{
    read_element(alloc, tree.element())
}

/// The stanza that an element is, which need not keep the rule of a tree. It is judged as by `read_stanza`.
pub fn read_stanza_element(alloc: Global, element: &Element) -> Result<Stanza, StanzaFault>
    ensures ok { IfOk result (λ stanza. stanza_of (elem_view element.now) ≡ Ok stanza) }
    ensures refused { IfErr result (λ fault. fault ≢ StanzaFault.NoMemory → stanza_of (elem_view element.now) ≡ Err fault) }
{
    read_element(alloc, element)
}

/// The stanza that a tree is, with what the tree contains moved into it as it stands: no node is touched. It is judged as
/// by `read_stanza`.
pub fn stanza_of(alloc: Global, tree: Tree) -> Result<Stanza, StanzaFault>
    ensures ok { IfOk result (λ stanza. stanza_of tree ≡ Ok stanza) }
    ensures refused { IfErr result (λ fault. fault ≢ StanzaFault.NoMemory → stanza_of tree ≡ Err fault) }
{
    take_element(alloc, tree.into_element())
}

fn take_element(alloc: Global, e: Element) -> Result<Stanza, StanzaFault>
    ensures { Answers result (stanza_of (elem_view e)) }
{
    if e.is(CLIENT, "message") {
        let head = message_head(alloc, &e)?;
        Ok(head.with_payload(Nodes::from(e.children)))
    } else if e.is(CLIENT, "presence") {
        read_presence(alloc, &e)
    } else if e.is(CLIENT, "iq") {
        let head = iq_head(alloc, &e)?;
        Ok(head.with_payload(Nodes::from(e.children)))
    } else {
        Err(StanzaFault::NotAStanza)
    }
}

fn read_element(alloc: Global, e: &Element) -> Result<Stanza, StanzaFault>
    ensures { Answers result (stanza_of (elem_view e.now)) }
{
    if e.is(CLIENT, "message") {
        let head = message_head(alloc, e)?;
        Ok(head.with_payload(copy_nodes(alloc, &e.children)?))
    } else if e.is(CLIENT, "presence") {
        read_presence(alloc, e)
    } else if e.is(CLIENT, "iq") {
        let head = iq_head(alloc, e)?;
        Ok(head.with_payload(copy_nodes(alloc, &e.children)?))
    } else {
        Err(StanzaFault::NotAStanza)
    }
}

// A message but for what it contains.
#[derive(Drop)]
struct MessageHead {
    from: Option<Jid>,
    to: Option<Jid>,
    id: Text,
    kind: MessageKind,
    lang: Text,
}

impl MessageHead {
    fn with_payload(self, payload: Nodes) -> Stanza
        ensures { result ≡ message_with self (nodes_view payload.items) }
    {
        Stanza::Message(Message {
            from: self.from,
            to: self.to,
            id: self.id,
            kind: self.kind,
            lang: self.lang,
            payload,
        })
    }
}

fn message_head(alloc: Global, e: &Element) -> Result<MessageHead, StanzaFault>
    ensures ok { IfOk result (λ head. message_of (elem_view e.now) ≡ Ok (message_with head (nodes_of (elem_view e.now)))) }
    ensures refused { IfErr result (λ fault. Answers (Err fault) (message_of (elem_view e.now))) }
{
    let kind = MessageKind::of(e.attr("", "type"));
    let (from, to) = addresses(alloc, e, true, kind.is_answered())?;
    Ok(MessageHead {
        from,
        to,
        id: text_of(alloc, e.attr("", "id"))?,
        kind,
        lang: text_of(alloc, e.attr(XML, "lang"))?,
    })
}

fn read_presence(alloc: Global, e: &Element) -> Result<Stanza, StanzaFault>
    ensures { Answers result (presence_of (elem_view e.now)) }
{
    let priority = priority(alloc, e)?;
    let (from, to) = addresses(alloc, e, false, false)?;
    Ok(Stanza::Presence(Presence {
        from,
        to,
        id: text_of(alloc, e.attr("", "id"))?,
        kind: PresenceKind::of(e.attr("", "type")),
        priority,
    }))
}

// An `iq` but for what it contains.
#[derive(Drop)]
struct IqHead {
    from: Option<Jid>,
    to: Option<Jid>,
    id: Text,
    kind: IqKind,
}

impl IqHead {
    fn with_payload(self, payload: Nodes) -> Stanza
        ensures { result ≡ iq_whole self (nodes_view payload.items) }
    {
        Stanza::Iq(Iq {
            from: self.from,
            to: self.to,
            id: self.id,
            kind: self.kind,
            payload,
        })
    }
}

fn iq_head(alloc: Global, e: &Element) -> Result<IqHead, StanzaFault>
    ensures ok { IfOk result (λ head. iq_of (elem_view e.now) ≡ Ok (iq_whole head (nodes_of (elem_view e.now)))) }
    ensures refused { IfErr result (λ fault. Answers (Err fault) (iq_of (elem_view e.now))) }
{
    let Some(id) = e.attr("", "id") else {
        return Err(StanzaFault::BadFormat);
    };
    let Some(kind) = IqKind::of(e.attr("", "type")) else {
        return Err(StanzaFault::BadFormat);
    };
    let (from, to) = addresses(alloc, e, false, kind.is_answered())?;
    Ok(IqHead {
        from,
        to,
        id: Text::from_str(alloc, id)?,
        kind,
    })
}

// The addresses of a stanza, `from` before `to`. The flags are what a bad `to` tells.
fn addresses(
    alloc: Global,
    e: &Element,
    message: bool,
    reply: bool,
) -> Result<(Option<Jid>, Option<Jid>), StanzaFault>
    ensures { Answers result (addresses_of message reply (elem_view e.now)) }
{
    let from = match address(alloc, e.attr("", "from")) {
        Ok(from) => from,
        Err(JidFault::NoMemory) => return Err(StanzaFault::NoMemory),
        Err(_) => return Err(StanzaFault::BadFrom),
    };
    match address(alloc, e.attr("", "to")) {
        Ok(to) => Ok((from, to)),
        Err(JidFault::NoMemory) => Err(StanzaFault::NoMemory),
        Err(_) => Err(StanzaFault::BadTo {
            message,
            reply,
            from,
            id: text_of(alloc, e.attr("", "id"))?,
            to: text_of(alloc, e.attr("", "to"))?,
        }),
    }
}

// The address in an attribute.
fn address(alloc: Global, value: Option<&str>) -> Result<Option<Jid>, JidFault>
    ensures { AnswersAddress result (address_of (option_copied value.entry)) }
{
    match value {
        None => Ok(None),
        Some(text) => Ok(Some(Jid::parse(alloc, text)?)),
    }
}

// The value of an attribute, empty where there is none.
fn text_of(alloc: Global, value: Option<&str>) -> Result<Text, NoMemory>
    ensures { IfOk result (λ t. t ≡ unwrap_or (option_copied value.entry) []) }
{
    match value {
        None => Ok(Text::new(alloc)),
        Some(text) => Text::from_str(alloc, text),
    }
}

// The priority of a presence.
fn priority(alloc: Global, e: &Element) -> Result<i8, NoMemory>
    ensures { IfOk result (λ n. n ≡ presence_priority (elem_view e.now)) }
{
    match e.child(CLIENT, "priority") {
        None => Ok(0),
        Some(child) => Ok(priority_of(child.text(alloc)?.as_str())),
    }
}

// The number that a priority's text spells, and 0 where it spells none.
fn priority_of(text: &str) -> i8
    ensures { result ≡ priority_of text.now }
{
    if text.starts_with('+') {
        return 0;
    }
    match text.parse::<i8>() {
        Ok(number) => number,
        Err(_) => 0,
    }
}
