//! The three stanzas (RFC 6120, section 8).
use crate::kinds::{IqKind, MessageKind, PresenceKind};
use base_io::Text;
use im_jid::Jid;
use std::marker::Model;
use xml_trees::Nodes;

/// A message (RFC 6120, section 8.2.1, RFC 6121, section 5.2). An absent `id` or `xml:lang` is empty; `payload` is all
/// that the element contains.
#[derive(Drop)]
pub struct Message {
    pub from: Option<Jid>,
    pub to: Option<Jid>,
    pub id: Text,
    pub kind: MessageKind,
    pub lang: Text,
    pub payload: Nodes,
}

/// A presence (RFC 6120, section 8.2.2, RFC 6121, section 4.7), less what this project does not use of it. An absent `id`
/// is empty.
#[derive(Drop)]
pub struct Presence {
    pub from: Option<Jid>,
    pub to: Option<Jid>,
    pub id: Text,
    pub kind: PresenceKind,
    pub priority: i8,
}

/// A request or its answer (RFC 6120, section 8.2.3). `payload` is all that the element contains.
#[derive(Drop)]
pub struct Iq {
    pub from: Option<Jid>,
    pub to: Option<Jid>,
    pub id: Text,
    pub kind: IqKind,
    pub payload: Nodes,
}

impl Model for Message {
    ghost use Rattle.xml_trees.specs.Views.{nodes_view};
    ghost use Rattle.im_stanza.specs.Views.{MessageView, message_coded};

    ghost Value = { MessageView };

    ghost coded = { message_coded };

    ghost view = { λ m. record { from = m.from; to = m.to; id = m.id; kind = m.kind; lang = m.lang; payload = nodes_view m.payload.items } };
}

impl Model for Iq {
    ghost use Rattle.xml_trees.specs.Views.{nodes_view};
    ghost use Rattle.im_stanza.specs.Views.{IqView, iq_coded};

    ghost Value = { IqView };

    ghost coded = { iq_coded };

    ghost view = { λ q. record { from = q.from; to = q.to; id = q.id; kind = q.kind; payload = nodes_view q.payload.items } };
}

/// A stanza (RFC 6120, section 8).
#[derive(Drop)]
pub enum Stanza {
    Message(Message),
    Presence(Presence),
    Iq(Iq),
}
