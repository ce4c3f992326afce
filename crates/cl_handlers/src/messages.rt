//! Messages: results of a page (XEP-0313), live messages and copies of them (XEP-0280, XEP-0359), and bounces.
ghost use Rattle.std.specs.Prelude.{◌≡◌, None, find, IfOk, OnErr, OnOk};
ghost use Rattle.std.specs.Option.{option_copied, option_map};
ghost use Rattle.cl_handlers.specs.MessageRows;
ghost use Rattle.cl_handlers.specs.MessageRows.{bounce_of, held_in, id_given, is_bounce, live_in, live_of, logged, message_row, other_message, own_id, result_row, result_to};
ghost use Rattle.cl_handlers.specs.Views.{client_of, client_step_of};
ghost use Rattle.im_extensions.specs.Carbons.{is_carbon};
ghost use Rattle.im_extensions.specs.Readings.{stanza_id_read};
ghost use Rattle.mam_log.specs.Views.{page_for};
ghost use Rattle.im_mam.specs.Readings.{result_read};
ghost use Rattle.xml_trees.specs.Readers.{elements_of};
ghost use Rattle.xml_trees.specs.Views.{elem_view, nodes_view};

use crate::client_state::ClientState;
use crate::events::{CatchUpFault, ClientOut, Event};
use base_io::{NoMemory, Text};
use im_extensions::{Carbon, StanzaId};
use im_jid::Jid;
use im_mam::MamResult;
use im_messages::message_entry;
use im_payload::{ARCHIVE, CARBONS, ExtFault};
use im_stanza::{Message, MessageKind, StanzaErrorFault, stanza_error_in};
use mam_archive::number_of;
use mam_log::{LogEntry, ResultFault};
use std::alloc::Global;
use xml_trees::{Element, Node, find_child};

// What the log keeps of a message, by the id that the archive gave it.
fn logged(alloc: Global, id: Text, stamp: u64, message: &Message) -> Result<LogEntry, NoMemory>
    ensures { IfOk result (λ entry. entry ≡ logged id stamp message.now) }
{
    let number = number_of(id.as_str()).unwrap_or(0);
    let entry = message_entry(alloc, number, stamp, message)?;
    Ok(LogEntry { id, entry })
}

// The id that the account itself gave, where an element is a `stanza-id` of it.
fn id_given(alloc: Global, bare: &str, element: &Element) -> Result<Option<Text>, NoMemory>
    ensures { IfOk result (λ id. id ≡ id_given bare.now (stanza_id_read (elem_view element.now)) None) }
{
    match StanzaId::read_element(alloc, element) {
        Ok(given) => Ok(if given.by.as_str() == bare {
            Some(given.id)
        } else {
            None
        }),
        Err(ExtFault::NoMemory) => Err(NoMemory),
        Err(ExtFault::NotThis | ExtFault::Bad(_)) => Ok(None),
    }
}

// The first such id among nodes.
#[tactic(auto, using(crate::proofs::OwnIds::own_id_here, crate::proofs::OwnIds::own_id_after))]
fn own_id(alloc: Global, bare: &str, nodes: &[Node]) -> Result<Option<Text>, NoMemory>
    ensures { IfOk result (λ id. id ≡ own_id bare.now (elements_of (nodes_view nodes.now))) }
{
    for node in nodes {
        let Node::Child(element) = node else {
            continue;
        };
        if let Some(id) = id_given(alloc, bare, element)? {
            return Ok(Some(id));
        }
    }
    Ok(None)
}

// Whether an element is a copy of a message.
fn is_carbon(element: &Element) -> bool
    ensures { result ≡ is_carbon (elem_view element.now) }
{
    element.is(CARBONS, "sent") || element.is(CARBONS, "received")
}

// The first copy among nodes.
fn find_carbon(nodes: &[Node]) -> Option<&Element>
    ensures { option_map elem_view (option_copied result) ≡ find is_carbon (elements_of (nodes_view nodes.now)) }
{
    for node in nodes {
        if let Node::Child(element) = node
            && is_carbon(element)
        {
            return Some(element);
        }
    }
    None
}

// Whether a message tells of an error.
fn is_error(kind: MessageKind) -> bool
    ensures { result ≡ MessageRows.is_error kind }
{
    match kind {
        MessageKind::Error => true,
        _ => false,
    }
}

impl ClientState {
    // Whether an address is the account's own bare one.
    fn is_own(&self, from: &Option<Jid>) -> bool
        ensures { result ≡ MessageRows.is_own self.now.account.bare from.now }
    {
        match from {
            Some(from) => from.text() == self.account.bare.as_str(),
            None => false,
        }
    }

    /// Whether an address is the account's own bare one, or there is none: whose stanzas speak for the account (RFC 6120,
    /// section 8.1.2.1; XEP-0313, section 4.2).
    pub fn is_own_or_absent(&self, from: &Option<Jid>) -> bool
        ensures { result ≡ MessageRows.is_own_or_absent self.now.account.bare from.now }
    {
        match from {
            Some(from) => from.text() == self.account.bare.as_str(),
            None => true,
        }
    }

    // A result of a query.
    #[tactic(auto, using(crate::proofs::Results::taken, crate::proofs::Results::dropped, crate::proofs::Results::overrun))]
    fn take_result(
        &mut self,
        queryid: &str,
        entry: LogEntry,
        out: &mut ClientOut,
    ) -> Result<(), NoMemory>
        ensures ok { OnOk result (client_step_of self.new out.new ≡ result_to (client_step_of self.old out.old) (page_for queryid.now self.old.log.page) entry) }
        ensures err { OnErr result (client_step_of self.new out.new ≡ client_step_of self.old out.old) }
    {
        out.events.reserve(1)?;
        match self.log.result(queryid, entry) {
            Ok(()) => Ok(()),
            Err(ResultFault::Stranger) => Ok(()),
            Err(ResultFault::NoMemory) => Err(NoMemory),
            Err(ResultFault::Overrun) => {
                self.log.break_off();
                out.events
                    .push_reserved(Event::CatchUpRefused(CatchUpFault::Overrun));
                Ok(())
            }
        }
    }

    // An element that is to be a result of a query.
    fn result(
        &mut self,
        alloc: Global,
        element: &Element,
        out: &mut ClientOut,
    ) -> Result<(), NoMemory>
        ensures ok { OnOk result (client_step_of self.new out.new ≡ result_row (client_step_of self.old out.old) (result_read (elem_view element.now))) }
        ensures err { OnErr result (client_step_of self.new out.new ≡ client_step_of self.old out.old) }
    {
        match MamResult::read_element(alloc, element) {
            Ok(
                MamResult {
                    queryid,
                    id,
                    forwarded,
                },
            ) => {
                let entry = logged(alloc, id, forwarded.stamp, &forwarded.message)?;
                self.take_result(queryid.as_str(), entry, out)
            }
            Err(ExtFault::NoMemory) => Err(NoMemory),
            Err(ExtFault::NotThis | ExtFault::Bad(_)) => Ok(()),
        }
    }

    // Holds a message, where the account itself gave it an id.
    fn hold(&mut self, alloc: Global, stamp: u64, message: &Message) -> Result<(), NoMemory>
        ensures ok { OnOk result (client_of self.new ≡ held_in (client_of self.old) (record { stamp = stamp; message = message.now })) }
        ensures err { OnErr result (client_of self.new ≡ client_of self.old) }
    {
        let bare = self.account.bare.as_str();
        let Some(id) = own_id(alloc, bare, message.payload.as_slice())? else {
            return Ok(());
        };
        let live = logged(alloc, id, stamp, message)?;
        self.log.hold(alloc, live)?;
        Ok(())
    }

    // The copy in a message of the account's own bare address. No other message's is believed.
    fn carbon(&self, alloc: Global, message: &Message) -> Result<Option<Carbon>, NoMemory>
        ensures { IfOk result (λ copy. live_of message.now copy ≡ live_in self.now.account.bare message.now) }
    {
        if !self.is_own(&message.from) {
            return Ok(None);
        }
        let Some(element) = find_carbon(message.payload.as_slice()) else {
            return Ok(None);
        };
        match Carbon::read_element(alloc, element) {
            Ok(carbon) => Ok(Some(carbon)),
            Err(ExtFault::NoMemory) => Err(NoMemory),
            Err(ExtFault::NotThis | ExtFault::Bad(_)) => Ok(None),
        }
    }

    // Holds what came live: the message that is copied, or the message itself.
    fn hold_live(&mut self, alloc: Global, message: &Message) -> Result<(), NoMemory>
        ensures ok { OnOk result (client_of self.new ≡ held_in (client_of self.old) (live_in self.old.account.bare message.now)) }
        ensures err { OnErr result (client_of self.new ≡ client_of self.old) }
    {
        match self.carbon(alloc, message)? {
            Some(carbon) => self.hold(alloc, carbon.forwarded.stamp, &carbon.forwarded.message),
            None => self.hold(alloc, 0, message),
        }
    }

    // Whether a message is a submission that came back.
    fn is_bounce(&self, message: &Message) -> bool
        ensures { result ≡ is_bounce (client_of self.now) message.now }
    {
        is_error(message.kind)
            && self
                .said
                .is_submission(self.account.resource.as_str(), message.id.as_str())
    }

    // What is told of a submission that came back.
    fn bounced(&self, alloc: Global, message: &Message) -> Result<Option<Event>, NoMemory>
        ensures { IfOk result (λ event. event ≡ bounce_of (client_of self.now) message.now) }
    {
        if !self.is_bounce(message) {
            return Ok(None);
        }
        match stanza_error_in(alloc, message.payload.as_slice()) {
            Ok(error) => Ok(Some(Event::Bounced {
                origin: Text::from_str(alloc, message.id.as_str())?,
                condition: error.condition,
            })),
            Err(StanzaErrorFault::NoMemory) => Err(NoMemory),
            Err(StanzaErrorFault::NoError) => Ok(None),
        }
    }

    // A message that is no result of a query.
    fn other_message(
        &mut self,
        alloc: Global,
        message: &Message,
        out: &mut ClientOut,
    ) -> Result<(), NoMemory>
        ensures ok { OnOk result (client_step_of self.new out.new ≡ other_message (client_step_of self.old out.old) message.now) }
        ensures err { OnErr result (client_step_of self.new out.new ≡ client_step_of self.old out.old) }
    {
        let bounced = self.bounced(alloc, message)?;
        out.events.reserve(1)?;
        self.hold_live(alloc, message)?;
        if let Some(event) = bounced {
            out.events.push_reserved(event);
        }
        Ok(())
    }

    /// What a message does, but for its count: a result of a page (XEP-0313, section 4.2), one that is held for the log
    /// (XEP-0280, XEP-0359), or a submission that came back (RFC 6120, section 8.3.1). Where memory runs out nothing changes.
    pub fn message(
        &mut self,
        alloc: Global,
        message: &Message,
        out: &mut ClientOut,
    ) -> Result<(), NoMemory>
        ensures ok { OnOk result (client_step_of self.new out.new ≡ message_row (client_step_of self.old out.old) message.now) }
        ensures err { OnErr result (client_step_of self.new out.new ≡ client_step_of self.old out.old) }
    {
        let Some(result) = find_child(message.payload.as_slice(), ARCHIVE, "result") else {
            return self.other_message(alloc, message, out);
        };
        if self.is_own_or_absent(&message.from) {
            return self.result(alloc, result, out);
        }
        self.other_message(alloc, message, out)
    }
}
