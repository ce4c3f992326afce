//! The states from the second features to the session (RFC 6120, section 7; XEP-0198, sections 3 and 5).
//!
//! A resumption makes what goes out anew: what was put so far in the call, and the stanzas that wait. Then it takes
//! the place of what was put, so that a refusal leaves that as it was.
ghost use Rattle.std.specs.Prelude.{◌≡◌, ◌≤◌, ◌++◌, None, codes, length, IfOk, IsSome, OnErr, OnOk};
ghost use Rattle.std.specs.List.{concat};
ghost use Rattle.std.specs.Option.{option_copied, option_map};
ghost use Rattle.cl_handlers.specs.Acks.{resent_in, too_high_in};
ghost use Rattle.cl_handlers.specs.SessionRows;
ghost use Rattle.cl_handlers.specs.SessionRows.{begins, binding_row, binds, can_resume, enabling_row, failed_row, features2_row, is_bind_result, is_stanza, queue_in, resent, resumed_in, resumes_or_binds, resuming_row, tells_bound};
ghost use Rattle.cl_handlers.specs.Speech.{in_bytes};
ghost use Rattle.cl_handlers.specs.ClientSteps.{left};
ghost use Rattle.cl_handlers.specs.Views.{client_of, client_step_of};
ghost use Rattle.im_extensions.specs.StreamManagement.{is_management};
ghost use Rattle.im_replies.specs.Management.{request_text};
ghost use Rattle.im_stanza.specs.Readings.{stanza_of};
ghost use Rattle.xml_trees.specs.Views.{elem_view};

use crate::answers::make_room;
use crate::client_state::ClientState;
use crate::events::{ClientOut, Event, PeerFault};
use crate::phase::Phase;
use base_io::{Bytes, NoMemory, Text};
use im_extensions::{BindResult, Enabled, Resumed};
use im_login::Features;
use im_payload::{BINDING, ExtFault, MANAGEMENT};
use im_replies::request;
use im_requests::{available, bind, carbons, enable, resume};
use im_stanza::{CLIENT, Iq, IqKind, Stanza, StanzaFault, read_stanza};
use sm_outbox::Session;
use std::alloc::Global;
use xml_trees::{Element, Tree, find_child};

// Whether an answer is a result.
fn is_result(kind: IqKind) -> bool
    ensures { result ≡ SessionRows.is_result kind }
{
    match kind {
        IqKind::Result => true,
        IqKind::Get | IqKind::Set | IqKind::Error => false,
    }
}

// Whether an element tells the address that was bound.
fn is_bound(alloc: Global, bind: Option<&Element>) -> Result<bool, NoMemory>
    ensures { IfOk result (λ bound. bound ≡ SessionRows.is_bound (option_map elem_view (option_copied bind.entry))) }
{
    let Some(bind) = bind else {
        return Ok(false);
    };
    match BindResult::read_element(alloc, bind) {
        Ok(_) => Ok(true),
        Err(ExtFault::NoMemory) => Err(NoMemory),
        Err(ExtFault::NotThis | ExtFault::Bad(_)) => Ok(false),
    }
}

// Whether an `iq` is the result of the binding.
fn is_bind_result(alloc: Global, answer: &Iq) -> Result<bool, NoMemory>
    ensures { IfOk result (λ is. is ≡ is_bind_result answer.now) }
{
    if !is_result(answer.kind) || answer.id.as_str() != "bind" {
        return Ok(false);
    }
    is_bound(
        alloc,
        find_child(answer.payload.as_slice(), BINDING, "bind"),
    )
}

// Whether an element is the result of the binding.
fn tells_bound(alloc: Global, tree: &Tree) -> Result<bool, NoMemory>
    ensures { IfOk result (λ bound. bound ≡ tells_bound (stanza_of tree.now)) }
{
    match read_stanza(alloc, tree) {
        Ok(Stanza::Iq(answer)) => is_bind_result(alloc, &answer),
        Ok(Stanza::Message(_)) | Ok(Stanza::Presence(_)) => Ok(false),
        Err(StanzaFault::NoMemory) => Err(NoMemory),
        Err(_) => Ok(false),
    }
}

/// Whether an element is a stanza by its name, though it may have no valid form (RFC 6120, section 8).
pub fn is_stanza(element: &Element) -> bool
    ensures { result ≡ is_stanza (elem_view element.now) }
{
    element.is(CLIENT, "message") || element.is(CLIENT, "presence") || element.is(CLIENT, "iq")
}

// Whether an element is a `failed` of stream management.
fn is_failed(tree: &Tree) -> bool
    ensures { result ≡ is_management (codes "failed") tree.now }
{
    tree.element().is(MANAGEMENT, "failed")
}

// Whether the session that is enabled can be resumed.
fn can_resume(enabled: &Enabled) -> bool
    ensures { result ≡ can_resume enabled.now }
{
    enabled.resume && !enabled.id.as_str().is_empty()
}

impl ClientState {
    // Asks for the binding of a resource.
    fn bind_resource(&mut self, alloc: Global, out: &mut ClientOut) -> Result<(), NoMemory>
        ensures ok { OnOk result (client_step_of self.new out.new ≡ binds in_bytes (client_step_of self.old out.old)) }
        ensures err { OnErr result (client_step_of self.new out.new ≡ client_step_of self.old out.old) }
    {
        let bytes = bind(alloc, self.account.resource.as_str())?;
        self.ask(bytes, Phase::Binding, out)
    }

    // Asks for the resumption of the session, or for the binding of a resource where none stands.
    fn resume_or_bind(&mut self, alloc: Global, out: &mut ClientOut) -> Result<(), NoMemory>
        ensures ok { OnOk result (client_step_of self.new out.new ≡ resumes_or_binds in_bytes (client_step_of self.old out.old) (client_of self.old).session) }
        ensures err { OnErr result (client_step_of self.new out.new ≡ client_step_of self.old out.old) }
    {
        let Some(session) = &self.session else {
            return self.bind_resource(alloc, out);
        };
        let bytes = resume(alloc, session.previd(), session.handled())?;
        self.ask(bytes, Phase::Resuming, out)
    }

    /// An element where the features behind the login are awaited (RFC 6120, section 4.3.2). Where memory runs out nothing is
    /// put or told, and the connection may be left.
    pub fn features2(
        &mut self,
        alloc: Global,
        tree: &Tree,
        out: &mut ClientOut,
    ) -> Result<(), NoMemory>
        ensures ok { OnOk result (client_step_of self.new out.new ≡ features2_row in_bytes (client_step_of self.old out.old) tree.now) }
        ensures err { OnErr result (left (client_step_of self.new out.new) ≡ left (client_step_of self.old out.old)) }
    {
        match Features::read(tree) {
            Ok(features) => {
                if features.bind {
                    self.resume_or_bind(alloc, out)
                } else {
                    self.end(PeerFault::NoFeature, out)
                }
            }
            Err(_) => self.other(alloc, tree, out),
        }
    }

    // What was put so far, and what a resumption with a count sends again, with room for so many bytes behind it.
    fn resent(&self, alloc: Global, h: u32, so_far: &Bytes, room: usize) -> Result<Bytes, NoMemory>
        ensures bytes { IfOk result (λ again. again.items ≡ so_far.now.items ++ concat (resent_in (client_of self.now).session h)) }
        ensures room { IfOk result (λ again. room ≤ again.spare) }
    {
        let mut again = Bytes::from_slice(alloc, so_far.as_slice())?;
        if let Some(session) = &self.session {
            session.append_resent(h, &mut again)?;
        }
        again.reserve(room)?;
        Ok(again)
    }

    // How many stanzas wait.
    fn waiting(&self) -> u64
        ensures { result ≡ length (queue_in (client_of self.now).session) }
    {
        match &self.session {
            Some(session) => session.len(),
            None => 0,
        }
    }

    // Puts what waits again, and a request for its acknowledgement behind it where something waits. `again` is what was put
    // so far and what waits, and takes the place of what was put.
    #[tactic(auto, using(crate::proofs::Resending::resent_nothing, crate::proofs::Resending::resent_some))]
    fn put_again(&self, mut again: Bytes, request: &Bytes, out: &mut ClientOut)
        requires again { again.items ≡ out.old.bytes.items ++ concat (queue_in (client_of self.now).session) }
        requires request { request.now.items ≡ request_text }
        requires room { length request.now.items ≤ again.spare }
        ensures bytes { out.new.bytes.items ≡ out.old.bytes.items ++ resent in_bytes (queue_in (client_of self.now).session) }
        ensures events { out.new.events ≡ out.old.events }
    {
        if self.waiting() > 0 {
            again.append_reserved(request.as_slice());
            out.bytes = again;
        }
    }

    // The session goes on with this count, which isn't above what was sent.
    #[tactic(auto, using(crate::proofs::AckSteps::queue_after, crate::proofs::AckSteps::attached))]
    fn attach(&mut self, alloc: Global, h: u32, out: &mut ClientOut) -> Result<(), NoMemory>
        requires taken { too_high_in (client_of self.old).session h ≡ None }
        requires bound { IsSome (client_of self.old).session }
        ensures ok { OnOk result (client_step_of self.new out.new ≡ resumed_in in_bytes (client_step_of self.old out.old) (client_of self.old).session h) }
        ensures err { OnErr result (client_step_of self.new out.new ≡ client_step_of self.old out.old) }
    {
        let request = request(alloc)?;
        let again = self.resent(alloc, h, &out.bytes, request.as_slice().len())?;
        out.events.reserve(2)?;
        self.acknowledge(h, out);
        self.put_again(again, &request, out);
        self.phase = Phase::Online;
        out.events.push_reserved(Event::Resumed);
        Ok(())
    }

    // The server resumes the session, and has handled so many of its stanzas.
    #[tactic(auto, using(crate::proofs::AckSteps::resumed_high))]
    fn resumed(&mut self, alloc: Global, h: u32, out: &mut ClientOut) -> Result<(), NoMemory>
        ensures ok { OnOk result (client_step_of self.new out.new ≡ resumed_in in_bytes (client_step_of self.old out.old) (client_of self.old).session h) }
        ensures err { OnErr result (client_step_of self.new out.new ≡ client_step_of self.old out.old) }
    {
        if self.session.is_none() {
            return Ok(());
        }
        if let Some(fault) = self.too_high(h) {
            return self.count_too_high(alloc, fault, out);
        }
        self.attach(alloc, h, out)
    }

    // The session can't be resumed: it ends, and a resource is bound.
    fn fail_to_resume(&mut self, alloc: Global, out: &mut ClientOut) -> Result<(), NoMemory>
        ensures ok { OnOk result (client_step_of self.new out.new ≡ failed_row in_bytes (client_step_of self.old out.old)) }
        ensures err { OnErr result (client_step_of self.new out.new ≡ client_step_of self.old out.old) }
    {
        let bytes = bind(alloc, self.account.resource.as_str())?;
        make_room(out, bytes.as_slice().len(), 1)?;
        out.bytes.append_reserved(bytes.as_slice());
        out.events.push_reserved(Event::ResumeFailed);
        self.drop_session();
        self.phase = Phase::Binding;
        Ok(())
    }

    /// An element where the answer to the resumption is awaited (XEP-0198, section 5). Where memory runs out nothing is put or
    /// told, and the connection may be left.
    pub fn resuming(
        &mut self,
        alloc: Global,
        tree: &Tree,
        out: &mut ClientOut,
    ) -> Result<(), NoMemory>
        ensures ok { OnOk result (client_step_of self.new out.new ≡ resuming_row in_bytes (client_step_of self.old out.old) tree.now) }
        ensures err { OnErr result (left (client_step_of self.new out.new) ≡ left (client_step_of self.old out.old)) }
    {
        match Resumed::read(alloc, tree) {
            Ok(resumed) => self.resumed(alloc, resumed.h, out),
            Err(ExtFault::NoMemory) => Err(NoMemory),
            Err(ExtFault::NotThis | ExtFault::Bad(_)) => {
                if is_failed(tree) {
                    self.fail_to_resume(alloc, out)
                } else {
                    self.other(alloc, tree, out)
                }
            }
        }
    }

    /// An element where the answer to the binding is awaited (RFC 6120, section 7). Where memory runs out nothing is put or
    /// told, and the connection may be left.
    pub fn binding(
        &mut self,
        alloc: Global,
        tree: &Tree,
        out: &mut ClientOut,
    ) -> Result<(), NoMemory>
        ensures ok { OnOk result (client_step_of self.new out.new ≡ binding_row in_bytes (client_step_of self.old out.old) tree.now) }
        ensures err { OnErr result (left (client_step_of self.new out.new) ≡ left (client_step_of self.old out.old)) }
    {
        if !tells_bound(alloc, tree)? {
            return self.other(alloc, tree, out);
        }
        let bytes = enable(alloc)?;
        out.bytes.append(bytes.as_slice())?;
        self.said.begin_epoch();
        self.phase = Phase::Enabling;
        Ok(())
    }

    // The session of this id begins.
    fn begin(&mut self, alloc: Global, previd: Text, out: &mut ClientOut) -> Result<(), NoMemory>
        ensures ok { OnOk result (client_step_of self.new out.new ≡ begins in_bytes (client_step_of self.old out.old) previd) }
        ensures err { OnErr result (client_step_of self.new out.new ≡ client_step_of self.old out.old) }
    {
        let mut session = Session::new(alloc, previd)?;
        session.reserve(2)?;
        let carbons = carbons(alloc)?;
        let available = available(alloc)?;
        let room = carbons
            .as_slice()
            .len()
            .saturating_add(available.as_slice().len());
        make_room(out, room, 1)?;
        session.put_reserved(carbons, false, &mut out.bytes);
        session.put_reserved(available, false, &mut out.bytes);
        self.session = Some(session);
        self.phase = Phase::Online;
        out.events.push_reserved(Event::Bound {
            epoch: self.said.epoch(),
        });
        Ok(())
    }

    /// An element where the answer to the wish for acknowledgements is awaited (XEP-0198, section 3). A stanza is dropped, and
    /// isn't counted. Where memory runs out nothing is put or told, and the connection may be left.
    pub fn enabling(
        &mut self,
        alloc: Global,
        tree: &Tree,
        out: &mut ClientOut,
    ) -> Result<(), NoMemory>
        ensures ok { OnOk result (client_step_of self.new out.new ≡ enabling_row in_bytes (client_step_of self.old out.old) tree.now) }
        ensures err { OnErr result (left (client_step_of self.new out.new) ≡ left (client_step_of self.old out.old)) }
    {
        match Enabled::read(alloc, tree) {
            Ok(enabled) => {
                if can_resume(&enabled) {
                    self.begin(alloc, enabled.id, out)
                } else {
                    self.other(alloc, tree, out)
                }
            }
            Err(ExtFault::NoMemory) => Err(NoMemory),
            Err(ExtFault::NotThis | ExtFault::Bad(_)) => {
                if is_stanza(tree.element()) {
                    return Ok(());
                }
                self.other(alloc, tree, out)
            }
        }
    }
}
