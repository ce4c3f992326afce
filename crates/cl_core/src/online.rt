//! The state in which stanzas come.
ghost use Rattle.std.specs.Prelude.{◌≡◌, Ok, IsSome, OnErr, OnOk};
ghost use Rattle.cl_core.specs.Counting.{counted_client, management_in};
ghost use Rattle.cl_handlers.specs.Speech.{in_bytes};
ghost use Rattle.cl_core.specs.Steps.{online_in, stanza_row};
ghost use Rattle.cl_handlers.specs.ClientSteps.{left};
ghost use Rattle.cl_handlers.specs.Views.{client_of, client_step_of};

use crate::replacing::put_session;
use crate::requests::take_iq;
use base_io::NoMemory;
use cl_handlers::{ClientOut, ClientState, is_stanza};
use im_extensions::{Ack, Request};
use im_stanza::{Stanza, StanzaFault, stanza_of};
use std::alloc::Global;
use xml_trees::Tree;

// A stanza of the server is handled. It takes no memory.
fn count(state: &mut ClientState)
    ensures { client_of state.new ≡ counted_client (client_of state.old) }
{
    let Some(mut session) = state.session.take() else {
        return;
    };
    session.count_handled();
    put_session(&mut state.session, session);
}

// What a stanza does, but for its count. What is large is dropped by a call: where its scope drops it, each of its fields
// is a way of its own in the proof.
fn take_stanza(
    state: &mut ClientState,
    alloc: Global,
    stanza: Stanza,
    out: &mut ClientOut,
) -> Result<(), NoMemory>
    ensures ok { OnOk result (client_step_of state.new out.new ≡ stanza_row in_bytes (client_step_of state.old out.old) (Ok stanza)) }
    ensures err { OnErr result (left (client_step_of state.new out.new) ≡ left (client_step_of state.old out.old)) }
{
    match stanza {
        Stanza::Message(message) => {
            let taken = state.message(alloc, &message, out);
            drop(message);
            taken
        }
        Stanza::Iq(iq) => {
            let taken = take_iq(state, alloc, &iq, out);
            drop(iq);
            taken
        }
        Stanza::Presence(presence) => {
            drop(presence);
            Ok(())
        }
    }
}

// What an element does that is no stanza.
fn management(
    state: &mut ClientState,
    alloc: Global,
    tree: &Tree,
    out: &mut ClientOut,
) -> Result<(), NoMemory>
    ensures ok { OnOk result (client_step_of state.new out.new ≡ management_in in_bytes (client_step_of state.old out.old) (client_of state.old).session tree.now) }
    ensures err { OnErr result (client_step_of state.new out.new ≡ client_step_of state.old out.old) }
{
    if let Ok(Request) = Request::read(tree) {
        return state.request(alloc, out);
    }
    match Ack::read(tree) {
        Ok(ack) => state.ack(alloc, ack.h, out),
        Err(_) => Ok(()),
    }
}

/// An element where stanzas are awaited. What a stanza contains is moved.
#[tactic(auto, using(crate::proofs::Counts::online_stanza, crate::proofs::Counts::online_other))]
pub(crate) fn online(
    state: &mut ClientState,
    alloc: Global,
    tree: Tree,
    out: &mut ClientOut,
) -> Result<(), NoMemory>
    ensures ok { OnOk result (client_step_of state.new out.new ≡ online_in in_bytes (client_step_of state.old out.old) (client_of state.old).session tree) }
    ensures err { OnErr result (left (client_step_of state.new out.new) ≡ left (client_step_of state.old out.old)) }
{
    if state.session.is_none() {
        drop(tree);
        return Ok(());
    }
    if !is_stanza(tree.element()) {
        let done = management(state, alloc, &tree, out);
        drop(tree);
        return done;
    }
    match stanza_of(alloc, tree) {
        Ok(stanza) => take_stanza(state, alloc, stanza, out)?,
        Err(StanzaFault::NoMemory) => return Err(NoMemory),
        Err(StanzaFault::NotAStanza) => {}
        Err(StanzaFault::BadFormat) => {}
        Err(StanzaFault::BadFrom) => {}
        Err(
            StanzaFault::BadTo {
                from: _from,
                id: _id,
                to: _to,
                ..
            },
        ) => {}
    }
    count(state);
    Ok(())
}
