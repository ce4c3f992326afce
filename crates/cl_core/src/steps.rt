//! Items, one by one.
//!
//! A stanza is told by its name before it is read: so its tree is moved, and no memory is taken to find out that it
//! is none.
ghost use Rattle.std.specs.Prelude.{◌≡◌, Some, IfOk, OnErr, OnOk};
ghost use Rattle.cl_core.specs.Feeds.{IsStopped, with_fault};
ghost use Rattle.cl_handlers.specs.Speech.{in_bytes};
ghost use Rattle.cl_core.specs.Steps.{element_row, element_step, item_step, items_run, stream_condition};
ghost use Rattle.cl_handlers.specs.ClientSteps.{ends, left};
ghost use Rattle.cl_handlers.specs.declared.events.PeerFault.TheVariants.{Stream};
ghost use Rattle.cl_handlers.specs.Views.{client_step_of};

use crate::online::online;
use crate::replacing::replace_phase;
use base_io::{NoMemory, Text};
use cl_handlers::{ClientOut, ClientState, PeerFault, Phase};
use im_stanza::{STREAMS, stream_condition};
use std::alloc::Global;
use std::mem;
use xml_framer::{Fault, Item, Items};
use xml_trees::Tree;

// The condition of a stream error.
fn condition_of(alloc: Global, tree: &Tree) -> Result<Text, NoMemory>
    ensures { IfOk result (λ condition. condition ≡ stream_condition tree.now) }
{
    match stream_condition(tree) {
        Some(condition) => Text::from_str(alloc, condition),
        None => Text::from_str(alloc, "undefined-condition"),
    }
}

// A tree and an item are dropped by a call: where its scope drops it, each of its fields is a way of its own in the proof.

// An element, by the phase.
fn by_phase(
    state: &mut ClientState,
    alloc: Global,
    tree: Tree,
    out: &mut ClientOut,
) -> Result<(), NoMemory>
    ensures ok { OnOk result (client_step_of state.new out.new ≡ element_row in_bytes (client_step_of state.old out.old) state.old.phase tree) }
    ensures err { OnErr result (left (client_step_of state.new out.new) ≡ left (client_step_of state.old out.old)) }
{
    let phase = mem::replace(&mut state.phase, Phase::Apart);
    let done = match phase {
        Phase::Apart => Ok(()),
        Phase::Login(login) => state.login(alloc, login, &tree, out),
        Phase::Features2 => {
            replace_phase(&mut state.phase, Phase::Features2);
            state.features2(alloc, &tree, out)
        }
        Phase::Resuming => {
            replace_phase(&mut state.phase, Phase::Resuming);
            state.resuming(alloc, &tree, out)
        }
        Phase::Binding => {
            replace_phase(&mut state.phase, Phase::Binding);
            state.binding(alloc, &tree, out)
        }
        Phase::Enabling => {
            replace_phase(&mut state.phase, Phase::Enabling);
            state.enabling(alloc, &tree, out)
        }
        Phase::Online => {
            replace_phase(&mut state.phase, Phase::Online);
            return online(state, alloc, tree, out);
        }
    };
    drop(tree);
    done
}

// A stream error, which ends the connection.
fn end_by_error(
    state: &mut ClientState,
    alloc: Global,
    tree: &Tree,
    out: &mut ClientOut,
) -> Result<(), NoMemory>
    ensures ok { OnOk result (client_step_of state.new out.new ≡ ends (client_step_of state.old out.old) (Stream (stream_condition tree.now))) }
    ensures err { OnErr result (left (client_step_of state.new out.new) ≡ left (client_step_of state.old out.old)) }
{
    let condition = condition_of(alloc, tree)?;
    state.end(PeerFault::Stream(condition), out)
}

// An element.
fn take_element(
    state: &mut ClientState,
    alloc: Global,
    tree: Tree,
    out: &mut ClientOut,
) -> Result<(), NoMemory>
    ensures ok { OnOk result (client_step_of state.new out.new ≡ element_step in_bytes (client_step_of state.old out.old) tree) }
    ensures err { OnErr result (left (client_step_of state.new out.new) ≡ left (client_step_of state.old out.old)) }
{
    if tree.element().is(STREAMS, "error") {
        let ended = end_by_error(state, alloc, &tree, out);
        drop(tree);
        return ended;
    }
    by_phase(state, alloc, tree, out)
}

// The next item.
fn take_item(
    state: &mut ClientState,
    alloc: Global,
    item: Item,
    out: &mut ClientOut,
) -> Result<(), NoMemory>
    ensures ok { OnOk result (client_step_of state.new out.new ≡ item_step in_bytes (client_step_of state.old out.old) item) }
    ensures err { OnErr result (left (client_step_of state.new out.new) ≡ left (client_step_of state.old out.old)) }
{
    if state.is_apart() {
        drop(item);
        return Ok(());
    }
    match item {
        Item::Header { header, .. } => {
            drop(header);
            state.header(alloc, out)
        }
        Item::Element(tree) => take_element(state, alloc, tree, out),
        Item::Footer => state.end(PeerFault::Closed, out),
    }
}

/// The items of a piece, one by one. Want of memory leaves the connection; the items before the one in hand had their
/// effect, and that one had none.
#[tactic(auto, using(crate::proofs::Alongs::along_begin, crate::proofs::Alongs::along_step, crate::proofs::Alongs::along_end, crate::proofs::Alongs::along_stop))]
pub(crate) fn take_items(
    state: &mut ClientState,
    alloc: Global,
    items: Items,
    out: &mut ClientOut,
) -> Result<(), NoMemory>
    ensures ok { OnOk result (client_step_of state.new out.new ≡ items_run in_bytes (client_step_of state.old out.old) items.items) }
    ensures memory { OnErr result (IsStopped in_bytes (client_step_of state.old out.old) items.items (client_step_of state.new out.new)) }
{
    for item in items.into_items() {
        if let Err(NoMemory) = take_item(state, alloc, item, out) {
            replace_phase(&mut state.phase, Phase::Apart);
            return Err(NoMemory);
        }
    }
    Ok(())
}

/// The fault of the bytes, where the connection stands still.
pub(crate) fn take_fault(
    state: &mut ClientState,
    fault: Fault,
    out: &mut ClientOut,
) -> Result<(), NoMemory>
    ensures ok { OnOk result (client_step_of state.new out.new ≡ with_fault (client_step_of state.old out.old) (Some fault)) }
    ensures err { OnErr result (client_step_of state.new out.new ≡ left (client_step_of state.old out.old)) }
{
    if state.is_apart() {
        return Ok(());
    }
    state.end(PeerFault::Framing(fault), out)
}
