//! The bytes of a connection: a framer makes items of them, which are handled in order (RFC 6120, section 4).
//!
//! What is known of a stream's bytes stands beside the state (`Whole`), so that rows know items alone.
ghost use Rattle.std.specs.Prelude.{◌≡◌, [], None, drop, IfSome, IsOk, IsSome, OnErr, OnOk};
ghost use Rattle.xml_framer.specs.Machine.{run};
ghost use Rattle.xml_framer.specs.States.{Turn, turn};
ghost use Rattle.srv_core.specs.Events.{Framers, IsAfterBytes, Stops, at_fault, begun, dropped, fault_condition, framer_at, turn_of, whole};
ghost use Rattle.srv_state.specs.Seen.{outs_of, server_state_of, step_of};
ghost use Rattle.srv_state.specs.Steps.{acted};
ghost use Rattle.srv_state.specs.Streams.{standing_at};
ghost use Rattle.srv_core.specs.Taken.{EventStops, FramerAnswers, FramersAnswer, IsEvent, IsPiece, PieceStops, TurnIsDone, TurnStops};
ghost use Rattle.xml_writer.specs.Items.{written_item};

use crate::items::on_items;
use base_io::NoMemory;
use im_replies::StreamCondition;
use srv_state::{Output, ServerContext};
use std::collections::BTreeMap;
use xml_framer::{Fault, FeedFault, Framer, Items, Why};

fn fault_condition(why: Why) -> StreamCondition
    ensures { result ≡ fault_condition why }
{
    match why {
        Why::Restricted => StreamCondition::RestrictedXml,
        Why::NotWellFormed => StreamCondition::NotWellFormed,
        Why::Encoding => StreamCondition::UnsupportedEncoding,
        _ => StreamCondition::PolicyViolation,
    }
}

// A piece goes to a framer, which then holds little more than what is unfinished.
#[tactic(auto, using(crate::proofs::Feeding::framer_answers))]
fn feed_framer(framer: &mut Framer, piece: &[u8], items: &mut Items) -> Result<(), FeedFault>
    requires { items.old.items ≡ [] }
    ensures { FramerAnswers result (run (turn framer.old []) piece.now) items.new.items framer.new }
{
    let answer = framer.feed(piece, items);
    framer.slim();
    answer
}

// A piece goes to the framer of a connection.
fn feed_at(
    framers: &mut BTreeMap<u64, Framer>,
    conn: u64,
    piece: &[u8],
    items: &mut Items,
) -> Result<(), FeedFault>
    requires there { IsSome (framer_at conn framers.old.entries) }
    requires none { items.old.items ≡ [] }
    ensures { IfSome (framer_at conn framers.old.entries) (λ f. FramersAnswer result conn (turn_of piece.now f) items.new.items framers.old.entries framers.new.entries) }
{
    match framers.get_mut(&conn) {
        Some(framer) => feed_framer(framer, piece, items),
        None => unreachable!(),
    }
}

// A fault of the stream, behind its items.
fn on_fault(context: &mut ServerContext, conn: u64, fault: Fault) -> Result<(), NoMemory>
    ensures ok { OnOk result (step_of context.new ≡ acted written_item (at_fault written_item conn fault (standing_at conn (server_state_of context.old)) (server_state_of context.old)) (step_of context.old)) }
    ensures err { OnErr result (step_of context.new ≡ step_of context.old) }
{
    match context.standing(conn) {
        Some(standing) => context.end_with(conn, fault_condition(fault.why), &standing),
        None => Ok(()),
    }
}

// What a framer answered: the items, and then the fault, where there is one.
#[tactic(auto, using(crate::proofs::Feeding::turn_sound, crate::proofs::Feeding::turn_fault, crate::proofs::Feeding::turn_stops, crate::proofs::Feeding::all_taken))]
fn on_turn(
    context: &mut ServerContext,
    conn: u64,
    items: Items,
    answer: Result<(), FeedFault>,
) -> Result<(), NoMemory>
    ensures ok { OnOk result ((t : Turn) (old new : Framers) → FramersAnswer answer conn t items.items old new → TurnIsDone conn t old new (step_of context.old) (step_of context.new)) }
    ensures err { OnErr result ((t : Turn) (old new : Framers) → FramersAnswer answer conn t items.items old new → TurnStops conn t old new (step_of context.old) (step_of context.new)) }
{
    match answer {
        Ok(()) => on_items(context, conn, items),
        Err(FeedFault::Fault(fault)) => {
            on_items(context, conn, items)?;
            on_fault(context, conn, fault)
        }
        Err(FeedFault::NoMemory) => {
            on_items(context, conn, items)?;
            Err(NoMemory)
        }
    }
}

// A piece of a connection that has a framer.
#[tactic(auto, using(crate::proofs::Feeding::piece_done, crate::proofs::Feeding::piece_stops))]
fn take_open(
    context: &mut ServerContext,
    framers: &mut BTreeMap<u64, Framer>,
    conn: u64,
    piece: &[u8],
) -> Result<(), NoMemory>
    requires { IsSome (framer_at conn framers.old.entries) }
    ensures ok { OnOk result (IsPiece conn piece.now (framer_at conn framers.old.entries) framers.old.entries framers.new.entries (step_of context.old) (step_of context.new)) }
    ensures err { OnErr result (PieceStops conn piece.now (framer_at conn framers.old.entries) framers.old.entries framers.new.entries (step_of context.old) (step_of context.new)) }
{
    let mut items = Items::new(context.alloc);
    let answer = feed_at(framers, conn, piece, &mut items);
    on_turn(context, conn, items, answer)
}

// The bytes of an event.
#[tactic(auto, using(crate::proofs::Feeding::shut_piece, crate::proofs::Feeding::open_piece, crate::proofs::Feeding::piece_lost))]
fn on_bytes(
    context: &mut ServerContext,
    framers: &mut BTreeMap<u64, Framer>,
    conn: u64,
    piece: &[u8],
    now: u64,
) -> Result<(), NoMemory>
    ensures ok { OnOk result (IsEvent conn piece.now (framer_at conn framers.old.entries) framers.old.entries framers.new.entries (begun now (server_state_of context.old) (outs_of context.old.out.items)) (step_of context.new)) }
    ensures err { OnErr result (EventStops conn piece.now (framer_at conn framers.old.entries) framers.old.entries framers.new.entries (begun now (server_state_of context.old) (outs_of context.old.out.items)) (step_of context.new)) }
{
    context.begin(now);
    if !framers.contains_key(&conn) {
        return Ok(());
    }
    match take_open(context, framers, conn, piece) {
        Ok(()) => Ok(()),
        Err(NoMemory) => {
            context.lose(conn);
            let _ = framers.remove(&conn);
            Err(NoMemory)
        }
    }
}

// The framers of connections that were shut are dropped.
fn drop_shut(framers: &mut BTreeMap<u64, Framer>, outputs: &[Output])
    ensures { framers.new.entries ≡ dropped (outs_of outputs.now) framers.old.entries }
{
    for output in outputs {
        match output {
            Output::Shut { conn } => {
                let _ = framers.remove(conn);
            }
            _ => {}
        }
    }
}

// The framers of connections that were shut since there were so many outputs.
#[tactic(auto, using(crate::proofs::Feeding::outs_drop))]
fn drop_news(framers: &mut BTreeMap<u64, Framer>, outputs: &[Output], from: usize)
    ensures { framers.new.entries ≡ dropped (drop from (outs_of outputs.now)) framers.old.entries }
{
    match outputs.get(from..) {
        Some(news) => drop_shut(framers, news),
        None => {}
    }
}

/// The bytes of an event, and then the framers of connections that were shut are dropped.
#[tactic(auto, using(crate::proofs::Feeding::event_done, crate::proofs::Feeding::event_stopped, crate::proofs::Feeding::outs_length, crate::proofs::Kept::unknown_is_ok))]
pub(crate) fn on_event(
    context: &mut ServerContext,
    framers: &mut BTreeMap<u64, Framer>,
    conn: u64,
    piece: &[u8],
    now: u64,
) -> Result<(), NoMemory>
    ensures ok { OnOk result (IsAfterBytes written_item conn piece.now now (whole (server_state_of context.old) framers.old.entries) (outs_of context.old.out.items) (whole (server_state_of context.new) framers.new.entries) (outs_of context.new.out.items)) }
    ensures unknown { framer_at conn framers.old.entries ≡ None → IsOk result }
    ensures err { OnErr result (Stops written_item conn piece.now now (framer_at conn framers.old.entries) (whole (server_state_of context.old) framers.old.entries) (outs_of context.old.out.items) (whole (server_state_of context.new) framers.new.entries) (outs_of context.new.out.items)) }
{
    let from = context.out.as_slice().len();
    let result = on_bytes(context, framers, conn, piece, now);
    drop_news(framers, context.out.as_slice(), from);
    result
}
