//! The acknowledgement of stanzas (XEP-0198, sections 3 and 4).
ghost use Rattle.std.specs.Prelude.{◌≡◌, false, [], ◌∷◌, IfOk, IsSome, OnErr, OnOk, Some};
ghost use Rattle.std.specs.Option.{option_map};
ghost use Rattle.sm_live.specs.Sessions.{ack_answer, info_of, session_of};
ghost use Rattle.srv_handlers.specs.Managements.{acknowledging, at_ack, at_enable, at_request, enabled_as, refusing};
ghost use Rattle.srv_state.specs.Seen.{server_state_of, step_of};
ghost use Rattle.srv_state.specs.Steps.{Say, acted};
ghost use Rattle.srv_state.specs.Streams.{parting};
ghost use Rattle.im_replies.specs.Management.{ack_item};
ghost use Rattle.im_replies.specs.Streams.{too_high_item};
ghost use Rattle.xml_writer.specs.Items.{written_item};

use base_io::{Bytes, NoMemory};
use im_replies::{ack, enabled, footer, refused, resumable, too_high};
use im_stanza::Condition;
use sm_acks::TooHigh;
use sm_live::SessionInfo;
use sm_resumption::RESUMABLE_SECONDS;
use srv_state::ServerContext;
use std::alloc::Global;

// `enabled`, for a session with a number.
fn enabled_as(alloc: Global, number: u64, resume: bool) -> Result<Bytes, NoMemory>
    ensures { IfOk result (λ b. b.items ≡ written_item (enabled_as number resume)) }
{
    if resume {
        resumable(alloc, number, RESUMABLE_SECONDS)
    } else {
        enabled(alloc)
    }
}

/// What was asked of stream management is refused (XEP-0198, sections 3 to 5): the answer is `failed` with the condition, and
/// the stream goes on. Such are an `enable`, `r` or `a` out of place, and a `resume` on a connection that has a session
/// (`unexpected-request`). A refusal for want of memory leaves all as it was.
pub fn refuse(context: &mut ServerContext, conn: u64, condition: Condition) -> Result<(), NoMemory>
    ensures ok { OnOk result (step_of context.new ≡ acted written_item (refusing written_item conn condition) (step_of context.old)) }
    ensures err { OnErr result (step_of context.new ≡ step_of context.old) }
{
    context.out.reserve(1)?;
    let answer = refused(context.alloc, condition)?;
    context.put(conn, answer);
    Ok(())
}

// `enable`, for a session whose stanzas aren't counted.
#[tactic(auto, using(srv_state::proofs::InfoFacts::lives_told, srv_state::proofs::InfoFacts::enables_once))]
fn enable(
    context: &mut ServerContext,
    conn: u64,
    told: &SessionInfo,
    resume: bool,
) -> Result<(), NoMemory>
    requires told { Some told.now ≡ info_of told.now.number (server_state_of context.old).sessions }
    requires counted { told.now.counted ≡ false }
    ensures ok { OnOk result (step_of context.new ≡ acted written_item (at_enable written_item conn resume told.now) (step_of context.old)) }
    ensures err { OnErr result (step_of context.new ≡ step_of context.old) }
{
    context.out.reserve(1)?;
    let answer = enabled_as(context.alloc, told.number, resume)?;
    match context.live.enable(told.number, resume) {
        Ok(()) => context.put(conn, answer),
        Err(_) => unreachable!(),
    }
    Ok(())
}

/// Bound: `enable` (XEP-0198, section 3), for the session `told` on the connection. Its stanzas are counted from then on, in
/// both directions from 0, and where `resume` is set it can be resumed: then `enabled` tells its id and 300 seconds. Where
/// they are counted already the answer is `failed` with `unexpected-request`. A refusal for want of memory leaves all as it
/// was.
pub fn on_enable(
    context: &mut ServerContext,
    conn: u64,
    told: &SessionInfo,
    resume: bool,
) -> Result<(), NoMemory>
    requires told { Some told.now ≡ info_of told.now.number (server_state_of context.old).sessions }
    ensures ok { OnOk result (step_of context.new ≡ acted written_item (at_enable written_item conn resume told.now) (step_of context.old)) }
    ensures err { OnErr result (step_of context.new ≡ step_of context.old) }
{
    if told.counted {
        refuse(context, conn, Condition::UnexpectedRequest)
    } else {
        enable(context, conn, told, resume)
    }
}

// `a`, for `r`.
fn answer_request(context: &mut ServerContext, conn: u64, handled: u32) -> Result<(), NoMemory>
    ensures ok { OnOk result (step_of context.new ≡ acted written_item (Say conn (written_item (ack_item handled)) ∷ []) (step_of context.old)) }
    ensures err { OnErr result (step_of context.new ≡ step_of context.old) }
{
    context.out.reserve(1)?;
    let answer = ack(context.alloc, handled)?;
    context.put(conn, answer);
    Ok(())
}

/// Bound: `r` (XEP-0198, section 4), for the session `told` on the connection: `a` tells how many of its stanzas were handled,
/// modulo 2^32. Where they aren't counted the answer is `failed` with `unexpected-request`. A refusal for want of memory
/// leaves all as it was.
pub fn on_request(
    context: &mut ServerContext,
    conn: u64,
    told: &SessionInfo,
) -> Result<(), NoMemory>
    ensures ok { OnOk result (step_of context.new ≡ acted written_item (at_request written_item conn told.now) (step_of context.old)) }
    ensures err { OnErr result (step_of context.new ≡ step_of context.old) }
{
    if told.counted {
        answer_request(context, conn, told.handled)
    } else {
        refuse(context, conn, Condition::UnexpectedRequest)
    }
}

// A count that is too high ends the stream.
fn end_too_high(context: &mut ServerContext, conn: u64, why: TooHigh) -> Result<(), NoMemory>
    ensures ok { OnOk result (step_of context.new ≡ acted written_item (parting written_item conn (written_item (too_high_item why.h why.send_count))) (step_of context.old)) }
    ensures err { OnErr result (step_of context.new ≡ step_of context.old) }
{
    context.out.reserve(3)?;
    let error = too_high(context.alloc, why.h, why.send_count)?;
    let footer = footer(context.alloc)?;
    context.part(conn, error, footer);
    Ok(())
}

// `a`, for a session that lives.
#[tactic(auto, using(srv_state::proofs::InfoFacts::answers_count, srv_state::proofs::InfoFacts::lives_acknowledged))]
fn take_count(context: &mut ServerContext, conn: u64, number: u64, h: u32) -> Result<(), NoMemory>
    requires lives { IsSome (session_of number (server_state_of context.old).sessions) }
    ensures ok { OnOk result (step_of context.new ≡ acted written_item (acknowledging written_item conn number h (option_map (ack_answer h) (session_of number (server_state_of context.old).sessions))) (step_of context.old)) }
    ensures err { OnErr result (step_of context.new ≡ step_of context.old) }
{
    match context.live.ack(number, h) {
        Ok(_) => {
            context.live.set_asked(number, false);
            Ok(())
        }
        Err(why) => end_too_high(context, conn, why),
    }
}

/// Bound: `a` (XEP-0198, section 4), for the session `told` on the connection, whose client states that it handled `h`
/// stanzas, modulo 2^32. Those up to that count wait no more, and an `r` before it counts as answered. A count above what was
/// sent ends the stream with `handled-count-too-high`, and the session with it. Where stanzas aren't counted the answer is
/// `failed` with `unexpected-request`. A refusal for want of memory leaves all as it was.
#[tactic(auto, using(srv_state::proofs::InfoFacts::lives_told))]
pub fn on_ack(
    context: &mut ServerContext,
    conn: u64,
    told: &SessionInfo,
    h: u32,
) -> Result<(), NoMemory>
    requires told { Some told.now ≡ info_of told.now.number (server_state_of context.old).sessions }
    ensures ok { OnOk result (step_of context.new ≡ acted written_item (at_ack written_item conn h told.now (server_state_of context.old)) (step_of context.old)) }
    ensures err { OnErr result (step_of context.new ≡ step_of context.old) }
{
    if told.counted {
        take_count(context, conn, told.number, h)
    } else {
        refuse(context, conn, Condition::UnexpectedRequest)
    }
}
