//! The resumption of a session (XEP-0198, section 5).
ghost use Rattle.std.specs.Prelude.{◌≡◌, ◌+◌, ◌≤◌, false, [], ◌∷◌, Err, IfOk, IfSome, IsSome, None, Ok, OnErr, OnOk, Some, length};
ghost use Rattle.sm_acks.specs.declared.end.TheConstants.{MOST_UNACKNOWLEDGED};
ghost use Rattle.sm_live.specs.Sessions.{resume_answer, session_at, session_of, session_resumed, without_at};
ghost use Rattle.sm_acks.specs.Queues.{stanzas_in};
ghost use Rattle.im_replies.specs.Management.{request_text};
ghost use Rattle.srv_handlers.specs.Resumptions.{asking, at_resume, resent_where, resuming, saying};
ghost use Rattle.srv_state.specs.Seen.{server_state_of, step_of};
ghost use Rattle.srv_state.specs.Steps.{Ask, Resume, acted};
ghost use Rattle.sm_resumption.specs.declared.answers.ResumeFault.TheVariants.{TooHigh};
ghost use Rattle.xml_writer.specs.Items.{written_item};

use crate::managements::refuse;
use base_io::{Bytes, ListOf, NoMemory};
use im_replies::{
    StreamCondition, footer, request, resumed as resumed_answer, stream_error, too_high,
};
use im_stanza::Condition;
use sm_resumption::{ResumeFault, ResumeOk};
use srv_state::{ASKS_AT, ServerContext};

// The count is too high: the session ends, and both connections are told.
fn exceed(
    context: &mut ServerContext,
    conn: u64,
    account: u32,
    previd: &str,
    h: u32,
    send_count: u32,
    former: Option<u64>,
) -> Result<(), NoMemory>
    requires answer { resume_answer h (session_resumed previd.now account (server_state_of context.old).sessions) ≡ Err (TooHigh h send_count former) }
    requires conn { session_at conn (server_state_of context.old).sessions ≡ None }
    ensures ok { OnOk result (step_of context.new ≡ acted written_item (resuming written_item conn account previd.now h (Err (TooHigh h send_count former)) []) (step_of context.old)) }
    ensures err { OnErr result (step_of context.new ≡ step_of context.old) }
{
    context.out.reserve(6)?;
    context.reserve_session(account)?;
    let error = too_high(context.alloc, h, send_count)?;
    let last = footer(context.alloc)?;
    let conflict = stream_error(context.alloc, StreamCondition::Conflict)?;
    let end = footer(context.alloc)?;
    let _ = context.live.resume(previd, account, h, conn);
    context.part(conn, error, last);
    context.part_where(former, conflict, end);
    Ok(())
}

// Stanzas go out, in order.
fn say_all(context: &mut ServerContext, conn: u64, stanzas: ListOf<Bytes>)
    requires { length stanzas.items ≤ context.old.out.spare }
    ensures step { step_of context.new ≡ acted written_item (saying conn (stanzas_in stanzas.items) []) (step_of context.old) }
    ensures live { context.new.live ≡ context.old.live }
    ensures room { context.old.out.spare ≤ context.new.out.spare + length stanzas.items }
{
    for bytes in stanzas.into_items() {
        context.put(conn, bytes);
    }
}

// An `r` where it is due, and the session counts as asked.
fn ask_where(context: &mut ServerContext, conn: u64, number: u64, request: Bytes, due: bool)
    requires lives { IsSome (session_of number (server_state_of context.old).sessions) }
    requires room { 1 ≤ context.old.out.spare }
    requires request { request.items ≡ request_text }
    ensures { step_of context.new ≡ acted written_item (asking written_item conn number due) (step_of context.old) }
{
    if due {
        context.live.set_asked(number, true);
        context.put(conn, request);
    }
}

// Copies of the stanzas that wait behind the count.
fn waiting(
    context: &ServerContext,
    account: u32,
    previd: &str,
    h: u32,
    resumed: ResumeOk,
) -> Result<ListOf<Bytes>, NoMemory>
    requires { resume_answer h (session_resumed previd.now account (server_state_of context.now).sessions) ≡ Ok resumed }
    ensures all { IfOk result (λ stanzas. stanzas_in stanzas.items ≡ resent_where h (session_resumed previd.now account (server_state_of context.now).sessions)) }
    ensures few { IfOk result (λ stanzas. length stanzas.items ≤ MOST_UNACKNOWLEDGED) }
{
    context.live.keeps_rule();
    context.live.resent(context.alloc, resumed.number, h)
}

// The session is on this connection, and is asked for nothing yet.
fn attach(
    context: &mut ServerContext,
    conn: u64,
    account: u32,
    previd: &str,
    h: u32,
    resumed: ResumeOk,
)
    requires answer { resume_answer h (session_resumed previd.now account (server_state_of context.old).sessions) ≡ Ok resumed }
    requires conn { session_at conn (server_state_of context.old).sessions ≡ None }
    requires reservation { context.old.live.reservation ≡ Some account }
    ensures step { step_of context.new ≡ acted written_item (Resume previd.now account h conn ∷ Ask resumed.number false ∷ []) (step_of context.old) }
    ensures lives { IsSome (session_of resumed.number (server_state_of context.new).sessions) }
    ensures stays { IfSome resumed.former (λ k. IsSome (session_of resumed.number (without_at k (server_state_of context.new).sessions))) }
    ensures out { context.new.out ≡ context.old.out }
{
    context.live.keeps_rule();
    let _ = context.live.resume(previd, account, h, conn);
    context.live.set_asked(resumed.number, false);
}

// The session goes on, on this connection.
fn go_on(
    context: &mut ServerContext,
    conn: u64,
    account: u32,
    previd: &str,
    h: u32,
    resumed: ResumeOk,
) -> Result<(), NoMemory>
    requires answer { resume_answer h (session_resumed previd.now account (server_state_of context.old).sessions) ≡ Ok resumed }
    requires conn { session_at conn (server_state_of context.old).sessions ≡ None }
    ensures ok { OnOk result (step_of context.new ≡ acted written_item (resuming written_item conn account previd.now h (Ok resumed) (resent_where h (session_resumed previd.now account (server_state_of context.old).sessions))) (step_of context.old)) }
    ensures err { OnErr result (step_of context.new ≡ step_of context.old) }
{
    let number = resumed.number;
    let stanzas = waiting(context, account, previd, h, resumed)?;
    let count = stanzas.as_slice().len();
    context.out.reserve(count + 5)?;
    context.reserve_session(account)?;
    let conflict = stream_error(context.alloc, StreamCondition::Conflict)?;
    let end = footer(context.alloc)?;
    let answer = resumed_answer(context.alloc, number, resumed.handled)?;
    let request = request(context.alloc)?;
    attach(context, conn, account, previd, h, resumed);
    context.part_where(resumed.former, conflict, end);
    context.put(conn, answer);
    say_all(context, conn, stanzas);
    ask_where(context, conn, number, request, ASKS_AT <= count as u64);
    Ok(())
}

/// Ready: `resume` (XEP-0198, section 5), on a connection that has no session. The session that `previd` names for the
/// account is on this connection from then on. The connection that it had, where it wasn't lost, is told `conflict` and shut
/// first; then come `resumed` with the count of the client's stanzas that were handled, and in order the stanzas that wait
/// behind the client's count `h`. Where 10 or more do, an `r` follows them.
///
/// Where no session that can be resumed has the `previd` and the account, the answer is `failed` with `item-not-found`, and
/// a resource can be bound. A count above what was sent ends the session and the stream: this connection is told
/// `handled-count-too-high` and shut, and then the one that the session had is told `conflict` and shut.
///
/// `NoMemory` also where each number of a session or of a queue was given. A refusal leaves all as it was.
pub fn on_resume(
    context: &mut ServerContext,
    conn: u64,
    account: u32,
    previd: &str,
    h: u32,
) -> Result<(), NoMemory>
    requires { session_at conn (server_state_of context.old).sessions ≡ None }
    ensures ok { OnOk result (step_of context.new ≡ acted written_item (at_resume written_item conn account previd.now h (server_state_of context.old)) (step_of context.old)) }
    ensures err { OnErr result (step_of context.new ≡ step_of context.old) }
{
    match context.live.would_resume(previd, account, h) {
        Ok(resumed) => go_on(context, conn, account, previd, h, resumed),
        Err(ResumeFault::UnknownPrevid) => refuse(context, conn, Condition::ItemNotFound),
        Err(
            ResumeFault::TooHigh {
                send_count,
                former,
                ..
            },
        ) => exceed(context, conn, account, previd, h, send_count, former),
    }
}
