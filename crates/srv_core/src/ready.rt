//! The phase behind a login (RFC 6120, section 7; XEP-0198, sections 3 to 5).
ghost use Rattle.std.specs.Prelude.{◌≡◌, None, Some, codes, OnErr, OnOk};
ghost use Rattle.std.specs.Option.{option_map};
ghost use Rattle.sm_live.specs.Sessions.{info_of, session_at, told as told_by};
ghost use Rattle.im_payload.specs.Names.{binding};
ghost use Rattle.srv_core.specs.Ready.{at_bound, at_ready, at_ready_or_bound, ready_iq, ready_stanza};
ghost use Rattle.srv_state.specs.Seen.{server_state_of, step_of};
ghost use Rattle.srv_state.specs.Steps.{acted};
ghost use Rattle.xml_trees.specs.Readers.{first_named};
ghost use Rattle.xml_writer.specs.Items.{written_item};

use crate::stanzas::on_stanza;
use base_io::NoMemory;
use im_payload::BINDING;
use im_replies::StreamCondition;
use im_stanza::{Condition, Iq, IqKind, Stanza, StanzaFault};
use sm_live::SessionInfo;
use srv_handlers::{on_ack, on_bind, on_enable, on_request, on_resume, refuse};
use srv_state::{ServerContext, Standing, Word};
use xml_trees::find_child;

// Ready: an `iq` of type `set`.
fn on_ready_set(
    context: &mut ServerContext,
    conn: u64,
    account: u32,
    iq: &Iq,
    standing: &Standing,
) -> Result<(), NoMemory>
    requires { session_at conn (server_state_of context.old).sessions ≡ None }
    ensures ok { OnOk result (step_of context.new ≡ acted written_item (ready_iq written_item conn account IqKind.Set iq.now (first_named binding (codes "bind") iq.now.payload) standing.now (server_state_of context.old)) (step_of context.old)) }
    ensures err { OnErr result (step_of context.new ≡ step_of context.old) }
{
    match find_child(iq.payload.as_slice(), BINDING, "bind") {
        Some(bind) => on_bind(context, conn, account, iq.id.as_str(), bind),
        None => context.end_with(conn, StreamCondition::NotAuthorized, standing),
    }
}

// Ready: a stanza.
fn on_ready_stanza(
    context: &mut ServerContext,
    conn: u64,
    account: u32,
    read: &Result<Stanza, StanzaFault>,
    standing: &Standing,
) -> Result<(), NoMemory>
    requires { session_at conn (server_state_of context.old).sessions ≡ None }
    ensures ok { OnOk result (step_of context.new ≡ acted written_item (ready_stanza written_item conn account read.now standing.now (server_state_of context.old)) (step_of context.old)) }
    ensures err { OnErr result (step_of context.new ≡ step_of context.old) }
{
    match read {
        Ok(Stanza::Iq(iq)) => match iq.kind {
            IqKind::Set => on_ready_set(context, conn, account, iq, standing),
            _ => context.end_with(conn, StreamCondition::NotAuthorized, standing),
        },
        _ => context.end_with(conn, StreamCondition::NotAuthorized, standing),
    }
}

// Ready: an element, where no session is on the connection.
fn on_ready(
    context: &mut ServerContext,
    conn: u64,
    account: u32,
    word: &Word,
    standing: &Standing,
) -> Result<(), NoMemory>
    requires { session_at conn (server_state_of context.old).sessions ≡ None }
    ensures ok { OnOk result (step_of context.new ≡ acted written_item (at_ready written_item conn account word.now standing.now (server_state_of context.old)) (step_of context.old)) }
    ensures err { OnErr result (step_of context.new ≡ step_of context.old) }
{
    match word {
        Word::Stanza { read, .. } => on_ready_stanza(context, conn, account, read, standing),
        Word::Resume { previd, h } => on_resume(context, conn, account, previd.as_str(), *h),
        Word::Enable { .. } | Word::Request | Word::Ack { .. } => {
            refuse(context, conn, Condition::UnexpectedRequest)
        }
        _ => context.on_any(conn, word, standing),
    }
}

// Bound: an element.
fn on_bound(
    context: &mut ServerContext,
    conn: u64,
    word: &Word,
    told: &SessionInfo,
    standing: &Standing,
) -> Result<(), NoMemory>
    requires { Some told.now ≡ info_of told.now.number (server_state_of context.old).sessions }
    ensures ok { OnOk result (step_of context.new ≡ acted written_item (at_bound written_item conn word.now told.now standing.now (server_state_of context.old)) (step_of context.old)) }
    ensures err { OnErr result (step_of context.new ≡ step_of context.old) }
{
    match word {
        Word::Stanza { long, read } => on_stanza(context, conn, *long, read, told, standing),
        Word::Enable { resume } => on_enable(context, conn, told, *resume),
        Word::Request => on_request(context, conn, told),
        Word::Ack { h } => on_ack(context, conn, told, *h),
        Word::Resume { .. } => refuse(context, conn, Condition::UnexpectedRequest),
        _ => context.on_any(conn, word, standing),
    }
}

/// An element on a connection behind its login, to an account; `conn` is the connection's number, and `standing` where it
/// stands. What happens is put out, and all of it goes by whether a session is on the connection.
///
/// Where none is (RFC 6120, section 7), an `iq` of type `set` with a `bind` binds one, and `resume` resumes one (XEP-0198,
/// section 5); any other stanza ends the stream with `not-authorized`. Where one is, its stanzas are judged, counted and
/// handled (RFC 6120, section 8), and stanzas are acknowledged (XEP-0198, section 4). What is left of stream management is
/// refused, and all else goes as by `ServerContext::on_any`.
///
/// `NoMemory` comes only where memory runs out, where no number is left for a session or its queue, or where one message
/// would go out more than 4,294,967,295 times. It leaves the state and the outputs as they were.
#[tactic(auto, using(srv_state::proofs::InfoFacts::untold))]
pub fn on_ready_or_bound(
    context: &mut ServerContext,
    conn: u64,
    account: u32,
    word: &Word,
    standing: &Standing,
) -> Result<(), NoMemory>
    ensures ok { OnOk result (step_of context.new ≡ acted written_item (at_ready_or_bound written_item conn account word.now (option_map told_by (session_at conn (server_state_of context.old).sessions)) standing.now (server_state_of context.old)) (step_of context.old)) }
    ensures err { OnErr result (step_of context.new ≡ step_of context.old) }
{
    match context.live.info_at(conn) {
        Some(told) => on_bound(context, conn, word, &told, standing),
        None => on_ready(context, conn, account, word, standing),
    }
}
