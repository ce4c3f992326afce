//! The binding of a resource (RFC 6120, section 7).
//!
//! Where the numbers of sessions or queues are used up, a binding answers `NoMemory`; so do a message to more than
//! 4,294,967,295 sessions and an accounts file with as many accounts.
ghost use Rattle.std.specs.Prelude.{◌≡◌, [], ◌∷◌, None, Some, IfOk, OnErr, OnOk};
ghost use Rattle.std.specs.Result.{result_ok};
ghost use Rattle.base_lemmas.specs.Hexadecimal.{hex16_of};
ghost use Rattle.im_jid.specs.Forms.{resource_form};
ghost use Rattle.sm_live.specs.Sessions.{session_at};
ghost use Rattle.srv_handlers.specs.Bindings;
ghost use Rattle.srv_handlers.specs.Bindings.{asked_resource, at_bind, binding_as, chosen};
ghost use Rattle.srv_state.specs.Seen.{server_state_of, step_of};
ghost use Rattle.srv_state.specs.Steps.{Say, acted};
ghost use Rattle.im_replies.specs.Requests.{iq_error_item};
ghost use Rattle.xml_trees.specs.Views.{elem_view};
ghost use Rattle.xml_writer.specs.Items.{written_item};

use base_io::{NoMemory, Text};
use base_lemmas::hex16;
use im_jid::{JidFault, resource_in_normal_form};
use im_payload::{BINDING, child_text_or_empty};
use im_replies::{Envelope, StreamCondition, bound, footer, refusal, stream_error};
use im_stanza::{Condition, ErrorKind, StanzaError};
use sm_resumption::Ended;
use srv_state::ServerContext;
use std::alloc::Global;
use xml_trees::Element;

// The resource that the server chooses for a session.
fn own_resource(alloc: Global, number: u64) -> Result<Text, NoMemory>
    ensures { IfOk result (λ text. text ≡ 114 ∷ hex16_of number) }
{
    match str::from_utf8(&hex16(number)) {
        Ok(digits) => Ok(Text::from(format!(in alloc; "r{digits}")?)),
        Err(_) => unreachable!(),
    }
}

// A resource in normal form. `None` where it has none.
fn normal_resource(alloc: Global, given: &str) -> Result<Option<Text>, NoMemory>
    ensures { IfOk result (λ resource. resource ≡ result_ok (resource_form given.now)) }
{
    match resource_in_normal_form(alloc, given) {
        Ok(form) => Ok(Some(form)),
        Err(JidFault::NoMemory) => Err(NoMemory),
        Err(_) => Ok(None),
    }
}

// The resource of a session with a number. `None` where what is asked for is none.
fn chosen_resource(alloc: Global, number: u64, asked: &str) -> Result<Option<Text>, NoMemory>
    ensures { IfOk result (λ resource. resource ≡ result_ok (chosen number asked.now)) }
{
    if asked.is_empty() {
        Ok(Some(own_resource(alloc, number)?))
    } else {
        normal_resource(alloc, asked)
    }
}

fn bad_request() -> StanzaError
    ensures { result ≡ Bindings.bad_request }
{
    StanzaError {
        kind: ErrorKind::Modify,
        condition: Condition::BadRequest,
    }
}

// The connection of a session that ended.
fn former_of(ended: Option<Ended>) -> Option<u64>
    ensures { result ≡ Bindings.former_of ended }
{
    match ended {
        Some(ended) => ended.conn,
        None => None,
    }
}

// A resource that is none.
fn refuse_bind(context: &mut ServerContext, conn: u64, id: &str) -> Result<(), NoMemory>
    ensures ok { OnOk result (step_of context.new ≡ acted written_item (Say conn (written_item (iq_error_item (record { from = None; to = None; id = id.now }) Bindings.bad_request)) ∷ []) (step_of context.old)) }
    ensures err { OnErr result (step_of context.new ≡ step_of context.old) }
{
    context.out.reserve(1)?;
    let envelope = Envelope {
        from: None,
        to: None,
        id,
    };
    let answer = refusal(context.alloc, &envelope, &bad_request())?;
    context.put(conn, answer);
    Ok(())
}

// A session is bound, and the older one with its name ends.
fn bind_session(
    context: &mut ServerContext,
    conn: u64,
    account: u32,
    id: &str,
    resource: Text,
) -> Result<(), NoMemory>
    requires { session_at conn (server_state_of context.old).sessions ≡ None }
    ensures ok { OnOk result (step_of context.new ≡ acted written_item (binding_as written_item conn account id.now (Some resource) (server_state_of context.old)) (step_of context.old)) }
    ensures err { OnErr result (step_of context.new ≡ step_of context.old) }
{
    context.out.reserve(4)?;
    context.reserve_session(account)?;
    let error = stream_error(context.alloc, StreamCondition::Conflict)?;
    let footer = footer(context.alloc)?;
    let jid = context.full_address(account, resource.as_str())?;
    let answer = bound(context.alloc, id, jid.as_str())?;
    let session = context.live.bind(account, resource, conn);
    context.part_where(former_of(session.ended), error, footer);
    context.put(conn, answer);
    Ok(())
}

/// Ready: an `iq` of type `set` with a child `bind` (RFC 6120, section 7), on a connection that has no session. A session of
/// the account with the resource that `bind` asks for is on the connection from then on, and the answer tells its address.
/// Where none is asked for the resource is `r` and the 16 digits of the session's number (section 7.6). An older session with
/// that resource ends before, and its connection is told `conflict` and shut (section 7.7.2.2). A resource that has no normal
/// form is answered `bad-request` (section 7.7.2.1), and another one can be asked for.
///
/// `NoMemory` also where each number of a session or of a queue was given. A refusal leaves all as it was.
pub fn on_bind(
    context: &mut ServerContext,
    conn: u64,
    account: u32,
    id: &str,
    bind: &Element,
) -> Result<(), NoMemory>
    requires { session_at conn (server_state_of context.old).sessions ≡ None }
    ensures ok { OnOk result (step_of context.new ≡ acted written_item (at_bind written_item conn account id.now (elem_view bind.now) (server_state_of context.old)) (step_of context.old)) }
    ensures err { OnErr result (step_of context.new ≡ step_of context.old) }
{
    let asked = child_text_or_empty(context.alloc, bind, BINDING, "resource")?;
    match chosen_resource(context.alloc, context.live.next_number(), asked.as_str())? {
        Some(resource) => bind_session(context, conn, account, id, resource),
        None => refuse_bind(context, conn, id),
    }
}
