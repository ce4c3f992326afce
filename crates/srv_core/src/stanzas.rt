//! What a session says (RFC 6120, section 8; RFC 6121, section 4).
ghost use Rattle.std.specs.Prelude.{◌≡◌, true, None, Some, IfOk, IsSome, OnErr, OnOk};
ghost use Rattle.std.specs.Option.{option_copied};
ghost use Rattle.sm_live.specs.Sessions.{info_of, session_of};
ghost use Rattle.srv_state.specs.Seen.{server_state_of, step_of};
ghost use Rattle.srv_core.specs.Stanzas;
ghost use Rattle.srv_core.specs.Stanzas.{at_bad_to, at_presence, at_stanza, directing, handling, is_local, is_own, malformed_item, presenting, returning, sender_of, stanza_condition};
ghost use Rattle.srv_state.specs.Handling.{counting};
ghost use Rattle.srv_state.specs.Steps.{acted};
ghost use Rattle.xml_writer.specs.Items.{written_item};

use base_io::{Bytes, NoMemory};
use im_jid::Jid;
use im_replies::{Envelope, StreamCondition, bounced, bounced_presence, refusal};
use im_stanza::{Condition, ErrorKind, Presence, PresenceKind, Stanza, StanzaError, StanzaFault};
use sm_live::SessionInfo;
use srv_handlers::{on_iq, on_message};
use srv_state::{ServerContext, Standing};

// Who sent a stanza, as it says.
fn sender_of(stanza: &Stanza) -> Option<&Jid>
    ensures { option_copied result ≡ sender_of stanza.now }
{
    match stanza {
        Stanza::Message(message) => message.from.as_ref(),
        Stanza::Presence(presence) => presence.from.as_ref(),
        Stanza::Iq(iq) => iq.from.as_ref(),
    }
}

fn malformed() -> StanzaError
    ensures { result ≡ Stanzas.malformed }
{
    StanzaError {
        kind: ErrorKind::Modify,
        condition: Condition::JidMalformed,
    }
}

fn not_found() -> StanzaError
    ensures { result ≡ Stanzas.not_found }
{
    StanzaError {
        kind: ErrorKind::Cancel,
        condition: Condition::RemoteServerNotFound,
    }
}

// ---- what ends the stream

// Whether a stanza is from the session that sent it.
fn is_own(context: &ServerContext, from: Option<&Jid>, told: &SessionInfo) -> Result<bool, NoMemory>
    ensures { IfOk result (λ own. own ≡ is_own (option_copied from.entry) told.now (server_state_of context.now)) }
{
    let Some(from) = from else {
        return Ok(true);
    };
    let bare = context.bare_address(told.account)?;
    let full = context.session_address(told.number)?;
    Ok(from.text() == bare.as_str() || from.text() == full.as_str())
}

// The condition that a stanza ends the stream with, where it does.
fn stanza_condition(
    context: &ServerContext,
    read: &Result<Stanza, StanzaFault>,
    told: &SessionInfo,
) -> Result<Option<StreamCondition>, NoMemory>
    ensures { IfOk result (λ condition. condition ≡ stanza_condition read.now told.now (server_state_of context.now)) }
{
    let own = match read {
        Ok(stanza) => is_own(context, sender_of(stanza), told)?,
        Err(StanzaFault::BadTo { from, .. }) => is_own(context, from.as_ref(), told)?,
        Err(StanzaFault::BadFrom) => false,
        Err(_) => return Ok(Some(StreamCondition::BadFormat)),
    };
    if own {
        Ok(None)
    } else {
        Ok(Some(StreamCondition::InvalidFrom))
    }
}

// ---- what is handled

// A presence for all tells whether the session is available.
fn announce(context: &mut ServerContext, presence: &Presence, told: &SessionInfo)
    requires { IsSome (session_of told.now.number (server_state_of context.old).sessions) }
    ensures { step_of context.new ≡ acted written_item (presenting written_item None presence.now.kind presence.now told.now (server_state_of context.old)) (step_of context.old) }
{
    match presence.kind {
        PresenceKind::Available => {
            context
                .live
                .set_presence(told.number, true, presence.priority);
        }
        PresenceKind::Unavailable => {
            context
                .live
                .set_presence(told.number, false, presence.priority);
        }
        PresenceKind::Error | PresenceKind::Other => {}
    }
}

// A presence for all counts, and then tells.
#[tactic(auto, using(crate::proofs::Counted::counted_first))]
fn on_announcement(context: &mut ServerContext, presence: &Presence, told: &SessionInfo)
    requires { Some told.now ≡ info_of told.now.number (server_state_of context.old).sessions }
    ensures { step_of context.new ≡ acted written_item (counting told.now (presenting written_item None presence.now.kind presence.now told.now (server_state_of context.old))) (step_of context.old) }
{
    context.count(told);
    announce(context, presence, told);
}

// A presence to an address of another domain comes back, unless it is an error or tells that its sender is gone.
fn on_foreign(
    context: &mut ServerContext,
    presence: &Presence,
    to: &Jid,
    told: &SessionInfo,
) -> Result<(), NoMemory>
    requires { Some told.now ≡ info_of told.now.number (server_state_of context.old).sessions }
    ensures ok { OnOk result (step_of context.new ≡ acted written_item (counting told.now (returning written_item presence.now.kind to.now presence.now told.now)) (step_of context.old)) }
    ensures err { OnErr result (step_of context.new ≡ step_of context.old) }
{
    match presence.kind {
        PresenceKind::Available | PresenceKind::Other => {
            let id = presence.id.as_str();
            let answer = bounced_presence(context.alloc, to.text(), id, &not_found())?;
            context.reply(told, answer)
        }
        PresenceKind::Unavailable | PresenceKind::Error => {
            context.count(told);
            Ok(())
        }
    }
}

// A presence to an address.
fn on_directed(
    context: &mut ServerContext,
    presence: &Presence,
    to: &Jid,
    told: &SessionInfo,
) -> Result<(), NoMemory>
    requires { Some told.now ≡ info_of told.now.number (server_state_of context.old).sessions }
    ensures ok { OnOk result (step_of context.new ≡ acted written_item (counting told.now (directing written_item (is_local to.now (server_state_of context.old)) presence.now.kind to.now presence.now told.now)) (step_of context.old)) }
    ensures err { OnErr result (step_of context.new ≡ step_of context.old) }
{
    if to.domain() == context.domain.as_str() {
        context.count(told);
        return Ok(());
    }
    on_foreign(context, presence, to, told)
}

// A presence.
fn on_presence(
    context: &mut ServerContext,
    presence: &Presence,
    told: &SessionInfo,
) -> Result<(), NoMemory>
    requires { Some told.now ≡ info_of told.now.number (server_state_of context.old).sessions }
    ensures ok { OnOk result (step_of context.new ≡ acted written_item (counting told.now (at_presence written_item presence.now told.now (server_state_of context.old))) (step_of context.old)) }
    ensures err { OnErr result (step_of context.new ≡ step_of context.old) }
{
    match &presence.to {
        Some(to) => on_directed(context, presence, to, told),
        None => {
            on_announcement(context, presence, told);
            Ok(())
        }
    }
}

// The answer to a `to` that is no address.
fn malformed_answer<'a>(
    context: &ServerContext,
    message: bool,
    id: &'a str,
    to: &'a str,
    told: &SessionInfo,
) -> Result<Bytes, NoMemory>
    ensures { IfOk result (λ b. b.items ≡ written_item (malformed_item message id.now to.now told.now (server_state_of context.now))) }
{
    if message {
        return bounced(context.alloc, to, id, &malformed());
    }
    let full = context.session_address(told.number)?;
    let envelope = Envelope {
        from: Some(to),
        to: Some(full.as_str()),
        id,
    };
    refusal(context.alloc, &envelope, &malformed())
}

// A `to` that is no address, where an error is due.
fn on_bad_to(
    context: &mut ServerContext,
    message: bool,
    id: &str,
    to: &str,
    told: &SessionInfo,
) -> Result<(), NoMemory>
    requires { Some told.now ≡ info_of told.now.number (server_state_of context.old).sessions }
    ensures ok { OnOk result (step_of context.new ≡ acted written_item (counting told.now (at_bad_to written_item message true id.now to.now told.now (server_state_of context.old))) (step_of context.old)) }
    ensures err { OnErr result (step_of context.new ≡ step_of context.old) }
{
    let answer = malformed_answer(context, message, id, to, told)?;
    context.reply(told, answer)
}

// A stanza that is handled.
fn handle(
    context: &mut ServerContext,
    read: &Result<Stanza, StanzaFault>,
    told: &SessionInfo,
) -> Result<(), NoMemory>
    requires { Some told.now ≡ info_of told.now.number (server_state_of context.old).sessions }
    ensures ok { OnOk result (step_of context.new ≡ acted written_item (counting told.now (handling written_item read.now told.now (server_state_of context.old))) (step_of context.old)) }
    ensures err { OnErr result (step_of context.new ≡ step_of context.old) }
{
    match read {
        Ok(Stanza::Message(message)) => on_message(context, message, told),
        Ok(Stanza::Presence(presence)) => on_presence(context, presence, told),
        Ok(Stanza::Iq(iq)) => on_iq(context, iq, told),
        Err(
            StanzaFault::BadTo {
                message,
                reply: true,
                id,
                to,
                ..
            },
        ) => on_bad_to(context, *message, id.as_str(), to.as_str(), told),
        Err(_) => {
            context.count(told);
            Ok(())
        }
    }
}

// Bound: a stanza.
pub(crate) fn on_stanza(
    context: &mut ServerContext,
    conn: u64,
    long: bool,
    read: &Result<Stanza, StanzaFault>,
    told: &SessionInfo,
    standing: &Standing,
) -> Result<(), NoMemory>
    requires { Some told.now ≡ info_of told.now.number (server_state_of context.old).sessions }
    ensures ok { OnOk result (step_of context.new ≡ acted written_item (at_stanza written_item conn long read.now told.now standing.now (server_state_of context.old)) (step_of context.old)) }
    ensures err { OnErr result (step_of context.new ≡ step_of context.old) }
{
    if long {
        return context.end_with(conn, StreamCondition::PolicyViolation, standing);
    }
    match stanza_condition(context, read, told)? {
        Some(condition) => context.end_with(conn, condition, standing),
        None => handle(context, read, told),
    }
}
