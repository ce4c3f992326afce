//! Submissions of the user (RFC 6121, section 5.2).
ghost use Rattle.std.specs.Prelude.{◌≡◌, ◌⊎◌, Err, IfOk, IsSome, OnErr, OnOk};
ghost use Rattle.cl_handlers.specs.Acks.{HasFewer};
ghost use Rattle.cl_core.specs.Asking.{queues_in};
ghost use Rattle.cl_handlers.specs.Speech.{in_bytes};
ghost use Rattle.cl_core.specs.UserCalls.{is_bad_text, say_answer, says, submission_of};
ghost use Rattle.cl_handlers.specs.Views.{client_of, client_step_of};
ghost use Rattle.im_replies.specs.Management.{request_text};
ghost use Rattle.xml_writer.specs.Items.{written_item};

use crate::faults::SayFault;
use crate::replacing::put_session;
use base_io::{Bytes, NoMemory, Text};
use cl_handlers::{ClientOut, ClientState};
use im_replies::request;
use im_requests::{Submission, submitted};
use sm_outbox::origin_of;
use std::alloc::Global;
use xml_tokens::are_characters;

/// So many stanzas may wait where the user adds one.
pub const OUTBOX_BOUND: u64 = 1_000;

// The most bytes of a submission's text.
const MOST_TEXT: usize = 10_000;

// Whether a text can't be sent.
fn is_bad_text(text: &str) -> bool
    ensures { result ≡ is_bad_text text.now }
{
    text.is_empty() || text.len() > MOST_TEXT || !are_characters(text.as_bytes())
}

// The number of the next submission, or why there is none.
fn next(state: &ClientState, text: &str) -> Result<u64, SayFault>
    ensures value { result ≡ say_answer (client_of state.now) text.now }
    ensures bound { OnOk result (IsSome (client_of state.now).session) }
    ensures few { OnOk result (HasFewer 1000 (client_of state.now).session) }
{
    if is_bad_text(text) {
        return Err(SayFault::BadText);
    }
    let Some(session) = &state.session else {
        return Err(SayFault::NotBound);
    };
    if session.len() >= OUTBOX_BOUND {
        return Err(SayFault::OutboxFull);
    }
    Ok(state.said.next_number())
}

// The next submission as it is put.
fn spelled<'a>(
    state: &ClientState,
    alloc: Global,
    to: &'a str,
    text: &'a str,
    private: bool,
) -> Result<Bytes, NoMemory>
    ensures { IfOk result (λ bytes. bytes.items ≡ written_item (submission_of (client_of state.now) to.now text.now private)) }
{
    let resource = state.account.resource.as_str();
    let id = origin_of(
        alloc,
        resource,
        state.said.epoch(),
        state.said.next_number(),
    )?;
    let given = Submission {
        id: id.as_str(),
        to,
        text,
        private,
    };
    submitted(alloc, &given)
}

// Puts a submission, where the session's queue has place.
fn submit(
    state: &mut ClientState,
    stanza: Bytes,
    request: &[u8],
    out: &mut ClientOut,
) -> Result<(), NoMemory>
    requires few { HasFewer 1000 (client_of state.old).session }
    requires request { request.now ≡ request_text }
    ensures ok { OnOk result (client_step_of state.new out.new ≡ queues_in in_bytes (client_step_of state.old out.old) (client_of state.old).session stanza.items) }
    ensures err { OnErr result (client_step_of state.new out.new ≡ client_step_of state.old out.old) }
    ensures said { state.new.said ≡ state.old.said }
{
    let is_attached = state.is_online();
    let Some(mut session) = state.session.take() else {
        return Ok(());
    };
    let put = session.submit(stanza, request, is_attached, &mut out.bytes);
    put_session(&mut state.session, session);
    put
}

/// Submits a message, and answers its number. A refusal leaves all as it was.
#[tactic(auto, using(crate::proofs::UserSteps::submitted))]
pub(crate) fn say(
    state: &mut ClientState,
    alloc: Global,
    to: &str,
    text: &str,
    private: bool,
    out: &mut ClientOut,
) -> Result<u64, SayFault>
    ensures exact { (result ≡ Err SayFault.NoMemory) ⊎ (result ≡ say_answer (client_of state.old) text.now) }
    ensures ok { OnOk result (client_step_of state.new out.new ≡ says in_bytes (client_step_of state.old out.old) to.now text.now private) }
    ensures err { OnErr result (client_step_of state.new out.new ≡ client_step_of state.old out.old) }
{
    let n = next(state, text)?;
    let stanza = spelled(state, alloc, to, text, private)?;
    let request = request(alloc)?;
    let said_to = Text::from_str(alloc, to)?;
    let said = Text::from_str(alloc, text)?;
    state.said.reserve()?;
    submit(state, stanza, request.as_slice(), out)?;
    state.said.say_reserved(said_to, said, private);
    Ok(n)
}
