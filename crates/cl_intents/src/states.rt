//! What is known of a try.
ghost use Rattle.std.specs.Prelude.{◌≡◌, ℕ, List};
ghost use Rattle.sm_outbox.specs.Submissions.{all_said};
ghost use Rattle.cl_intents.specs.States;
ghost use Rattle.cl_intents.specs.States.{is_said};

use crate::intents::Try;
use crate::log_entries::{has_hole, is_logged};
use cl_core::Client;
use sm_outbox::{Said, SaidState};

/// What is known of an intent, by its last try.
#[derive(Clone, Copy, Debug, PartialEq, Eq)]
pub enum IntentState {
    /// It has no try.
    Fresh,
    /// The server acknowledged the try (XEP-0198, section 4), or its entry was logged after it.
    Done,
    /// The try waits in the queue of the session.
    Waiting,
    /// No complete page was asked for since a later session began.
    Undecided,
    /// The log has a hole after the try: its entry may have been purged.
    Unsure,
    /// It is none of these: the server has not taken the try, and never will.
    Absent,
}

fn is_acknowledged(state: SaidState) -> bool
    ensures { result ≡ States.is_acknowledged state }
{
    match state {
        SaidState::Acknowledged => true,
        SaidState::Waiting => false,
        SaidState::Undecided => false,
    }
}

fn is_waiting(state: SaidState) -> bool
    ensures { result ≡ States.is_waiting state }
{
    match state {
        SaidState::Acknowledged => false,
        SaidState::Waiting => true,
        SaidState::Undecided => false,
    }
}

// The try's submission is acknowledged.
fn is_said_acknowledged(said: &[Said], last: Try) -> bool
    ensures { result ≡ is_said States.is_acknowledged last said.now }
{
    said.iter().any(|s| s.epoch == last.epoch && s.n == last.n && is_acknowledged(s.state))
}

// It waits.
fn is_said_waiting(said: &[Said], last: Try) -> bool
    ensures { result ≡ is_said States.is_waiting last said.now }
{
    said.iter().any(|s| s.epoch == last.epoch && s.n == last.n && is_waiting(s.state))
}

/// What is known of a try of the device with a full address, where an epoch is sure.
pub(crate) fn state_of(full: &str, sure: u64, client: &Client, last: Try) -> IntentState
    ensures { result ≡ States.state_of full.now sure client.now.client last }
{
    let said = client.said();
    let entries = client.log().entries();
    if is_said_acknowledged(said, last) || is_logged(full, last, entries) {
        IntentState::Done
    } else if is_said_waiting(said, last) {
        IntentState::Waiting
    } else if sure <= last.epoch {
        IntentState::Undecided
    } else if has_hole(last.logged, entries) {
        IntentState::Unsure
    } else {
        IntentState::Absent
    }
}
