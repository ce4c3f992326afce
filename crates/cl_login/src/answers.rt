//! What a login answers to an item.
ghost use Rattle.std.specs.Prelude.{◌≡◌, Ok, IfErr, IfOk};
ghost use Rattle.cl_login.specs.LoginRows;
ghost use Rattle.cl_login.specs.Puts.{seen, spelled};

use crate::login_fault::LoginFault;
use crate::login_state::LoginState;
use base_io::{Bytes, NoMemory};
use std::alloc::Global;

/// How a login goes on.
#[derive(Drop)]
pub enum Next {
    /// The next item is awaited.
    Goes(LoginState),
    /// The login is done, and the features of the second stream are awaited.
    LoggedIn,
    /// The login is given up, and the connection is to be left.
    Ends(LoginFault),
}

/// What a login answers to an item: the bytes that go out, and how it goes on.
#[derive(Drop)]
pub struct Answer {
    pub bytes: Bytes,
    pub next: Next,
}

/// Memory ran out, and the item isn't taken: the state as it was.
#[derive(Drop)]
pub struct NotTaken {
    pub state: LoginState,
}

impl From<NotTaken> for NoMemory {
    fn from(_not_taken: NotTaken) -> NoMemory {
        NoMemory
    }
}

/// An end by a fault. Nothing goes out.
pub(crate) fn ends(alloc: Global, fault: LoginFault) -> Answer
    ensures { seen result ≡ spelled (LoginRows.ends fault) }
{
    Answer {
        bytes: Bytes::new(alloc),
        next: Next::Ends(fault),
    }
}

/// Bytes that go out, and the state behind them.
pub(crate) fn sends(bytes: Bytes, state: LoginState) -> Answer
    ensures { seen result ≡ record { bytes = bytes.items; next = Next.Goes state } }
{
    Answer {
        bytes,
        next: Next::Goes(state),
    }
}

/// An answer, or the state that it wasn't made in.
pub(crate) fn or_not_taken(
    answer: Result<Answer, NoMemory>,
    state: LoginState,
) -> Result<Answer, NotTaken>
    ensures ok { IfOk result (λ a. answer ≡ Ok a) }
    ensures err { IfErr result (λ e. e.state ≡ state) }
{
    match answer {
        Ok(answer) => Ok(answer),
        Err(NoMemory) => Err(NotTaken { state }),
    }
}
