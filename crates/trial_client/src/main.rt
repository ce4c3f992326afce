//! The program `trial_client`: the clients that the lines of standard input tell of take what a server sent, and what
//! they put is written. So recorded sessions of another client are compared with this one (`tools/client-sessions`). Lines:
//! `client ADDRESS PASSWORD RESOURCE`, a client before its first connection; `dial HEX`, with 24 bytes; `piece HEX`, bytes of
//! the server; `gone`; `say ADDRESS TEXT`; `catchup MAX`; `close`; and `end`, at which a line has the bytes that the client
//! put in all, in hexadecimal. Statuses: 0; 2 where a line is none of these; 5 where input or output failed; 6 where memory
//! ran out; 8 where a call of the client was refused.
#![tactic(auto)]

mod fields;
mod follow;
mod steps;
mod stop;

use crate::follow::follow;
use std::process::ExitCode;

fn main(rt: HostRuntime) -> ExitCode {
    match follow(&rt) {
        Ok(()) => ExitCode::from(0),
        Err(stop) => ExitCode::from(stop.status()),
    }
}
