//! The program `xmpp`: it replays a schedule of messages and writes what came of it, checks a stream, does again what a
//! server did, runs a schedule made of two numbers, serves connections, or does a script as a client.
#![tactic(auto)]

use base_io::{NoMemory, StdSink, StdSource};
use cmd_run::{Cause, Outside, USAGE, drop_outside, run};
use net_owner::{Spawner, StdSpawner};
use net_tcp::{OpenCause, SystemClock, SystemEntropy, TcpDialer, TcpHalvesDoor};
use net_traits::{Clock, Dialer, Entropy, Halves};
use std::alloc::{AllocGlobal, Global};
use std::io::Eprint;
use std::process::ExitCode;
use std::rt::Env;
use std::{env, io};

/// The words behind the program's name. There are none where one is not UTF-8.
fn words_of<R: Env + AllocGlobal>(rt: &R) -> Result<Vec<String>, NoMemory> {
    let mut words = Vec::new(rt.alloc());
    match env::args(rt) {
        Ok(args) => {
            for word in args.skip(1) {
                words.push(word)?;
            }
        }
        Err(e) if e.kind() == io::ErrorKind::OutOfMemory => return Err(NoMemory),
        Err(_) => {}
    }
    Ok(words)
}

/// Tells on standard error why a call went out in vain, in one line.
fn tell_cause<R: Eprint>(rt: &R, cause: Cause) {
    match cause {
        Cause::Door => {
            let _ = eprintln!(rt; "xmpp: the door failed");
        }
        Cause::Link(failure) => {
            let _ = eprintln!(rt; "xmpp: {failure}");
        }
        Cause::Peer(failure) => {
            let _ = eprintln!(rt; "xmpp: {failure}");
        }
    }
}

/// The same, where the door or the dialer has something to say of it by that. The status alone tells it where this can't be
/// written.
fn tell<R: Eprint>(rt: &R, cause: Cause, opened: Option<OpenCause>) {
    match opened {
        Some(opened) => {
            let _ = eprintln!(rt; "xmpp: {opened}");
        }
        None => tell_cause(rt, cause),
    }
}

fn main(rt: HostRuntime) -> ExitCode {
    let Ok(words) = words_of(&rt) else {
        return ExitCode::from(6);
    };
    let mut source = StdSource::new(rt.reader());
    let mut sink = StdSink::new(io::writer(&rt));
    let mut outside = Outside {
        door: Some(TcpHalvesDoor::new(rt, rt.alloc())),
        dialer: TcpDialer::new(&rt, rt.alloc()),
        clock: SystemClock::new(&rt),
        entropy: SystemEntropy::new(&rt),
        spawner: StdSpawner::new(rt),
        cause: None,
    };
    let status = run(
        &rt,
        rt.alloc(),
        words.as_slice(),
        &mut source,
        &mut sink,
        &mut outside,
    );
    let opened = match outside.cause {
        Some(Cause::Door) => match &outside.door {
            Some(door) => door.cause(),
            None => None,
        },
        _ => outside.dialer.cause(),
    };
    let cause = outside.cause;
    drop_outside(outside);
    if let Some(cause) = cause {
        tell(&rt, cause, opened);
    }
    if status == 2 {
        // The status alone tells it where this can't be written either.
        let _ = eprintln!(rt; "{USAGE}");
    }
    ExitCode::from(status)
}
