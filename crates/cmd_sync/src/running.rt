//! A script is done.
ghost use Rattle.std.specs.Prelude.{◌≡◌, false, IfErr, IfOk, IsTrue, Ok, OnOk};
ghost use Rattle.std.specs.List.{list_all};
ghost use Rattle.cl_core.specs.Making.{made};
ghost use Rattle.cl_core.specs.declared.faults.ClientFault.TheVariants.{NoMemory as NoRoom};
ghost use Rattle.cmd_sync.specs.Texts.{synced_text};
ghost use Rattle.cmd_sync.specs.Scripts.{may_do, may_log_in};
ghost use Rattle.cmd_sync.specs.Courses.{begun, is_awaiting};
ghost use Rattle.cmd_sync.specs.Syncs.{IsOutcome, IsRead, IsSynced, IsTold, IsUnread, IsUnrun, IsWhy};
ghost use Rattle.cmd_sync.specs.Talks.{DialerView};
ghost use Rattle.cmd_sync.specs.Views.{course_step_of};
ghost use Rattle.cmd_sync.specs.declared.stage.Stage.TheVariants.{Done};

use crate::progress::Course;
use crate::reading::read_script;
use crate::script::{Script, Steps, User};
use crate::script_fault::ScriptFault;
use crate::stage::Stage;
use crate::sync_fault::{Stop, SyncFault};
use crate::synced::synced_text;
use crate::talk::call;
use base_io::{Bytes, NoMemory};
use cl_core::{Client, ClientFault};
use net_traits::{Dialer, Entropy};
use std::alloc::Global;

/// The most bytes that a script takes of its server. The piece that passes them is not looked at.
pub const MOST_RECEIVED: u64 = 67_108_864;

// No other refusal comes of an account that may log in.
fn want_of_memory(fault: ClientFault) -> NoMemory
    requires { fault ≡ NoRoom }
{
    NoMemory
}

// A client of an account that may log in.
fn client_of(alloc: Global, user: &User) -> Result<Client, NoMemory>
    requires { IsTrue (may_log_in user.now) }
    ensures { IfOk result (λ client. made user.now.address user.now.password user.now.resource ≡ Ok client) }
{
    let made = Client::new(
        alloc,
        &user.address,
        user.password.as_str(),
        user.resource.as_str(),
    );
    match made {
        Ok(client) => Ok(client),
        Err(fault) => Err(want_of_memory(fault)),
    }
}

// What a course came to that is over: the text of the log, or the failure.
fn outcome(alloc: Global, course: &Course) -> Result<Bytes, SyncFault>
    requires { is_awaiting course.now.stage ≡ false }
    ensures done { OnOk result (course.now.stage ≡ Done) }
    ensures text { IfOk result (λ text. text.items ≡ synced_text course.now.client.client.log) }
    ensures err { IfErr result (λ fault. IsOutcome fault course.now.stage) }
{
    match &course.stage {
        Stage::Done => Ok(synced_text(alloc, course.client.log())?),
        Stage::Failed(failure) => Err(SyncFault::Peer(*failure)),
        Stage::Awaits(_) => unreachable!(),
    }
}

// A course that has begun is done over a connection.
#[tactic(none)]
fn through<D: Dialer>(
    alloc: Global,
    dialer: &mut D,
    port: u16,
    course: &mut Course,
    first: &[u8],
) -> Result<Bytes, SyncFault>
    requires { course.old.total ≡ 0 }
    ensures ok { let before : DialerView = record { faults = D.faults dialer.old; ends = D.ends dialer.old; handed = D.handed dialer.old; given = D.given dialer.old } in
        let after : DialerView = record { faults = D.faults dialer.new; ends = D.ends dialer.new; handed = D.handed dialer.new; given = D.given dialer.new } in
        IfOk result (λ text. IsTold (course_step_of course.old first.now) before after text.items) }
    ensures err { let before : DialerView = record { faults = D.faults dialer.old; ends = D.ends dialer.old; handed = D.handed dialer.old; given = D.given dialer.old } in
        let after : DialerView = record { faults = D.faults dialer.new; ends = D.ends dialer.new; handed = D.handed dialer.new; given = D.given dialer.new } in
        IfErr result (λ fault. IsUnrun fault (course_step_of course.old first.now) before after) }
{
    match call(alloc, dialer, port, course, first) {
        Ok(()) => match outcome(alloc, course) {
            Ok(text) => Ok(text),
            Err(fault) => Err(fault),
        },
        Err(Stop::Link(failure)) => Err(SyncFault::Link(failure)),
        Err(Stop::NoMemory) => Err(SyncFault::NoMemory),
    }
}

// A course is over. Its drop has many branches: they stay in here.
fn let_go(_course: Course) {}

// The steps of a script are done by a client, with the bytes that were drawn.
#[tactic(none)]
fn run<D: Dialer>(
    alloc: Global,
    dialer: &mut D,
    port: u16,
    client: Client,
    drawn: &[u8; 24],
    steps: Steps,
) -> Result<Bytes, SyncFault>
    requires { IsTrue (list_all may_do steps.items) }
    ensures ok { let before : DialerView = record { faults = D.faults dialer.old; ends = D.ends dialer.old; handed = D.handed dialer.old; given = D.given dialer.old } in
        let after : DialerView = record { faults = D.faults dialer.new; ends = D.ends dialer.new; handed = D.handed dialer.new; given = D.given dialer.new } in
        IfOk result (λ text. IsTold (begun client drawn.now steps.items) before after text.items) }
    ensures err { let before : DialerView = record { faults = D.faults dialer.old; ends = D.ends dialer.old; handed = D.handed dialer.old; given = D.given dialer.old } in
        let after : DialerView = record { faults = D.faults dialer.new; ends = D.ends dialer.new; handed = D.handed dialer.new; given = D.given dialer.new } in
        IfErr result (λ fault. IsUnrun fault (begun client drawn.now steps.items) before after) }
{
    let (mut course, first) = match Course::begin(alloc, client, drawn, steps) {
        Ok(begun) => begun,
        Err(NoMemory) => return Err(SyncFault::NoMemory),
    };
    let answer = through(alloc, dialer, port, &mut course, first.as_slice());
    let_go(course);
    answer
}

// The account and the steps of a script.
fn read(alloc: Global, text: &[u8]) -> Result<(User, Steps), SyncFault>
    ensures ok { IfOk result (λ read. IsRead text.now read.0 read.1.items) }
    ensures err { IfErr result (λ fault. IsUnread fault text.now) }
{
    match read_script(alloc, text) {
        Ok(script) => {
            let Script { user, steps } = script;
            Ok((user, steps))
        }
        Err(ScriptFault::BadLine { line, why }) => Err(SyncFault::BadLine { line, why }),
        Err(ScriptFault::NoMemory) => Err(SyncFault::NoMemory),
    }
}

/// Does a script over one connection to a port of this machine: it dials, logs in, does each step, which is waited for, and
/// closes the stream. The answer is the text of the log: its pages, its entries, and what is held.
///
/// A message is done once the server has acknowledged it (XEP-0198, section 4), and a catch-up once its last page was taken over
/// (XEP-0313, section 4). A link that was handed out is given back, whatever comes.
///
/// The refusals, in the order in which they may come: `BadLine` where the bytes are no script's text, of which nothing is done;
/// `Entropy` where no random bytes were drawn; `Link` where no connection was made, a read or a write failed, or the
/// connection ended before all was done, with which of them it was; `Peer` where the connection was left for a fault of the server, a catch-up ended before
/// its last page, the client refused a step, or more than `MOST_RECEIVED` bytes came, each before all was done. Bytes that can't
/// be written come before what the piece in hand says. `NoMemory` may come in place of any answer.
#[tactic(none)]
pub fn sync<D: Dialer, E: Entropy>(
    alloc: Global,
    script: &[u8],
    port: u16,
    dialer: &mut D,
    entropy: &mut E,
) -> Result<Bytes, SyncFault>
    ensures ok { let before : DialerView = record { faults = D.faults dialer.old; ends = D.ends dialer.old; handed = D.handed dialer.old; given = D.given dialer.old } in
        let after : DialerView = record { faults = D.faults dialer.new; ends = D.ends dialer.new; handed = D.handed dialer.new; given = D.given dialer.new } in
        IfOk result (λ text. IsSynced script.now (E.drawn entropy.old) (E.drawn entropy.new) before after text.items) }
    ensures quiet { OnOk result (E.faults entropy.new ≡ E.faults entropy.old) }
    ensures err { let before : DialerView = record { faults = D.faults dialer.old; ends = D.ends dialer.old; handed = D.handed dialer.old; given = D.given dialer.old } in
        let after : DialerView = record { faults = D.faults dialer.new; ends = D.ends dialer.new; handed = D.handed dialer.new; given = D.given dialer.new } in
        IfErr result (λ fault. IsWhy fault script.now (E.drawn entropy.old) (E.drawn entropy.new) (E.faults entropy.old) (E.faults entropy.new) before after) }
{
    let (user, steps) = match read(alloc, script) {
        Ok(read) => read,
        Err(fault) => return Err(fault),
    };
    let mut drawn = [0u8; 24];
    match entropy.fill(&mut drawn) {
        Ok(()) => {}
        Err(_) => return Err(SyncFault::Entropy),
    }
    let client = match client_of(alloc, &user) {
        Ok(client) => client,
        Err(NoMemory) => return Err(SyncFault::NoMemory),
    };
    run(alloc, dialer, port, client, &drawn, steps)
}
