//! What the server holds, and the small changes of it.
//!
//! Each row of the table is a list of small steps (`Act` in `srv_state`), made of the state before the first one. So
//! a law over all rows is an induction over the steps.
ghost use Rattle.std.specs.Prelude.{◌≡◌, ◌+◌, ◌≤◌, Some, OnErr, OnOk};
ghost use Rattle.im_replies.specs.Streams.{footer_text};
ghost use Rattle.srv_state.specs.Moments.{at_moment, gone_at, with_fresh};
ghost use Rattle.srv_state.specs.Seen.{server_state_of, step_of};
ghost use Rattle.srv_state.specs.State.{with_conn};
ghost use Rattle.srv_state.specs.Steps;
ghost use Rattle.srv_state.specs.Steps.{after_failure, in_phase, in_server_state};
ghost use Rattle.srv_state.specs.Streams.{stage_of, standing_at};
ghost use Rattle.xml_writer.specs.Items.{written_item};

use crate::connection::{Connection, Phase, Stage, Standing, Tries};
use crate::output::{Output, Outputs};
use crate::prebuilt::Prebuilt;
use base_io::{Bytes, NoMemory, Text};
use mam_archive::Archive;
use sm_live::Live;
use srv_login::Accounts;
use std::alloc::Global;
use std::collections::BTreeMap;

/// What the server holds, and the outputs of the event in hand. Each row takes all memory first; then calls follow that
/// can't fail.
#[derive(Drop)]
pub struct ServerContext {
    pub alloc: Global,
    pub domain: Text,
    pub accounts: Accounts,
    pub archives: Vec<Archive>,
    pub live: Live,
    pub conns: BTreeMap<u64, Connection>,
    pub moment: u64,
    pub out: Outputs,
    pub prebuilt: Prebuilt,
}

impl Phase {
    /// The phase without the exchange.
    fn stage(&self) -> Stage
        ensures { result ≡ stage_of self.now }
    {
        match self {
            Phase::Start => Stage::Start,
            Phase::Login => Stage::Login,
            Phase::Challenge(_) => Stage::Challenge,
            Phase::Restart { account } => Stage::Restart { account: *account },
            Phase::Ready { account } => Stage::Ready { account: *account },
        }
    }
}

impl ServerContext {
    /// Where a connection stands (RFC 6120, sections 4 to 7). `None` exactly where it isn't open.
    pub fn standing(&self, conn: u64) -> Option<Standing>
        ensures { result ≡ standing_at conn (server_state_of self.now) }
    {
        match self.conns.get(&conn) {
            Some(connection) => Some(Standing {
                stage: connection.phase.stage(),
                tries: connection.tries,
                entropy: connection.entropy,
            }),
            None => None,
        }
    }

    /// Puts bytes out for a connection: the last of the outputs. It takes no memory, and lowers the room for outputs by at
    /// most 1.
    #[tactic(auto, using(crate::proofs::Outputs::outs_push))]
    pub fn put(&mut self, conn: u64, bytes: Bytes)
        requires { 1 ≤ self.old.out.spare }
        ensures step { step_of self.new ≡ Steps.put conn bytes.items (step_of self.old) }
        ensures live { self.new.live ≡ self.old.live }
        ensures prebuilt { self.new.prebuilt ≡ self.old.prebuilt }
        ensures room { self.old.out.spare ≤ self.new.out.spare + 1 }
    {
        self.out.push_reserved(Output::Put { conn, bytes });
    }

    /// Shuts a connection: it is no longer known, the session on it ends, and that is put out. It takes no memory, and
    /// lowers the room for outputs by at most 1.
    #[tactic(auto, using(crate::proofs::Outputs::outs_push))]
    pub fn shut(&mut self, conn: u64)
        requires { 1 ≤ self.old.out.spare }
        ensures step { step_of self.new ≡ Steps.shut conn (step_of self.old) }
        ensures live { self.old.live.room ≤ self.new.live.room }
        ensures reservation { self.new.live.reservation ≡ self.old.live.reservation }
        ensures prebuilt { self.new.prebuilt ≡ self.old.prebuilt }
        ensures room { self.old.out.spare ≤ self.new.out.spare + 1 }
    {
        let _ = self.conns.remove(&conn);
        let _ = self.live.end_at(conn);
        self.out.push_reserved(Output::Shut { conn });
    }

    /// Ends the stream of a connection that got its header (RFC 6120, section 4.9.1): the stream error, the footer, and the
    /// connection is shut. It takes no memory, and lowers the room for outputs by at most 3.
    pub fn part(&mut self, conn: u64, error: Bytes, footer: Bytes)
        requires room { 3 ≤ self.old.out.spare }
        requires footer { footer.items ≡ footer_text }
        ensures step { step_of self.new ≡ Steps.part written_item conn error.items (step_of self.old) }
        ensures live { self.old.live.room ≤ self.new.live.room }
        ensures reservation { self.new.live.reservation ≡ self.old.live.reservation }
        ensures prebuilt { self.new.prebuilt ≡ self.old.prebuilt }
        ensures room { self.old.out.spare ≤ self.new.out.spare + 3 }
    {
        self.put(conn, error);
        self.put(conn, footer);
        self.shut(conn);
    }

    /// A connection stands in another phase. Nothing changes where it isn't open.
    pub fn enter(&mut self, conn: u64, phase: Phase)
        ensures step { step_of self.new ≡ in_server_state (with_conn conn (in_phase phase)) (step_of self.old) }
        ensures live { self.new.live ≡ self.old.live }
        ensures prebuilt { self.new.prebuilt ≡ self.old.prebuilt }
        ensures room { self.new.out ≡ self.old.out }
    {
        match self.conns.get_mut(&conn) {
            Some(connection) => connection.phase = phase,
            None => {}
        }
    }

    /// A login failed, and so many tries are left (RFC 6120, section 6.4.5). Nothing changes where the connection isn't open.
    pub fn fail(&mut self, conn: u64, left: Tries)
        ensures step { step_of self.new ≡ in_server_state (with_conn conn (after_failure left)) (step_of self.old) }
        ensures live { self.new.live ≡ self.old.live }
        ensures prebuilt { self.new.prebuilt ≡ self.old.prebuilt }
        ensures room { self.new.out ≡ self.old.out }
    {
        match self.conns.get_mut(&conn) {
            Some(connection) => {
                connection.phase = Phase::Login;
                connection.tries = left;
            }
            None => {}
        }
    }

    /// Memory for one session of an account, and a number for it. `NoMemory` also where each number was given. On each
    /// outcome the state and the outputs stay as they were.
    pub fn reserve_session(&mut self, account: u32) -> Result<(), NoMemory>
        ensures ok { OnOk result (self.new.live.reservation ≡ Some account) }
        ensures step { step_of self.new ≡ step_of self.old }
        ensures out { self.new.out ≡ self.old.out }
    {
        match self.live.reserve_session(account) {
            Ok(()) => Ok(()),
            Err(_) => Err(NoMemory),
        }
    }

    /// A connection comes, with the bytes that were drawn for it. A refusal leaves the state as it was.
    pub fn admit(&mut self, conn: u64, entropy: &[u8; 24]) -> Result<(), NoMemory>
        ensures ok { OnOk result (server_state_of self.new ≡ with_fresh conn entropy.now (server_state_of self.old)) }
        ensures err { OnErr result (server_state_of self.new ≡ server_state_of self.old) }
    {
        let connection = Connection {
            entropy: *entropy,
            phase: Phase::Start,
            tries: Tries::Three,
        };
        let _ = self.conns.insert(conn, connection)?;
        Ok(())
    }

    /// The moment moves on, to `now` in milliseconds since 1970 where that is later, and the sessions that were parked for
    /// too long end (XEP-0198, section 5). It takes no memory.
    pub fn begin(&mut self, now: u64)
        ensures server_state { server_state_of self.new ≡ at_moment now (server_state_of self.old) }
        ensures out { self.new.out ≡ self.old.out }
    {
        self.moment = self.moment.max(now);
        self.live.expire(self.moment);
    }

    /// A connection is gone: its session is parked where it can be resumed (XEP-0198, section 5), and else ends. It takes no
    /// memory.
    pub fn lose(&mut self, conn: u64)
        ensures server_state { server_state_of self.new ≡ gone_at conn (server_state_of self.old) }
        ensures out { self.new.out ≡ self.old.out }
    {
        let _ = self.conns.remove(&conn);
        let _ = self.live.park(conn, self.moment);
    }
}
