//! The server.
//!
//! `connect` asks that no open connection has the number, and not that it is above all earlier ones. A refused
//! `connect` moves no moment. The moment has no bound: stamps end at the last one. So `start` asks for no greatest number
//! of a connection, and bounds no stamp of the entries that were kept.
ghost use Rattle.std.specs.Prelude.{◌≡◌, ◌≢◌, ◌<◌, ◌≤◌, ◌^◌, [], None, Some, length, map, IfErr, IfOk, IsOk, OnErr, OnOk};
ghost use Rattle.std.specs.Map.{remove_entry};
ghost use Rattle.std.specs.Option.{option_copied, option_map};
ghost use Rattle.srv_core.specs.Configs.{at_start, config_fault};
ghost use Rattle.srv_core.specs.Events.{IsAfterBytes, Stops, after_connect, after_gone, framer_at, holds_part, whole};
ghost use Rattle.srv_core.specs.Restarts.{AreArchivesOf, at_restart};
ghost use Rattle.srv_state.specs.Moments.{at_moment};
ghost use Rattle.srv_state.specs.Seen.{kept_of, outs_of};
ghost use Rattle.srv_state.specs.State.{archive_at, conn_at, is_number};
ghost use Rattle.sm_live.specs.Rule.{IsRule};
ghost use Rattle.srv_core.specs.Telling.{IsFront};
ghost use Rattle.xml_writer.specs.Items.{written_item};

use crate::config::{Config, ConfigFault, accounts_of, archives_of, is_normal_domain};
use crate::pieces::on_event;
use crate::restarting::{Archives, greatest_of};
use base_io::{NoMemory, Text};
use mam_archive::Archive;
use sm_live::Live;
use srv_login::Accounts;
use srv_state::{Outputs, Prebuilt, ServerContext};
use std::alloc::Global;
use std::collections::BTreeMap;
use std::marker::Model;
use std::mem;
use xml_framer::{Framer, Limits};

/// A server of one domain, as a machine over events. It reads no clock and opens no socket: who runs it tells each event
/// with its moment, in milliseconds since 1970, and sends what it puts out. A moment before an earlier one counts as that
/// one. Contracts see what the rows of its table act on, and beside it what is known of each stream's bytes.
#[derive(Drop)]
pub struct Server {
    context: ServerContext,
    framers: BTreeMap<u64, Framer>,
}

impl Model for Server {
    ghost use Rattle.std.specs.Coded.{codes};
    ghost use Rattle.std.specs.Prelude.{ℕ, List};
    ghost use Rattle.xml_framer.specs.StateCodes.{state_coded};
    ghost use Rattle.srv_core.specs.Events.{Whole};
    ghost use Rattle.srv_state.specs.Seen.{server_state_of};

    ghost Value = { Whole (List ℕ) };

    ghost coded = { Prim.hlevel (codes, state_coded) };

    ghost view = { λ s. record { server_state = server_state_of s.context; framers = s.framers.entries } };
}

// The framer of a connection leaves.
fn forget(framers: &mut BTreeMap<u64, Framer>, conn: u64)
    ensures { framers.new.entries ≡ remove_entry (is_number conn) framers.old.entries }
{
    let _ = framers.remove(&conn);
}

// A server without connections and sessions. The first session gets the number `session`.
fn idle(
    alloc: Global,
    domain: Text,
    accounts: Accounts,
    archives: Vec<Archive>,
    session: u64,
    moment: u64,
) -> Server
    requires low { 1 ≤ session }
    requires high { session ≤ 2 ^ 63 }
    ensures { result ≡ whole (record { domain = domain; accounts = accounts; archives = map kept_of archives.items; sessions = []; next = session; conns = []; moment = moment }) [] }
{
    Server {
        context: ServerContext {
            alloc,
            domain,
            accounts,
            archives,
            live: Live::new(alloc, session),
            conns: BTreeMap::new(alloc),
            moment,
            out: Outputs::new(alloc),
            prebuilt: Prebuilt::new(alloc),
        },
        framers: BTreeMap::new(alloc),
    }
}

impl Server {
    /// A server without connections. The first of these that fits is refused: a domain that is not in normal form
    /// (`BadDomain`), and then what is wrong with the accounts, as `Accounts::new` has it.
    pub fn new(alloc: Global, config: Config) -> Result<Server, ConfigFault>
        requires few { length config.accounts.items < 2 ^ 32 }
        requires keep { 1 ≤ config.keep }
        ensures made { IfOk result (λ server. server ≡ at_start config.domain config.accounts.items config.keep) }
        ensures right { OnOk result (config_fault config.domain config.accounts.items ≡ None) }
        ensures refused { IfErr result (λ e. e ≢ ConfigFault.NoMemory → config_fault config.domain config.accounts.items ≡ Some e) }
    {
        if !is_normal_domain(alloc, config.domain.as_str())? {
            return Err(ConfigFault::BadDomain);
        }
        let accounts = accounts_of(alloc, config.accounts)?;
        let archives = archives_of(
            alloc,
            config.domain.as_str(),
            accounts.as_slice(),
            config.keep,
        )?;
        Ok(idle(alloc, config.domain, accounts, archives, 1, 0))
    }

    /// A server that is started again with archives that were kept, one for each account, in order. It has no connections
    /// and no sessions. Its next session gets the number `session`, which is 1 to 2^63. Its moment is `now`, or the greatest
    /// stamp of an entry where that is later. Refusals are those of `new`.
    pub fn start(
        alloc: Global,
        config: Config,
        archives: Archives,
        session: u64,
        now: u64,
    ) -> Result<Server, ConfigFault>
        requires few { length config.accounts.items < 2 ^ 32 }
        requires keep { 1 ≤ config.keep }
        requires archives { AreArchivesOf config.domain config.keep config.accounts.items (map kept_of archives.items) }
        requires low { 1 ≤ session }
        requires high { session ≤ 2 ^ 63 }
        ensures made { IfOk result (λ server. server ≡ at_restart config.domain config.accounts.items (map kept_of archives.items) session now) }
        ensures right { OnOk result (config_fault config.domain config.accounts.items ≡ None) }
        ensures refused { IfErr result (λ e. e ≢ ConfigFault.NoMemory → config_fault config.domain config.accounts.items ≡ Some e) }
    {
        if !is_normal_domain(alloc, config.domain.as_str())? {
            return Err(ConfigFault::BadDomain);
        }
        let accounts = accounts_of(alloc, config.accounts)?;
        let moment = greatest_of(archives.as_slice(), now);
        let archives = archives.into_items();
        Ok(idle(alloc, config.domain, accounts, archives, session, moment))
    }

    /// A connection comes, under a number that no connection has, with the bytes that were drawn for it at random and for
    /// it alone. A refusal leaves the server as it was.
    #[tactic(auto, using(crate::proofs::Entries::removed_fresh))]
    pub fn connect(&mut self, conn: u64, entropy: &[u8; 24], now: u64) -> Result<(), NoMemory>
        requires fresh { conn_at conn self.old.server_state ≡ None }
        requires unframed { framer_at conn self.old.framers ≡ None }
        ensures ok { OnOk result (self.new ≡ after_connect conn entropy.now now self.old) }
        ensures err { OnErr result (self.new ≡ self.old) }
    {
        let framer = Framer::new(self.context.alloc, Limits::server());
        let _ = self.framers.insert(conn, framer)?;
        if self.context.admit(conn, entropy).is_err() {
            forget(&mut self.framers, conn);
            return Err(NoMemory);
        }
        self.context.begin(now);
        Ok(())
    }

    /// Bytes came on a connection (RFC 6120, section 4). What they spell takes effect item by item, in order, and behind
    /// the items the first fault of the stream, by which the stream ends. What comes of it stands behind the outputs that
    /// were there. A connection whose stream is not framed is not looked at.
    ///
    /// Where memory runs out, some first items of the piece took effect, with their outputs, what is behind them did not,
    /// and the connection is gone as by `gone`. No memory is wanted where the connection's stream is not framed.
    #[tactic(auto, using(crate::proofs::Kept::outputs_kept))]
    pub fn bytes(
        &mut self,
        conn: u64,
        piece: &[u8],
        now: u64,
        outputs: &mut Outputs,
    ) -> Result<(), NoMemory>
        ensures ok { OnOk result (IsAfterBytes written_item conn piece.now now self.old (outs_of outputs.old.items) self.new (outs_of outputs.new.items)) }
        ensures err { OnErr result (Stops written_item conn piece.now now (framer_at conn self.old.framers) self.old (outs_of outputs.old.items) self.new (outs_of outputs.new.items)) }
        ensures kept { IsFront (outs_of outputs.old.items) (outs_of outputs.new.items) }
        ensures unknown { framer_at conn self.old.framers ≡ None → IsOk result }
    {
        mem::swap(&mut self.context.out, outputs);
        let result = on_event(&mut self.context, &mut self.framers, conn, piece, now);
        mem::swap(&mut self.context.out, outputs);
        result
    }

    /// A connection is gone, whoever ended it. Its session is parked where it can be resumed (XEP-0198, section 5), and
    /// ends where it can't. It takes no memory.
    pub fn gone(&mut self, conn: u64, now: u64)
        ensures { self.new ≡ after_gone conn now self.old }
    {
        self.context.begin(now);
        self.context.lose(conn);
        forget(&mut self.framers, conn);
    }

    /// Time passes: sessions that were parked for too long end. It takes no memory.
    pub fn tick(&mut self, now: u64)
        ensures { self.new ≡ record self.old { server_state = at_moment now self.old.server_state } }
    {
        self.context.begin(now);
    }

    /// The archive of an account, by the account's place in the configuration (XEP-0313). `None` exactly where there is no
    /// such account.
    #[tactic(auto, using(crate::proofs::Archives::seen_at))]
    pub fn archive(&self, account: u32) -> Option<&Archive>
        ensures { option_map kept_of (option_copied result) ≡ archive_at account self.now.server_state }
    {
        self.context.archives.get(account as usize)
    }

    /// Whether the stream of a connection stopped in the middle of an item. It is false where it is not framed.
    pub fn part(&self, conn: u64) -> bool
        ensures { result ≡ holds_part (framer_at conn self.now.framers) }
    {
        match self.framers.get(&conn) {
            Some(framer) => framer.part().is_some(),
            None => false,
        }
    }

    /// What holds of the sessions at all times: their numbers ascend, a connection has one session at most, and so has a
    /// resource of an account (RFC 6120, section 7.7.2.2), and in each at most 10,000 stanzas wait (XEP-0198, section 4). It
    /// does nothing.
    pub fn keeps_rule(&self)
        ensures { IsRule self.now.server_state.sessions self.now.server_state.next }
    {
        self.context.live.keeps_rule();
    }

    /// The number that the next session gets.
    pub fn next_session(&self) -> u64
        ensures { result ≡ self.now.server_state.next }
    {
        self.context.live.next_number()
    }
}
