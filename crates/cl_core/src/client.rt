//! The client's calls.
//!
//! A client is two crates: its state with the rows up to a session, of acknowledgements and of messages
//! (`cl_handlers`), and its pages, its table and the calls of its user (`cl_core`). Rows are functions of the state,
//! since a type gets no methods from another crate.
ghost use Rattle.std.specs.Prelude.{◌≡◌, ◌≤◌, ◌⊎◌, List, None, not, Err, OnErr, OnOk};
ghost use Rattle.std.specs.Option.{option_and_then};
ghost use Rattle.cl_core.specs.Feeds.{IsMemoryLost, IsStopped, bytes_step, fed, kept_while, read};
ghost use Rattle.cl_core.specs.Making.{fresh};
ghost use Rattle.cl_handlers.specs.Speech.{in_bytes};
ghost use Rattle.cl_handlers.specs.ClientSteps.{is_apart};
ghost use Rattle.cl_core.specs.UserCalls.{catch_up_answer, catches_up, closes, dials, forgets, leaves, say_answer, says};
ghost use Rattle.cl_core.specs.Values.{client_step_in, fed_of, forgotten};
ghost use Rattle.cl_handlers.specs.Views.{client_step_of};
ghost use Rattle.cl_handlers.specs.declared.events.ClientOut.{ClientOut};
ghost use Rattle.xml_framer.specs.Machine.{IsFrontOf, part_of};
ghost use Rattle.xml_framer.specs.declared.items.Item.{Item};
ghost use Rattle.sm_outbox.specs.Submissions.{all_said};

use crate::faults::{CatchUpStart, SayFault};
use crate::page_requests::catch_up;
use crate::replacing::{replace_framer, replace_phase};
use crate::steps::{take_fault, take_items};
use crate::user::say;
use base_io::{ListOf, NoMemory};
use cl_handlers::{Account, ClientOut, ClientState, Phase};
use im_jid::Jid;
use mam_log::Log;
use mam_pages::MOST_RESULTS;
use sm_outbox::{Said, Submissions};
use std::alloc::Global;
use std::marker::Model;
use xml_framer::{FeedFault, Framer, Items, Limits};

/// A client: what it keeps over connections, and the framer of its connection, where one stands.
pub struct Client {
    framer: Option<Framer>,
    state: ClientState,
}

// Written out, so that who drops a client doesn't prove again how each part of it is dropped.
impl Drop for Client {
    fn drop(self) {
        let Client { framer, state } = self;
        drop(framer);
        drop(state);
    }
}

impl Model for Client {
    ghost use Rattle.std.specs.Coded.{codes};
    ghost use Rattle.cl_core.specs.Values.{ClientValue};
    ghost use Rattle.cl_handlers.specs.Views.{client_of};
    ghost use Rattle.xml_framer.specs.StateCodes.{state_coded};

    ghost Value = { ClientValue };

    ghost coded = { Prim.hlevel (codes, state_coded) };

    ghost view = { λ c. record { framer = c.framer; client = client_of c.state } };
}

// Items that came before memory ran out. The connection is left.
#[tactic(auto, using(crate::proofs::Alongs::stopped_after, crate::proofs::Alongs::stopped_among))]
fn take_first(state: &mut ClientState, alloc: Global, items: Items, out: &mut ClientOut)
    ensures { (due : List Item) → IsFrontOf items.items due → IsStopped in_bytes (client_step_of state.old out.old) due (client_step_of state.new out.new) }
{
    match take_items(state, alloc, items, out) {
        Ok(()) => replace_phase(&mut state.phase, Phase::Apart),
        Err(NoMemory) => {}
    }
}

// The items of a piece, and then the fault of its bytes. Want of memory leaves the connection.
#[tactic(auto, using(crate::proofs::Alongs::stopped_after, crate::proofs::Alongs::stopped_at_end, crate::proofs::Alongs::stopped_among))]
fn take_piece(
    state: &mut ClientState,
    framer: &mut Framer,
    alloc: Global,
    piece: &[u8],
    out: &mut ClientOut,
) -> Result<(), NoMemory>
    ensures ok { OnOk result (fed in_bytes (client_step_of state.old out.old) (read framer.old piece.now) ≡ kept_while (client_step_of state.new out.new) framer.new) }
    ensures memory { OnErr result (IsStopped in_bytes (client_step_of state.old out.old) (read framer.old piece.now).items (client_step_of state.new out.new)) }
{
    let mut items = ListOf::new(alloc);
    match framer.feed(piece, &mut items) {
        Ok(()) => take_items(state, alloc, items, out),
        Err(FeedFault::Fault(fault)) => {
            take_items(state, alloc, items, out)?;
            take_fault(state, fault, out)
        }
        Err(FeedFault::NoMemory) => {
            take_first(state, alloc, items, out);
            Err(NoMemory)
        }
    }
}

impl Client {
    // A client of an account, before its first connection.
    pub(crate) fn of(alloc: Global, account: Account) -> Client
        ensures { result ≡ fresh account }
    {
        Client {
            framer: None,
            state: ClientState {
                account,
                log: Log::new(alloc),
                said: Submissions::new(alloc),
                pages: 0,
                session: None,
                phase: Phase::Apart,
            },
        }
    }

    /// Begins a connection: an earlier one is left as `gone` leaves it, and the declaration and the header go out (RFC 6120,
    /// section 4.7). `entropy` is what was drawn for this connection alone. A refusal leaves all as it was.
    #[tactic(auto, using(crate::proofs::UserSteps::dialed))]
    pub fn dial(
        &mut self,
        alloc: Global,
        entropy: &[u8; 24],
        out: &mut ClientOut,
    ) -> Result<(), NoMemory>
        ensures ok { OnOk result (fed_of self.new out.new ≡ dials in_bytes entropy.now (fed_of self.old out.old)) }
        ensures err { OnErr result (fed_of self.new out.new ≡ fed_of self.old out.old) }
    {
        self.state.begin_login(alloc, entropy, out)?;
        let framer = Framer::new(alloc, Limits::client());
        replace_framer(&mut self.framer, Some(framer));
        Ok(())
    }

    /// Takes a piece of the server's stream. Where no connection stands it does nothing. A fault of the peer is told by
    /// `Event::Ended`, and the connection is left.
    ///
    /// Want of memory leaves the connection: the items before the one in hand had their effect, and that one had none.
    pub fn bytes(
        &mut self,
        alloc: Global,
        piece: &[u8],
        out: &mut ClientOut,
    ) -> Result<(), NoMemory>
        ensures ok { OnOk result (fed_of self.new out.new ≡ bytes_step in_bytes (fed_of self.old out.old) piece.now) }
        ensures memory { OnErr result (IsMemoryLost in_bytes (fed_of self.old out.old) piece.now (fed_of self.new out.new)) }
    {
        let Some(framer) = &mut self.framer else {
            return Ok(());
        };
        let taken = take_piece(&mut self.state, framer, alloc, piece, out);
        if self.state.is_apart() {
            replace_framer(&mut self.framer, None);
        }
        taken
    }

    /// The connection is lost. A session stays, for a resumption (XEP-0198, section 5). It takes no memory.
    pub fn gone(&mut self)
        ensures { (out : ClientOut) → fed_of self.new out ≡ leaves (fed_of self.old out) }
    {
        replace_framer(&mut self.framer, None);
        replace_phase(&mut self.state.phase, Phase::Apart);
    }

    /// The connection is lost, and the session ends too: of the submissions that wait it isn't known what became of them, and
    /// an open page is broken off. It takes no memory.
    pub fn forget(&mut self)
        ensures table { (out : ClientOut) → fed_of self.new out ≡ forgets in_bytes (fed_of self.old out) }
        ensures value { self.new ≡ forgotten self.old }
    {
        replace_framer(&mut self.framer, None);
        replace_phase(&mut self.state.phase, Phase::Apart);
        self.state.drop_session();
    }

    /// Puts the footer where a connection stands (RFC 6120, section 4.4), and then does as `forget`. A refusal leaves all as
    /// it was.
    #[tactic(auto, using(crate::proofs::UserSteps::closed))]
    pub fn close(&mut self, alloc: Global, out: &mut ClientOut) -> Result<(), NoMemory>
        ensures ok { OnOk result (fed_of self.new out.new ≡ closes in_bytes (fed_of self.old out.old)) }
        ensures err { OnErr result (fed_of self.new out.new ≡ fed_of self.old out.old) }
    {
        self.state.put_footer(alloc, out)?;
        self.forget();
        Ok(())
    }

    /// Submits a message to an address, and answers its number in this epoch. It goes out at once where the session is
    /// attached, and else it waits. The refusals come in this order, and leave all as it was: `BadText` where the text is
    /// empty, is longer than 10,000 bytes or has a character that XML lacks; `NotBound` where no session stands;
    /// `OutboxFull` where 1,000 stanzas or more wait.
    pub fn say(
        &mut self,
        alloc: Global,
        to: &Jid,
        text: &str,
        private: bool,
        out: &mut ClientOut,
    ) -> Result<u64, SayFault>
        ensures exact { (result ≡ Err SayFault.NoMemory) ⊎ (result ≡ say_answer self.old.client text.now) }
        ensures ok { OnOk result (client_step_in self.new out.new ≡ says in_bytes (client_step_in self.old out.old) to.now text.now private) }
        ensures err { OnErr result (client_step_in self.new out.new ≡ client_step_in self.old out.old) }
        ensures framer { self.new.framer ≡ self.old.framer }
    {
        say(&mut self.state, alloc, to.text(), text, private, out)
    }

    /// Asks the archive for a page behind the log's last entry, of so many results at most, and for those behind it until one
    /// is the last (XEP-0313, section 4). The refusals come in this order, and leave all as it was: `NotBound` where no
    /// session stands; `OutboxFull` where 1,000 stanzas or more wait; `Underway` where a page is open.
    pub fn catch_up(
        &mut self,
        alloc: Global,
        max: u32,
        out: &mut ClientOut,
    ) -> Result<(), CatchUpStart>
        requires { (1 ≤ max) × (max ≤ MOST_RESULTS) }
        ensures exact { (result ≡ Err CatchUpStart.NoMemory) ⊎ (result ≡ catch_up_answer self.old.client) }
        ensures ok { OnOk result (client_step_in self.new out.new ≡ catches_up in_bytes (client_step_in self.old out.old) max) }
        ensures err { OnErr result (client_step_in self.new out.new ≡ client_step_in self.old out.old) }
        ensures framer { self.new.framer ≡ self.old.framer }
    {
        catch_up(&mut self.state, alloc, max, out)
    }

    /// Whether a connection stands, as far as the client knows: a fault of the peer is a leaving.
    pub fn is_connected(&self) -> bool
        ensures { result ≡ not (is_apart self.now.client.phase) }
    {
        !self.state.is_apart()
    }

    /// The place of what is unfinished in the bytes of the connection. `None` where nothing is, and where none stands.
    pub fn part(&self) -> Option<u64>
        ensures { result ≡ option_and_then part_of self.now.framer }
    {
        match &self.framer {
            Some(framer) => framer.part(),
            None => None,
        }
    }

    /// The log: the entries and pages that were taken over, the open page, and the messages that are held.
    pub fn log(&self) -> &Log
        ensures { result.now ≡ self.now.client.log }
    {
        &self.state.log
    }

    /// How many resources were bound.
    pub fn epoch(&self) -> u64
        ensures { result ≡ self.now.client.epoch }
    {
        self.state.said.epoch()
    }

    /// All submissions, in the order of their acceptance: those that are settled, and then those that wait.
    pub fn said(&self) -> &[Said]
        ensures { result.now ≡ all_said self.now.client.said }
    {
        self.state.said.as_slice()
    }
}
