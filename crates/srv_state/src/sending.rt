//! Stanzas go to sessions (XEP-0198, section 4): all memory is taken first, and then each is put.
ghost use Rattle.std.specs.Prelude.{◌≡◌, ◌+◌, ◌*◌, ◌<◌, ◌≤◌, true, Some, IsSome, OnOk, length};
ghost use Rattle.sm_acks.specs.declared.end.TheConstants.{MOST_UNACKNOWLEDGED};
ghost use Rattle.sm_live.specs.Sessions.{info_of, session_of};
ghost use Rattle.im_replies.specs.Streams.{footer_text};
ghost use Rattle.srv_state.specs.OutgoingStanzas.{sends_of};
ghost use Rattle.srv_state.specs.Seen.{server_state_of, step_of};
ghost use Rattle.srv_state.specs.Steps;
ghost use Rattle.srv_state.specs.Steps.{acted, ask_where, queue, send, send_by_info};
ghost use Rattle.xml_writer.specs.Items.{written_item};

use crate::context::ServerContext;
use crate::limits::ASKS_AT;
use crate::outgoing_stanza::OutgoingStanza;
use base_io::{Bytes, NoMemory};
use sm_acks::MOST_UNACKNOWLEDGED;
use sm_live::SessionInfo;

// Whether one stanza more makes an `r` due.
fn is_due(told: &SessionInfo) -> bool
    requires { told.now.waiting < MOST_UNACKNOWLEDGED }
    ensures { result ≡ Steps.is_due told.now }
{
    ASKS_AT <= told.waiting + 1 && !told.asked
}

impl ServerContext {
    /// Room for so many stanzas, whatever becomes of them.
    pub fn reserve_stanzas(&mut self, count: u32) -> Result<(), NoMemory>
        ensures step { step_of self.new ≡ step_of self.old }
        ensures room { OnOk result (count ≤ self.new.live.room) }
        ensures out { OnOk result (3 * count ≤ self.new.out.spare) }
        ensures requests { OnOk result (count ≤ length self.new.prebuilt.requests.items) }
        ensures overflows { OnOk result (count ≤ length self.new.prebuilt.overflows.items) }
    {
        self.live.reserve(count)?;
        self.out.reserve(3 * count as usize)?;
        self.prebuilt.reserve(self.alloc, count as usize)
    }

    /// Ends the stream of a connection where there is one, with these words.
    pub fn part_where(&mut self, conn: Option<u64>, error: Bytes, footer: Bytes)
        requires room { 3 ≤ self.old.out.spare }
        requires footer { footer.items ≡ footer_text }
        ensures step { step_of self.new ≡ Steps.part_where written_item conn error.items (step_of self.old) }
        ensures live { self.old.live.room ≤ self.new.live.room }
        ensures reservation { self.new.live.reservation ≡ self.old.live.reservation }
        ensures prebuilt { self.new.prebuilt ≡ self.old.prebuilt }
        ensures room { self.old.out.spare ≤ self.new.out.spare + 3 }
    {
        match conn {
            Some(conn) => self.part(conn, error, footer),
            None => {}
        }
    }

    // Puts bytes out where there is a connection.
    fn put_where(&mut self, conn: Option<u64>, bytes: Bytes)
        requires { 1 ≤ self.old.out.spare }
        ensures step { step_of self.new ≡ Steps.put_where conn bytes.items (step_of self.old) }
        ensures live { self.new.live ≡ self.old.live }
        ensures prebuilt { self.new.prebuilt ≡ self.old.prebuilt }
        ensures room { self.old.out.spare ≤ self.new.out.spare + 1 }
    {
        match conn {
            Some(conn) => self.put(conn, bytes),
            None => {}
        }
    }

    // The client is asked for its count.
    fn ask(&mut self, number: u64, conn: u64)
        requires lives { IsSome (session_of number (server_state_of self.old).sessions) }
        requires room { 1 ≤ self.old.out.spare }
        requires request { 1 ≤ length self.old.prebuilt.requests.items }
        ensures step { step_of self.new ≡ ask_where written_item number (Some conn) true (step_of self.old) }
        ensures live { self.old.live.room ≤ self.new.live.room }
        ensures out { self.old.out.spare ≤ self.new.out.spare + 1 }
        ensures requests { length self.old.prebuilt.requests.items ≤ length self.new.prebuilt.requests.items + 1 }
        ensures overflows { self.new.prebuilt.overflows ≡ self.old.prebuilt.overflows }
    {
        self.live.set_asked(number, true);
        let request = self.prebuilt.take_request();
        self.put(conn, request);
    }

    // The client is asked for its count, where that is due.
    fn ask_where(&mut self, number: u64, conn: Option<u64>, due: bool)
        requires lives { IsSome (session_of number (server_state_of self.old).sessions) }
        requires room { 1 ≤ self.old.out.spare }
        requires request { 1 ≤ length self.old.prebuilt.requests.items }
        ensures step { step_of self.new ≡ ask_where written_item number conn due (step_of self.old) }
        ensures live { self.old.live.room ≤ self.new.live.room }
        ensures out { self.old.out.spare ≤ self.new.out.spare + 1 }
        ensures requests { length self.old.prebuilt.requests.items ≤ length self.new.prebuilt.requests.items + 1 }
        ensures overflows { self.new.prebuilt.overflows ≡ self.old.prebuilt.overflows }
    {
        if !due {
            return;
        }
        match conn {
            Some(conn) => self.ask(number, conn),
            None => {}
        }
    }

    // A stanza waits, and goes out where the session is attached.
    #[tactic(auto, using(crate::proofs::InfoFacts::lives_told, crate::proofs::InfoFacts::few_told, crate::proofs::InfoFacts::lives_waiting))]
    fn queue(&mut self, number: u64, told: &SessionInfo, queued: Bytes, shown: Bytes)
        requires told { Some told.now ≡ info_of number (server_state_of self.old).sessions }
        requires few { told.now.waiting < MOST_UNACKNOWLEDGED }
        requires room { 1 ≤ self.old.live.room }
        requires out { 2 ≤ self.old.out.spare }
        requires request { 1 ≤ length self.old.prebuilt.requests.items }
        requires same { queued.items ≡ shown.items }
        ensures step { step_of self.new ≡ queue written_item number shown.items told.now (step_of self.old) }
        ensures live { self.old.live.room ≤ self.new.live.room + 1 }
        ensures left { self.old.out.spare ≤ self.new.out.spare + 2 }
        ensures requests { length self.old.prebuilt.requests.items ≤ length self.new.prebuilt.requests.items + 1 }
        ensures overflows { self.new.prebuilt.overflows ≡ self.old.prebuilt.overflows }
    {
        self.live.put(number, queued);
        self.put_where(told.conn, shown);
        self.ask_where(number, told.conn, is_due(told));
    }

    // As many stanzas wait as may: the session ends.
    fn overflow(&mut self, number: u64, told: &SessionInfo)
        requires out { 3 ≤ self.old.out.spare }
        requires words { 1 ≤ length self.old.prebuilt.overflows.items }
        ensures step { step_of self.new ≡ Steps.overflow written_item number told.now (step_of self.old) }
        ensures live { self.old.live.room ≤ self.new.live.room }
        ensures left { self.old.out.spare ≤ self.new.out.spare + 3 }
        ensures requests { self.new.prebuilt.requests ≡ self.old.prebuilt.requests }
        ensures overflows { length self.old.prebuilt.overflows.items ≤ length self.new.prebuilt.overflows.items + 1 }
    {
        let words = self.prebuilt.take_overflow();
        let _ = self.live.end(number);
        self.part_where(told.conn, words.error, words.footer);
    }

    // A stanza to a session that lives.
    fn send_by_info(&mut self, number: u64, told: &SessionInfo, queued: Bytes, shown: Bytes)
        requires told { Some told.now ≡ info_of number (server_state_of self.old).sessions }
        requires few { told.now.waiting ≤ MOST_UNACKNOWLEDGED }
        requires room { 1 ≤ self.old.live.room }
        requires out { 3 ≤ self.old.out.spare }
        requires request { 1 ≤ length self.old.prebuilt.requests.items }
        requires words { 1 ≤ length self.old.prebuilt.overflows.items }
        requires same { queued.items ≡ shown.items }
        ensures step { step_of self.new ≡ send_by_info written_item number shown.items (Some told.now) (step_of self.old) }
        ensures live { self.old.live.room ≤ self.new.live.room + 1 }
        ensures left { self.old.out.spare ≤ self.new.out.spare + 3 }
        ensures requests { length self.old.prebuilt.requests.items ≤ length self.new.prebuilt.requests.items + 1 }
        ensures overflows { length self.old.prebuilt.overflows.items ≤ length self.new.prebuilt.overflows.items + 1 }
    {
        if !told.counted {
            self.put_where(told.conn, shown);
        } else if told.waiting == MOST_UNACKNOWLEDGED {
            self.overflow(number, told);
        } else {
            self.queue(number, told, queued, shown);
        }
    }

    /// A stanza to a session, where it lives.
    pub fn send(&mut self, outgoing_stanza: OutgoingStanza)
        requires room { 1 ≤ self.old.live.room }
        requires out { 3 ≤ self.old.out.spare }
        requires request { 1 ≤ length self.old.prebuilt.requests.items }
        requires words { 1 ≤ length self.old.prebuilt.overflows.items }
        ensures step { step_of self.new ≡ send written_item outgoing_stanza.number outgoing_stanza.shown.items (step_of self.old) }
        ensures live { self.old.live.room ≤ self.new.live.room + 1 }
        ensures left { self.old.out.spare ≤ self.new.out.spare + 3 }
        ensures requests { length self.old.prebuilt.requests.items ≤ length self.new.prebuilt.requests.items + 1 }
        ensures overflows { length self.old.prebuilt.overflows.items ≤ length self.new.prebuilt.overflows.items + 1 }
    {
        match self.live.told(outgoing_stanza.number) {
            Some(told) => self.send_by_info(
                outgoing_stanza.number,
                &told,
                outgoing_stanza.queued,
                outgoing_stanza.shown,
            ),
            None => {}
        }
    }

    /// Stanzas to sessions, in order.
    pub fn send_all(&mut self, outgoing_stanzas: Vec<OutgoingStanza>)
        requires room { length outgoing_stanzas.items ≤ self.old.live.room }
        requires out { 3 * length outgoing_stanzas.items ≤ self.old.out.spare }
        requires requests { length outgoing_stanzas.items ≤ length self.old.prebuilt.requests.items }
        requires overflows { length outgoing_stanzas.items ≤ length self.old.prebuilt.overflows.items }
        ensures { step_of self.new ≡ acted written_item (sends_of outgoing_stanzas.items) (step_of self.old) }
    {
        for outgoing_stanza in outgoing_stanzas {
            self.send(outgoing_stanza);
        }
    }
}
