//! What the rows of a client have in common: room, the end of a connection, and the end of a session.
ghost use Rattle.std.specs.Prelude.{◌≡◌, ◌≤◌, ◌+◌, length, OnErr, OnOk};
ghost use Rattle.cl_handlers.specs.Speech.{in_bytes};
ghost use Rattle.cl_handlers.specs.ClientSteps;
ghost use Rattle.cl_handlers.specs.ClientSteps.{dropped, ends, goes, is_apart, left, puts, puts_footer};
ghost use Rattle.cl_handlers.specs.Views.{client_of, client_step_of};

use crate::client_state::ClientState;
use crate::events::{ClientOut, Event, PeerFault};
use crate::phase::Phase;
use base_io::{Bytes, NoMemory};
use im_replies::footer;
use std::alloc::Global;

/// Makes room for so many bytes and events. Nothing is put or told, also where memory runs out.
pub fn make_room(out: &mut ClientOut, bytes: usize, events: usize) -> Result<(), NoMemory>
    ensures bytes { out.new.bytes.items ≡ out.old.bytes.items }
    ensures events { out.new.events.items ≡ out.old.events.items }
    ensures room_bytes { OnOk result (bytes ≤ out.new.bytes.spare) }
    ensures room_events { OnOk result (events ≤ out.new.events.spare) }
{
    out.bytes.reserve(bytes)?;
    out.events.reserve(events)?;
    Ok(())
}

impl ClientState {
    /// Whether no connection stands.
    pub fn is_apart(&self) -> bool
        ensures { result ≡ is_apart self.now.phase }
    {
        match self.phase {
            Phase::Apart => true,
            _ => false,
        }
    }

    /// Whether the session is attached (XEP-0198, section 5): stanzas go out at once.
    pub fn is_online(&self) -> bool
        ensures { result ≡ ClientSteps.is_online self.now.phase }
    {
        match self.phase {
            Phase::Online => true,
            _ => false,
        }
    }

    /// Leaves the connection for a fault of the peer, which is told. Where memory runs out it is left and nothing is told. The
    /// session stays.
    pub fn end(&mut self, fault: PeerFault, out: &mut ClientOut) -> Result<(), NoMemory>
        ensures ok { OnOk result (client_step_of self.new out.new ≡ ends (client_step_of self.old out.old) fault) }
        ensures err { OnErr result (client_step_of self.new out.new ≡ left (client_step_of self.old out.old)) }
    {
        self.phase = Phase::Apart;
        out.events.push(Event::Ended(fault))
    }

    /// Puts bytes, and goes on in another phase. A refusal changes nothing.
    pub(crate) fn ask(
        &mut self,
        bytes: Bytes,
        phase: Phase,
        out: &mut ClientOut,
    ) -> Result<(), NoMemory>
        ensures ok { OnOk result (client_step_of self.new out.new ≡ goes (puts (client_step_of self.old out.old) bytes.items) phase) }
        ensures err { OnErr result (client_step_of self.new out.new ≡ client_step_of self.old out.old) }
    {
        out.bytes.append(bytes.as_slice())?;
        self.phase = phase;
        Ok(())
    }

    /// Puts the footer where a connection stands (RFC 6120, section 4.4). Where memory runs out nothing is put.
    pub fn put_footer(&self, alloc: Global, out: &mut ClientOut) -> Result<(), NoMemory>
        ensures ok { OnOk result (client_step_of self.now out.new ≡ puts_footer in_bytes (client_step_of self.now out.old)) }
        ensures err { OnErr result (client_step_of self.now out.new ≡ client_step_of self.now out.old) }
    {
        if self.is_apart() {
            return Ok(());
        }
        let closing = footer(alloc)?;
        out.bytes.append(closing.as_slice())
    }

    /// Ends the session: of its submissions that wait it isn't known what became of them, and an open page is broken off. It
    /// takes no memory.
    pub fn drop_session(&mut self)
        ensures { client_of self.new ≡ dropped (client_of self.old) }
    {
        self.session = None;
        self.said.give_up();
        self.log.break_off();
    }
}
