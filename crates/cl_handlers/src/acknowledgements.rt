//! Acknowledgements (XEP-0198, sections 4 and 5).
//!
//! `Acked` is told for each count that is taken, also where it covers no further stanza; the count of a resumption
//! before `Resumed`.
ghost use Rattle.std.specs.Prelude.{◌≡◌, ◌+◌, ◌≤◌, None, OnErr, OnOk};
ghost use Rattle.cl_handlers.specs.AckRows.{counts_too_high};
ghost use Rattle.cl_handlers.specs.Acks.{ack_in, acknowledges_in, request_in, too_high_in};
ghost use Rattle.cl_handlers.specs.Speech.{in_bytes};
ghost use Rattle.cl_handlers.specs.Views.{client_of, client_step_of};

use crate::answers::make_room;
use crate::client_state::ClientState;
use crate::events::{ClientOut, Event, PeerFault};
use crate::phase::Phase;
use base_io::NoMemory;
use im_replies::{ack, footer, too_high};
use sm_acks::TooHigh;
use std::alloc::Global;

impl ClientState {
    /// What a count is that is above what was sent. `None` where it isn't, and where no session stands.
    #[tactic(auto, using(crate::proofs::AckSteps::high_in, crate::proofs::AckSteps::fits_in))]
    pub(crate) fn too_high(&self, h: u32) -> Option<TooHigh>
        ensures { result ≡ too_high_in (client_of self.now).session h }
    {
        match &self.session {
            Some(session) => session.is_too_high(h),
            None => None,
        }
    }

    /// Ends the session and leaves the connection, since the server's count is above what was sent.
    pub(crate) fn count_too_high(
        &mut self,
        alloc: Global,
        fault: TooHigh,
        out: &mut ClientOut,
    ) -> Result<(), NoMemory>
        ensures ok { OnOk result (client_step_of self.new out.new ≡ counts_too_high in_bytes (client_step_of self.old out.old) fault) }
        ensures err { OnErr result (client_step_of self.new out.new ≡ client_step_of self.old out.old) }
    {
        let error = too_high(alloc, fault.h, fault.send_count)?;
        let closing = footer(alloc)?;
        make_room(
            out,
            error
                .as_slice()
                .len()
                .saturating_add(closing.as_slice().len()),
            1,
        )?;
        out.bytes.append_reserved(error.as_slice());
        out.bytes.append_reserved(closing.as_slice());
        self.drop_session();
        self.phase = Phase::Apart;
        out.events
            .push_reserved(Event::Ended(PeerFault::TooHigh(fault)));
        Ok(())
    }

    /// Takes a count that isn't above what was sent. It takes no memory.
    #[tactic(auto, using(crate::proofs::AckSteps::never_high))]
    pub(crate) fn acknowledge(&mut self, h: u32, out: &mut ClientOut)
        requires room { 1 ≤ out.old.events.spare }
        requires taken { too_high_in (client_of self.old).session h ≡ None }
        ensures turn { client_step_of self.new out.new ≡ acknowledges_in in_bytes (client_step_of self.old out.old) (client_of self.old).session h }
        ensures bytes { out.new.bytes ≡ out.old.bytes }
        ensures events { out.old.events.spare ≤ out.new.events.spare + 1 }
    {
        let Some(mut session) = self.session.take() else {
            return;
        };
        let taken = session.ack(h);
        self.session = Some(session);
        match taken {
            Ok(taken) => {
                self.said.acknowledge(taken.submissions);
                out.events.push_reserved(Event::Acked {
                    count: taken.stanzas,
                });
            }
            Err(_) => unreachable!(),
        }
    }

    /// A count that the server states (XEP-0198, section 4): what it covers waits no more, and how many stanzas these were is
    /// told, 0 of them too. One above what was sent ends the session and leaves the connection. Where memory runs out nothing
    /// changes.
    #[tactic(auto, using(crate::proofs::AckSteps::ack_high, crate::proofs::AckSteps::ack_taken))]
    pub fn ack(&mut self, alloc: Global, h: u32, out: &mut ClientOut) -> Result<(), NoMemory>
        ensures ok { OnOk result (client_step_of self.new out.new ≡ ack_in in_bytes (client_step_of self.old out.old) (client_of self.old).session h) }
        ensures err { OnErr result (client_step_of self.new out.new ≡ client_step_of self.old out.old) }
    {
        if let Some(fault) = self.too_high(h) {
            return self.count_too_high(alloc, fault, out);
        }
        out.events.reserve(1)?;
        self.acknowledge(h, out);
        Ok(())
    }

    /// A request for the count of the server's stanzas (XEP-0198, section 4). Where memory runs out nothing changes.
    pub fn request(&mut self, alloc: Global, out: &mut ClientOut) -> Result<(), NoMemory>
        ensures ok { OnOk result (client_step_of self.new out.new ≡ request_in in_bytes (client_step_of self.old out.old) (client_of self.old).session) }
        ensures err { OnErr result (client_step_of self.new out.new ≡ client_step_of self.old out.old) }
    {
        let Some(session) = &self.session else {
            return Ok(());
        };
        let answer = ack(alloc, session.handled())?;
        out.bytes.append(answer.as_slice())
    }
}
