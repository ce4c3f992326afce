//! Stanzas of a session are handled (XEP-0198, section 4).
ghost use Rattle.std.specs.Prelude.{◌≡◌, [], ◌∷◌, OnErr, OnOk, Some};
ghost use Rattle.sm_live.specs.Sessions.{info_of};
ghost use Rattle.srv_state.specs.Handling.{counting};
ghost use Rattle.srv_state.specs.Seen.{server_state_of, step_of};
ghost use Rattle.srv_state.specs.Steps.{Send, acted};
ghost use Rattle.xml_writer.specs.Items.{written_item};

use crate::context::ServerContext;
use crate::outgoing_stanza::OutgoingStanza;
use base_io::{Bytes, NoMemory};
use sm_live::SessionInfo;

impl ServerContext {
    /// A stanza of a session counts as handled, where the session's stanzas are counted (XEP-0198, section 4). It takes no
    /// memory.
    #[tactic(auto, using(crate::proofs::InfoFacts::lives_told))]
    pub fn count(&mut self, told: &SessionInfo)
        requires { Some told.now ≡ info_of told.now.number (server_state_of self.old).sessions }
        ensures step { step_of self.new ≡ acted written_item (counting told.now []) (step_of self.old) }
        ensures room { self.new.live.room ≡ self.old.live.room }
        ensures out { self.new.out ≡ self.old.out }
        ensures prebuilt { self.new.prebuilt ≡ self.old.prebuilt }
    {
        if told.counted {
            self.live.count_handled(told.number);
        }
    }

    /// A stanza of a session counts, and is answered with one stanza. A refusal leaves all as it was.
    pub fn reply(&mut self, told: &SessionInfo, bytes: Bytes) -> Result<(), NoMemory>
        requires { Some told.now ≡ info_of told.now.number (server_state_of self.old).sessions }
        ensures ok { OnOk result (step_of self.new ≡ acted written_item (counting told.now (Send told.now.number bytes.items ∷ [])) (step_of self.old)) }
        ensures err { OnErr result (step_of self.new ≡ step_of self.old) }
    {
        let outgoing_stanza = OutgoingStanza::new(self.alloc, told.number, bytes)?;
        self.reserve_stanzas(1)?;
        self.count(told);
        self.send(outgoing_stanza);
        Ok(())
    }
}
