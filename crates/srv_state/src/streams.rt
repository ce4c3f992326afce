//! How a stream begins and ends (RFC 6120, sections 4.3 to 4.9).
//!
//! An idle connection has no queue. One is made ahead of a binding.
ghost use Rattle.std.specs.Prelude.{◌≡◌, true, OnErr, OnOk};
ghost use Rattle.srv_state.specs.Seen.{server_state_of, step_of};
ghost use Rattle.srv_state.specs.Steps.{acted};
ghost use Rattle.srv_state.specs.Streams;
ghost use Rattle.srv_state.specs.Streams.{at_any, at_header, closing, ending, ending_in, field_condition, header_condition, header_in, opening, parting};
ghost use Rattle.im_replies.specs.Streams.{error_item};
ghost use Rattle.srv_state.specs.declared.connection.Stage.TheVariants as stage;
ghost use Rattle.xml_writer.specs.Items.{written_item};

use crate::connection::{Phase, Stage, Standing};
use crate::context::ServerContext;
use crate::word::Word;
use base_io::NoMemory;
use im_replies::{StreamCondition, footer, header, login_features, session_features, stream_error};
use srv_login::{HeaderAnswer, HeaderFault, judge_header};
use xml_names::Header;

fn header_condition(fault: HeaderFault) -> StreamCondition
    ensures { result ≡ header_condition fault }
{
    match fault {
        HeaderFault::InvalidNamespace => StreamCondition::InvalidNamespace,
        HeaderFault::UnsupportedVersion => StreamCondition::UnsupportedVersion,
        HeaderFault::HostUnknown => StreamCondition::HostUnknown,
    }
}

fn field_condition(bad: bool) -> StreamCondition
    ensures { result ≡ field_condition bad }
{
    if bad {
        StreamCondition::BadFormat
    } else {
        StreamCondition::UnsupportedStanzaType
    }
}

impl Stage {
    // Whether the phase awaits a header.
    fn awaits_header(self) -> bool
        ensures { result ≡ Streams.awaits_header self }
    {
        matches!(self, Stage::Start | Stage::Restart { .. })
    }
}

impl ServerContext {
    // Ends a stream with an error, where the header was put.
    fn end_opened(&mut self, conn: u64, condition: StreamCondition) -> Result<(), NoMemory>
        ensures ok { OnOk result (step_of self.new ≡ acted written_item (parting written_item conn (written_item (error_item condition))) (step_of self.old)) }
        ensures err { OnErr result (step_of self.new ≡ step_of self.old) }
    {
        self.out.reserve(3)?;
        let error = stream_error(self.alloc, condition)?;
        let footer = footer(self.alloc)?;
        self.part(conn, error, footer);
        Ok(())
    }

    // The same where it wasn't.
    fn end_unopened(
        &mut self,
        conn: u64,
        condition: StreamCondition,
        entropy: &[u8; 24],
    ) -> Result<(), NoMemory>
        ensures ok { OnOk result (step_of self.new ≡ acted written_item (ending_in written_item conn condition stage.Start entropy.now (server_state_of self.old)) (step_of self.old)) }
        ensures err { OnErr result (step_of self.new ≡ step_of self.old) }
    {
        self.out.reserve(4)?;
        let header = header(self.alloc, self.domain.as_str(), conn, entropy)?;
        let error = stream_error(self.alloc, condition)?;
        let footer = footer(self.alloc)?;
        self.put(conn, header);
        self.part(conn, error, footer);
        Ok(())
    }

    /// Ends a stream with an error (RFC 6120, section 4.9.1), behind the header where that was not put yet. A refusal leaves
    /// all as it was.
    pub fn end_with(
        &mut self,
        conn: u64,
        condition: StreamCondition,
        standing: &Standing,
    ) -> Result<(), NoMemory>
        ensures ok { OnOk result (step_of self.new ≡ acted written_item (ending written_item conn condition standing.now (server_state_of self.old)) (step_of self.old)) }
        ensures err { OnErr result (step_of self.new ≡ step_of self.old) }
    {
        match standing.stage {
            Stage::Start => self.end_unopened(conn, condition, &standing.entropy),
            _ => self.end_opened(conn, condition),
        }
    }

    /// Closes a stream: the footer, and the connection is shut (RFC 6120, section 4.4). A refusal leaves all as it was.
    pub fn close(&mut self, conn: u64) -> Result<(), NoMemory>
        ensures ok { OnOk result (step_of self.new ≡ acted written_item (closing written_item conn) (step_of self.old)) }
        ensures err { OnErr result (step_of self.new ≡ step_of self.old) }
    {
        self.out.reserve(2)?;
        let footer = footer(self.alloc)?;
        self.put(conn, footer);
        self.shut(conn);
        Ok(())
    }

    // The stream opens for a login.
    fn open_login(&mut self, conn: u64, entropy: &[u8; 24]) -> Result<(), NoMemory>
        ensures ok { OnOk result (step_of self.new ≡ acted written_item (opening written_item conn entropy.now stage.Start (server_state_of self.old)) (step_of self.old)) }
        ensures err { OnErr result (step_of self.new ≡ step_of self.old) }
    {
        self.out.reserve(2)?;
        let header = header(self.alloc, self.domain.as_str(), conn, entropy)?;
        let features = login_features(self.alloc)?;
        self.put(conn, header);
        self.put(conn, features);
        self.enter(conn, Phase::Login);
        Ok(())
    }

    // The stream opens behind a login.
    fn open_session(&mut self, conn: u64, entropy: &[u8; 24], account: u32) -> Result<(), NoMemory>
        ensures ok { OnOk result (step_of self.new ≡ acted written_item (opening written_item conn entropy.now (stage.Restart account) (server_state_of self.old)) (step_of self.old)) }
        ensures err { OnErr result (step_of self.new ≡ step_of self.old) }
    {
        self.out.reserve(2)?;
        let header = header(self.alloc, self.domain.as_str(), conn, entropy)?;
        let features = session_features(self.alloc)?;
        self.put(conn, header);
        self.put(conn, features);
        self.enter(conn, Phase::Ready { account });
        Ok(())
    }

    // The stream opens.
    fn open(&mut self, conn: u64, standing: &Standing) -> Result<(), NoMemory>
        ensures ok { OnOk result (step_of self.new ≡ acted written_item (opening written_item conn standing.now.entropy standing.now.stage (server_state_of self.old)) (step_of self.old)) }
        ensures err { OnErr result (step_of self.new ≡ step_of self.old) }
    {
        match standing.stage {
            Stage::Restart { account } => self.open_session(conn, &standing.entropy, account),
            _ => self.open_login(conn, &standing.entropy),
        }
    }

    // A header that is awaited.
    fn on_awaited_header(
        &mut self,
        conn: u64,
        header: &Header,
        standing: &Standing,
    ) -> Result<(), NoMemory>
        ensures ok { OnOk result (step_of self.new ≡ acted written_item (header_in written_item conn header.now standing.now true (server_state_of self.old)) (step_of self.old)) }
        ensures err { OnErr result (step_of self.new ≡ step_of self.old) }
    {
        match judge_header(self.alloc, self.domain.as_str(), header)? {
            HeaderAnswer::Opens => self.open(conn, standing),
            HeaderAnswer::Refused(why) => self.end_with(conn, header_condition(why), standing),
        }
    }

    /// A header (RFC 6120, section 4.3): the stream opens, or ends with why it can't. A refusal leaves all as it was.
    pub fn on_header(
        &mut self,
        conn: u64,
        header: &Header,
        standing: &Standing,
    ) -> Result<(), NoMemory>
        ensures ok { OnOk result (step_of self.new ≡ acted written_item (at_header written_item conn header.now standing.now (server_state_of self.old)) (step_of self.old)) }
        ensures err { OnErr result (step_of self.new ≡ step_of self.old) }
    {
        if standing.stage.awaits_header() {
            self.on_awaited_header(conn, header, standing)
        } else {
            self.end_with(conn, StreamCondition::UnsupportedStanzaType, standing)
        }
    }

    /// An element that its phase doesn't await (RFC 6120, section 4.9.3): it ends the stream. A refusal leaves all as it
    /// was.
    pub fn on_any(&mut self, conn: u64, word: &Word, standing: &Standing) -> Result<(), NoMemory>
        ensures ok { OnOk result (step_of self.new ≡ acted written_item (at_any written_item conn word.now standing.now (server_state_of self.old)) (step_of self.old)) }
        ensures err { OnErr result (step_of self.new ≡ step_of self.old) }
    {
        match word {
            Word::BadField => self.end_with(conn, StreamCondition::BadFormat, standing),
            Word::Auth { bad, .. } | Word::Response { bad, .. } => {
                self.end_with(conn, field_condition(*bad), standing)
            }
            Word::StreamError => self.close(conn),
            _ => self.end_with(conn, StreamCondition::UnsupportedStanzaType, standing),
        }
    }
}
