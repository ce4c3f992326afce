//! The states from the first header to the second one (RFC 6120, sections 4.3 and 6).
ghost use Rattle.std.specs.Prelude.{◌≡◌, ◌≤◌, IfOk, OnErr, OnOk};
ghost use Rattle.cl_handlers.specs.LoginSteps.{follows, goes_on, login_row, other_element, peer_fault};
ghost use Rattle.cl_handlers.specs.LoginSteps;
ghost use Rattle.cl_handlers.specs.Speech.{in_bytes};
ghost use Rattle.cl_handlers.specs.ClientSteps.{left, puts};
ghost use Rattle.cl_handlers.specs.Views.{client_step_of};
ghost use Rattle.cl_login.specs.LoginRows.{begin_row, other_fault};
ghost use Rattle.im_login.specs.Readings.{failure_read};

use crate::answers::make_room;
use crate::client_state::ClientState;
use crate::events::{ClientOut, Event, PeerFault};
use crate::phase::Phase;
use base_io::NoMemory;
use cl_login::{Answer, LoginFault, LoginState, Next};
use im_login::SaslFailure;
use im_payload::ExtFault;
use std::alloc::Global;
use std::mem;
use xml_trees::Tree;

// A fault of a login as one of the peer.
fn peer_fault(fault: LoginFault) -> PeerFault
    ensures { result ≡ peer_fault fault }
{
    match fault {
        LoginFault::Sasl(condition) => PeerFault::Sasl(condition),
        LoginFault::BadVerifier => PeerFault::BadVerifier,
        LoginFault::Scram => PeerFault::Scram,
        LoginFault::NoFeature => PeerFault::NoFeature,
        LoginFault::Unexpected => PeerFault::Unexpected,
    }
}

// What an element is that its state doesn't await: a failure of SASL, or another.
fn other_fault(alloc: Global, tree: &Tree) -> Result<PeerFault, NoMemory>
    ensures { IfOk result (λ fault. fault ≡ peer_fault (other_fault (failure_read tree.now))) }
{
    match SaslFailure::read(alloc, tree) {
        Ok(failure) => Ok(PeerFault::Sasl(failure.condition)),
        Err(ExtFault::NoMemory) => Err(NoMemory),
        Err(ExtFault::NotThis | ExtFault::Bad(_)) => Ok(PeerFault::Unexpected),
    }
}

impl ClientState {
    /// An element that its state doesn't await.
    pub(crate) fn other(
        &mut self,
        alloc: Global,
        tree: &Tree,
        out: &mut ClientOut,
    ) -> Result<(), NoMemory>
        ensures ok { OnOk result (client_step_of self.new out.new ≡ other_element (client_step_of self.old out.old) tree.now) }
        ensures err { OnErr result (left (client_step_of self.new out.new) ≡ left (client_step_of self.old out.old)) }
    {
        let fault = other_fault(alloc, tree)?;
        self.end(fault, out)
    }

    // How the connection goes on behind a row of the login.
    fn go_on(&mut self, next: Next, out: &mut ClientOut)
        requires { 1 ≤ out.old.events.spare }
        ensures { client_step_of self.new out.new ≡ goes_on (client_step_of self.old out.old) next }
    {
        match next {
            Next::Goes(state) => self.phase = Phase::Login(state),
            Next::LoggedIn => self.phase = Phase::Features2,
            Next::Ends(fault) => {
                self.phase = Phase::Apart;
                out.events.push_reserved(Event::Ended(peer_fault(fault)));
            }
        }
    }

    /// Does what a row of the login answered.
    pub(crate) fn follow(&mut self, answer: Answer, out: &mut ClientOut) -> Result<(), NoMemory>
        ensures ok { OnOk result (client_step_of self.new out.new ≡ goes_on (puts (client_step_of self.old out.old) answer.bytes.items) answer.next) }
        ensures err { OnErr result (client_step_of self.new out.new ≡ client_step_of self.old out.old) }
    {
        let Answer { bytes, next } = answer;
        make_room(out, bytes.as_slice().len(), 1)?;
        out.bytes.append_reserved(bytes.as_slice());
        self.go_on(next, out);
        Ok(())
    }

    /// Leaves an earlier connection, and begins the login on another (RFC 6120, section 4.7). `entropy` is what was drawn for it
    /// alone. Where memory runs out nothing changes.
    #[tactic(auto, using(crate::proofs::Followed::begun_as))]
    pub fn begin_login(
        &mut self,
        alloc: Global,
        entropy: &[u8; 24],
        out: &mut ClientOut,
    ) -> Result<(), NoMemory>
        ensures ok { OnOk result (client_step_of self.new out.new ≡ follows in_bytes (client_step_of self.old out.old) (begin_row self.old.account.login.domain entropy.now)) }
        ensures err { OnErr result (client_step_of self.new out.new ≡ client_step_of self.old out.old) }
    {
        let domain = self.account.login.domain.as_str();
        let answer = LoginState::begin(alloc, domain, entropy)?;
        self.follow(answer, out)
    }

    /// An element before the login is done (RFC 6120, section 6). Where memory runs out nothing is put or told, and the
    /// connection may be left.
    #[tactic(auto, using(crate::proofs::Followed::followed))]
    pub fn login(
        &mut self,
        alloc: Global,
        state: LoginState,
        tree: &Tree,
        out: &mut ClientOut,
    ) -> Result<(), NoMemory>
        ensures ok { OnOk result (client_step_of self.new out.new ≡ login_row in_bytes (client_step_of self.old out.old) state tree.now) }
        ensures err { OnErr result (left (client_step_of self.new out.new) ≡ left (client_step_of self.old out.old)) }
    {
        let answer = state.element(alloc, &mut self.account.login, tree)?;
        self.follow(answer, out)
    }

    /// A header (RFC 6120, section 4.7). Where memory runs out nothing is put or told, and the connection may be left.
    #[tactic(auto, using(crate::proofs::Followed::followed))]
    pub fn header(&mut self, alloc: Global, out: &mut ClientOut) -> Result<(), NoMemory>
        ensures ok { OnOk result (client_step_of self.new out.new ≡ LoginSteps.header_row in_bytes (client_step_of self.old out.old) self.old.phase) }
        ensures err { OnErr result (left (client_step_of self.new out.new) ≡ left (client_step_of self.old out.old)) }
    {
        let phase = mem::replace(&mut self.phase, Phase::Apart);
        match phase {
            Phase::Login(state) => {
                let answer = state.header(alloc);
                self.follow(answer, out)
            }
            Phase::Online => {
                self.phase = Phase::Online;
                Ok(())
            }
            Phase::Apart => Ok(()),
            Phase::Features2 | Phase::Resuming | Phase::Binding | Phase::Enabling => {
                self.end(PeerFault::Unexpected, out)
            }
        }
    }
}
