//! A login (RFC 6120, section 6; RFC 5802).
ghost use Rattle.std.specs.Prelude.{◌≡◌, [], ◌∷◌, IfOk, OnErr, OnOk};
ghost use Rattle.std.specs.Option.{option_copied, option_map};
ghost use Rattle.srv_login.specs.Negotiations.{condition_name, final_answer, final_seen};
ghost use Rattle.im_replies.specs.Sasl.{challenge_item, failure_item, success_item};
ghost use Rattle.srv_state.specs.Logins.{answering, at_auth, at_challenge, at_login, at_login_other, at_response, failing, negotiation_at, negotiation_in};
ghost use Rattle.srv_state.specs.Seen.{server_state_of, step_of};
ghost use Rattle.srv_state.specs.Steps.{Enter, Fail, Say, acted};
ghost use Rattle.srv_state.specs.declared.connection.Tries.TheVariants as tries;
ghost use Rattle.xml_trees.specs.Views.{elem_view};
ghost use Rattle.xml_writer.specs.Items.{written_item};

use crate::connection::{Phase, Standing, Tries};
use crate::context::ServerContext;
use crate::word::Word;
use base_io::{Bytes, NoMemory};
use im_replies::{StreamCondition, challenge, failure, footer, stream_error, success};
use srv_login::{
    AuthAnswer, FinalAnswer, Login, Negotiation, SaslCondition, auth_answer, final_answer,
};
use xml_trees::Element;

impl Phase {
    // The exchange in hand.
    fn negotiation(&self) -> Option<&Negotiation>
        ensures { option_copied result ≡ negotiation_in self.now }
    {
        match self {
            Phase::Challenge(negotiation) => Some(negotiation),
            _ => None,
        }
    }
}

impl ServerContext {
    // ---- failures

    // A failure behind which the client may try again.
    fn fail_once(&mut self, conn: u64, why: SaslCondition, left: Tries) -> Result<(), NoMemory>
        ensures ok { OnOk result (step_of self.new ≡ acted written_item (Say conn (written_item (failure_item (condition_name why))) ∷ Fail conn left ∷ []) (step_of self.old)) }
        ensures err { OnErr result (step_of self.new ≡ step_of self.old) }
    {
        self.out.reserve(1)?;
        let failure = failure(self.alloc, why.name())?;
        self.put(conn, failure);
        self.fail(conn, left);
        Ok(())
    }

    // The last failure ends the stream.
    fn fail_last(&mut self, conn: u64, why: SaslCondition) -> Result<(), NoMemory>
        ensures ok { OnOk result (step_of self.new ≡ acted written_item (failing written_item conn why tries.One) (step_of self.old)) }
        ensures err { OnErr result (step_of self.new ≡ step_of self.old) }
    {
        self.out.reserve(4)?;
        let failure = failure(self.alloc, why.name())?;
        let error = stream_error(self.alloc, StreamCondition::PolicyViolation)?;
        let footer = footer(self.alloc)?;
        self.put(conn, failure);
        self.part(conn, error, footer);
        Ok(())
    }

    // `failure`.
    fn on_failure(&mut self, conn: u64, why: SaslCondition, left: Tries) -> Result<(), NoMemory>
        ensures ok { OnOk result (step_of self.new ≡ acted written_item (failing written_item conn why left) (step_of self.old)) }
        ensures err { OnErr result (step_of self.new ≡ step_of self.old) }
    {
        match left {
            Tries::Three => self.fail_once(conn, why, Tries::Two),
            Tries::Two => self.fail_once(conn, why, Tries::One),
            Tries::One => self.fail_last(conn, why),
        }
    }

    // ---- `auth`

    // `challenge`.
    fn begin_login(&mut self, conn: u64, negotiation: Negotiation) -> Result<(), NoMemory>
        ensures ok { OnOk result (step_of self.new ≡ acted written_item (Say conn (written_item (challenge_item negotiation.exchange.message)) ∷ Enter conn (Phase.Challenge negotiation) ∷ []) (step_of self.old)) }
        ensures err { OnErr result (step_of self.new ≡ step_of self.old) }
    {
        self.out.reserve(1)?;
        let message = Bytes::from_slice(self.alloc, negotiation.exchange.message())?;
        let challenge = challenge(self.alloc, message)?;
        self.put(conn, challenge);
        self.enter(conn, Phase::Challenge(negotiation));
        Ok(())
    }

    fn on_auth(&mut self, conn: u64, element: &Element, standing: &Standing) -> Result<(), NoMemory>
        ensures ok { OnOk result (step_of self.new ≡ acted written_item (at_auth written_item conn (elem_view element.now) standing.now (server_state_of self.old)) (step_of self.old)) }
        ensures err { OnErr result (step_of self.new ≡ step_of self.old) }
    {
        match auth_answer(self.alloc, element, &standing.entropy, &self.accounts)? {
            AuthAnswer::Begins(negotiation) => self.begin_login(conn, negotiation),
            AuthAnswer::Fails(why) => self.on_failure(conn, why, standing.tries),
        }
    }

    // ---- `response`

    // The exchange of a connection.
    fn negotiation(&self, conn: u64) -> Option<&Negotiation>
        ensures { option_copied result ≡ negotiation_at conn (server_state_of self.now) }
    {
        match self.conns.get(&conn) {
            Some(connection) => connection.phase.negotiation(),
            None => None,
        }
    }

    // How a `response` is answered in the exchange.
    fn judge_response(&self, conn: u64, element: &Element) -> Result<Option<FinalAnswer>, NoMemory>
        ensures { IfOk result (λ answer. option_map final_seen answer ≡ option_map (final_answer (elem_view element.now)) (negotiation_at conn (server_state_of self.now))) }
    {
        match self.negotiation(conn) {
            Some(negotiation) => {
                let answer = final_answer(self.alloc, element, negotiation)?;
                Ok(Some(answer))
            }
            None => Ok(None),
        }
    }

    // `success`.
    fn finish_login(&mut self, conn: u64, login: Login) -> Result<(), NoMemory>
        ensures ok { OnOk result (step_of self.new ≡ acted written_item (Say conn (written_item (success_item login.message.items)) ∷ Enter conn (Phase.Restart login.account) ∷ []) (step_of self.old)) }
        ensures err { OnErr result (step_of self.new ≡ step_of self.old) }
    {
        self.out.reserve(1)?;
        let success = success(self.alloc, login.message)?;
        self.put(conn, success);
        self.enter(
            conn,
            Phase::Restart {
                account: login.account,
            },
        );
        Ok(())
    }

    fn on_final_answer(
        &mut self,
        conn: u64,
        answer: Option<FinalAnswer>,
        left: Tries,
    ) -> Result<(), NoMemory>
        ensures ok { OnOk result (step_of self.new ≡ acted written_item (answering written_item conn left (option_map final_seen answer)) (step_of self.old)) }
        ensures err { OnErr result (step_of self.new ≡ step_of self.old) }
    {
        match answer {
            Some(FinalAnswer::Succeeds(login)) => self.finish_login(conn, login),
            Some(FinalAnswer::Fails(why)) => self.on_failure(conn, why, left),
            None => Ok(()),
        }
    }

    fn on_response(
        &mut self,
        conn: u64,
        element: &Element,
        standing: &Standing,
    ) -> Result<(), NoMemory>
        ensures ok { OnOk result (step_of self.new ≡ acted written_item (at_response written_item conn (elem_view element.now) standing.now (server_state_of self.old)) (step_of self.old)) }
        ensures err { OnErr result (step_of self.new ≡ step_of self.old) }
    {
        let answer = self.judge_response(conn, element)?;
        self.on_final_answer(conn, answer, standing.tries)
    }

    // ---- the phases

    // `abort`, a stanza, and what neither phase awaits.
    fn on_login_other(
        &mut self,
        conn: u64,
        word: &Word,
        standing: &Standing,
    ) -> Result<(), NoMemory>
        ensures ok { OnOk result (step_of self.new ≡ acted written_item (at_login_other written_item conn word.now standing.now (server_state_of self.old)) (step_of self.old)) }
        ensures err { OnErr result (step_of self.new ≡ step_of self.old) }
    {
        match word {
            Word::Abort => self.on_failure(conn, SaslCondition::Aborted, standing.tries),
            Word::Stanza { .. } => self.end_with(conn, StreamCondition::NotAuthorized, standing),
            _ => self.on_any(conn, word, standing),
        }
    }

    /// An element where a login is awaited (RFC 6120, section 6.4.2): `auth` gets its challenge or a failure, `abort` a
    /// failure, a stanza ends the stream, and all else goes as by `on_any`. A refusal leaves all as it was.
    pub fn on_login(&mut self, conn: u64, word: &Word, standing: &Standing) -> Result<(), NoMemory>
        ensures ok { OnOk result (step_of self.new ≡ acted written_item (at_login written_item conn word.now standing.now (server_state_of self.old)) (step_of self.old)) }
        ensures err { OnErr result (step_of self.new ≡ step_of self.old) }
    {
        match word {
            Word::Auth { element, .. } => self.on_auth(conn, element.element(), standing),
            _ => self.on_login_other(conn, word, standing),
        }
    }

    /// An element where the answer to a challenge is awaited (RFC 6120, section 6.4.3): `response` gets the success or a
    /// failure, and all else goes as by `on_login`. A refusal leaves all as it was.
    pub fn on_challenge(
        &mut self,
        conn: u64,
        word: &Word,
        standing: &Standing,
    ) -> Result<(), NoMemory>
        ensures ok { OnOk result (step_of self.new ≡ acted written_item (at_challenge written_item conn word.now standing.now (server_state_of self.old)) (step_of self.old)) }
        ensures err { OnErr result (step_of self.new ≡ step_of self.old) }
    {
        match word {
            Word::Response { element, .. } => self.on_response(conn, element.element(), standing),
            _ => self.on_login_other(conn, word, standing),
        }
    }
}
