//! An exchange whose challenge is awaited.
use crate::account::ClientAccount;
use crate::answers::{Answer, NotTaken, ends, sends};
use crate::login_fault::LoginFault;
use crate::login_state::LoginState;
use crate::nonce::Nonce;
use crate::replied_exchange::RepliedExchange;
use crate::writing::{auth_bytes, response_bytes};
use auth_scram::{Password, ScramClient, ScramFault};
use base_io::{Bytes, NoMemory};
use std::alloc::Global;
use std::marker::Model;

/// A client's end of an exchange that has sent its first message (RFC 5802, section 5). Contracts see it as it was before
/// any challenge.
#[derive(Drop)]
pub struct BegunExchange {
    exchange: ScramClient,
}

impl Model for BegunExchange {
    ghost use Rattle.std.specs.Prelude.{None};
    ghost use Rattle.auth_scram.specs.Exchange.{ClientView};

    ghost Value = { ClientView };

    ghost view = { λ b. record b.exchange { expected = None } };
}

impl BegunExchange {
    ghost use Rattle.std.specs.Prelude.{◌≡◌, IfErr, IfOk, IsSome, codes};
    ghost use Rattle.cl_login.specs.LoginRows;
    ghost use Rattle.cl_login.specs.LoginRows.{begun, replied, unanswered};
    ghost use Rattle.cl_login.specs.Puts.{seen, spelled};
    ghost use Rattle.xml_writer.specs.Items.{Whole};
    ghost use Rattle.im_login.specs.Sasl.{carrier};
    ghost use Rattle.auth_scram.specs.Exchange.{begun_client, reply_of};

    // Begins an exchange under a nonce.
    #[tactic(auto, using(auth_scram::proofs::Refusals::refused_as, crate::proofs::Exchanges::begins_unanswered))]
    pub(crate) fn begin(
        alloc: Global,
        account: &ClientAccount,
        nonce: &Nonce,
    ) -> Result<Answer, NoMemory>
        ensures { IfOk result (λ a. seen a ≡ spelled (begun (begun_client account.now.name account.now.password nonce.now))) }
    {
        let name = account.name.as_str();
        match ScramClient::first(alloc, name, &account.password, nonce.as_str()) {
            Ok(exchange) => {
                let bytes = auth_bytes(alloc, exchange.message())?;
                let exchange = BegunExchange { exchange };
                Ok(sends(bytes, LoginState::Authing { exchange }))
            }
            Err(ScramFault::NoMemory) => Err(NoMemory),
            Err(_) => Ok(ends(alloc, LoginFault::Scram)),
        }
    }

    // Want of memory in an exchange, whether or not the challenge was answered.
    fn not_taken(exchange: ScramClient) -> NotTaken
        ensures { result.state ≡ LoginState.Authing (unanswered exchange) }
    {
        NotTaken {
            state: LoginState::Authing {
                exchange: BegunExchange { exchange },
            },
        }
    }

    // Sends a reply of an exchange that has made it.
    fn send(alloc: Global, exchange: ScramClient, message: Bytes) -> Result<Answer, NotTaken>
        requires { IsSome exchange.expected }
        ensures ok { IfOk result (λ a. seen a ≡ spelled (LoginRows.sends (Whole (carrier (codes "response") message.items)) (LoginState.Responding exchange))) }
        ensures err { IfErr result (λ e. e.state ≡ LoginState.Authing (unanswered exchange)) }
    {
        match response_bytes(alloc, message) {
            Ok(bytes) => {
                let exchange = RepliedExchange::new(exchange);
                Ok(sends(bytes, LoginState::Responding { exchange }))
            }
            Err(NoMemory) => Err(BegunExchange::not_taken(exchange)),
        }
    }

    // Replies to the server's first message, and hands what the password was stretched to over to the account's.
    #[tactic(auto, using(auth_scram::proofs::Refusals::refused_as, crate::proofs::Exchanges::expecting_unanswered))]
    pub(crate) fn reply(
        self,
        alloc: Global,
        password: &mut Password,
        server_first: &[u8],
    ) -> Result<Answer, NotTaken>
        ensures ok { IfOk result (λ a. seen a ≡ spelled (replied self (reply_of self server_first.now))) }
        ensures err { IfErr result (λ e. e.state ≡ LoginState.Authing self) }
        ensures same { password.new ≡ password.old }
    {
        let mut exchange = self.exchange;
        match exchange.reply(alloc, server_first) {
            Ok(message) => {
                exchange.teach(password);
                BegunExchange::send(alloc, exchange, message)
            }
            Err(ScramFault::NoMemory) => Err(BegunExchange::not_taken(exchange)),
            Err(_) => Ok(ends(alloc, LoginFault::Scram)),
        }
    }
}
