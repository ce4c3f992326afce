//! The states of a login.
use crate::account::ClientAccount;
use crate::answers::{Answer, Next, NotTaken, ends, or_not_taken, sends};
use crate::begun_exchange::BegunExchange;
use crate::login_fault::LoginFault;
use crate::nonce::Nonce;
use crate::replied_exchange::RepliedExchange;
use crate::rows::{authing, features1, other, responding};
use crate::writing::header_bytes;
use base_io::{Bytes, NoMemory};
use std::alloc::Global;
use xml_trees::Tree;

/// How far a login has come, by what is awaited of the server, with what it has until then.
#[derive(Drop)]
pub enum LoginState {
    /// The first header.
    Header1 { nonce: Nonce },
    /// The features of the first stream.
    Features1 { nonce: Nonce },
    /// The challenge.
    Authing { exchange: BegunExchange },
    /// The success.
    Responding { exchange: RepliedExchange },
    /// The second header.
    Header2,
}

impl LoginState {
    ghost use Rattle.std.specs.Prelude.{◌≡◌, IfErr, IfOk};
    ghost use Rattle.cl_login.specs.LoginRows.{begin_row, element_row, header_row};
    ghost use Rattle.cl_login.specs.Puts.{seen, spelled};

    /// The login of a connection to a domain, with the bytes that were drawn for it, of which the first 18 are the nonce:
    /// the declaration and the header with `to` and the version 1.0 go out (RFC 6120, section 4.7).
    pub fn begin(alloc: Global, domain: &str, entropy: &[u8; 24]) -> Result<Answer, NoMemory>
        ensures { IfOk result (λ a. seen a ≡ spelled (begin_row domain.now entropy.now)) }
    {
        let nonce = Nonce::of_entropy(entropy);
        let bytes = header_bytes(alloc, domain)?;
        Ok(sends(bytes, LoginState::Header1 { nonce }))
    }

    /// What a header of the server does. The first is followed by features, and behind the second one the login is done.
    /// What it says isn't looked at. It ends the login by `Unexpected` in every other state. It takes no memory.
    pub fn header(self, alloc: Global) -> Answer
        ensures { seen result ≡ spelled (header_row self) }
    {
        let next = match self {
            LoginState::Header1 { nonce } => Next::Goes(LoginState::Features1 { nonce }),
            LoginState::Header2 => Next::LoggedIn,
            _ => return ends(alloc, LoginFault::Unexpected),
        };
        Answer {
            bytes: Bytes::new(alloc),
            next,
        }
    }

    /// What an element of the server does, which is neither a stream error nor a footer: its caller has judged these.
    ///
    /// - Features that offer SCRAM-SHA-256 are answered by `auth` (RFC 6120, section 6.4.2). Others end the login by
    ///   `NoFeature`, and a name or password that isn't printable ASCII by `Scram`.
    /// - A challenge is answered by the response (section 6.4.3), or ends the login by `Scram` where the server's first
    ///   message is refused (RFC 5802, section 5).
    /// - A success with the verifier that is expected is answered by the header of the second stream (RFC 6120, section
    ///   6.4.6). Another verifier ends the login by `BadVerifier`, and another refusal by `Scram`.
    /// - A `failure` ends it by `Sasl`, and any other element that isn't awaited, or can't be read, by `Unexpected`.
    ///
    /// Where memory runs out the element isn't taken, and the state is handed back as it was. The account's password keeps
    /// what it was stretched to for a challenge, so that another with the same salt and count doesn't stretch it again.
    pub fn element(
        self,
        alloc: Global,
        account: &mut ClientAccount,
        tree: &Tree,
    ) -> Result<Answer, NotTaken>
        ensures ok { IfOk result (λ a. seen a ≡ spelled (element_row account.old self tree.now)) }
        ensures err { IfErr result (λ e. e.state ≡ self) }
        ensures same { account.new ≡ account.old }
    {
        match self {
            LoginState::Features1 { nonce } => {
                let answer = features1(alloc, account, &nonce, tree);
                or_not_taken(answer, LoginState::Features1 { nonce })
            }
            LoginState::Authing { exchange } => {
                authing(alloc, exchange, &mut account.password, tree)
            }
            LoginState::Responding { exchange } => {
                let answer = responding(alloc, account.domain.as_str(), &exchange, tree);
                or_not_taken(answer, LoginState::Responding { exchange })
            }
            LoginState::Header1 { nonce } => {
                or_not_taken(other(alloc, tree), LoginState::Header1 { nonce })
            }
            LoginState::Header2 => or_not_taken(other(alloc, tree), LoginState::Header2),
        }
    }
}
