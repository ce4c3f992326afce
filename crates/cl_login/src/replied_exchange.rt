//! An exchange whose challenge was answered.
use auth_scram::{ScramClient, ScramFault};
use std::marker::Model;

/// A client's end of an exchange that has replied, so that it expects a verifier (RFC 5802, section 5).
#[derive(Drop)]
pub struct RepliedExchange {
    exchange: ScramClient,
}

impl Model for RepliedExchange {
    ghost use Rattle.std.specs.Prelude.{IsSome};
    ghost use Rattle.auth_scram.specs.Exchange.{ClientView};

    ghost Value = { ClientView };

    ghost view = { λ r. r.exchange };

    ghost invariant = { λ r. IsSome r.exchange.expected };
}

impl RepliedExchange {
    ghost use Rattle.std.specs.Prelude.{◌≡◌, IsSome};
    ghost use Rattle.auth_scram.specs.Exchange.{check_of};

    pub(crate) fn new(exchange: ScramClient) -> RepliedExchange
        requires { IsSome exchange.expected }
        ensures { result ≡ exchange }
    {
        RepliedExchange { exchange }
    }

    // Judges the server's final message. It takes no memory.
    pub(crate) fn check(&self, server_final: &[u8]) -> Result<(), ScramFault>
        ensures { result ≡ check_of self.now server_final.now }
    {
        self.exchange.check(server_final)
    }
}
