//! What becomes of a message.
use crate::archiving::Archiving;
use base_io::Numbers;
use im_stanza::StanzaError;
use std::marker::Model;

/// Where a message goes. Sessions are named by their numbers, which ascend.
#[derive(Drop)]
pub struct Route {
    /// In whose archives.
    pub archiving: Archiving,
    /// To which sessions it is delivered: all are of one account.
    pub deliver: Numbers,
    /// Which sessions of the sender's account get a copy of it as sent (XEP-0280, section 8).
    pub sent: Numbers,
    /// Which sessions of the recipient's account get a copy of it as received (XEP-0280, section 7).
    pub received: Numbers,
}

impl Model for Route {
    ghost use Rattle.std.specs.Prelude.{ℕ};
    ghost use Rattle.srv_route.specs.Routes.{RouteOf};

    ghost Value = { RouteOf ℕ };

    ghost view = { λ r. record { archiving = r.archiving; deliver = r.deliver.items; sent = r.sent.items; received = r.received.items } };
}

/// What becomes of a message.
#[derive(Drop)]
pub enum Plan {
    /// It is answered with an error, and nothing else happens.
    Bounced(StanzaError),
    /// It goes its way, which may be to nobody.
    Routed(Route),
}
