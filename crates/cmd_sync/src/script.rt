//! A script: who logs in, and what is to be done then.
use base_io::{ListOf, Text};
use im_jid::Jid;
use std::marker::Model;

/// Who logs in: the bare address of an account, its password, and the resource that is asked for, as it was spelled
/// (RFC 6120, section 7).
#[derive(Drop)]
pub struct User {
    pub address: Jid,
    pub password: Text,
    pub resource: Text,
}

/// What is to be done, which is done before the next step begins.
#[derive(Drop)]
pub enum Step {
    /// A message goes to an address, and is acknowledged (XEP-0198, section 4).
    Say { to: Jid, text: Text },
    /// The log catches up with the archive, in pages of at most so many entries, until a page is the last (XEP-0313,
    /// section 4).
    CatchUp { max: u32 },
}

/// Steps, in order.
pub type Steps = ListOf<Step>;

/// A script: who logs in, and the steps in order.
#[derive(Drop)]
pub struct Script {
    pub user: User,
    pub steps: Steps,
}

impl Model for Script {
    ghost use Rattle.cmd_sync.specs.Scripts.{ScriptView};

    ghost Value = { ScriptView };

    ghost view = { λ s. record { user = s.user; steps = s.steps.items } };
}
