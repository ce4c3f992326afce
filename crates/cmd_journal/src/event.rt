//! What happens to a server, as its journal says it.
use crate::accounts_file::AccountsFile;
use base_io::{Bytes, ListOf};
use std::marker::Model;

/// The greatest number of a connection.
pub const LAST_CONNECTION: u64 = 9_223_372_036_854_775_807;

/// One thing that happens to a server. `moment` is when, in milliseconds since 1970.
#[derive(Drop)]
pub enum Event {
    /// A connection begins, with the bytes that are drawn for it.
    Connect {
        connection: u64,
        moment: u64,
        entropy: [u8; 24],
    },
    /// Bytes come in on a connection.
    Piece {
        connection: u64,
        moment: u64,
        bytes: Bytes,
    },
    /// A connection is gone.
    Gone {
        connection: u64,
        moment: u64,
    },
}

/// Events, in order.
pub type Events = ListOf<Event>;

/// What a server's run is done again from: its accounts, and what happened to it.
#[derive(Drop)]
pub struct RerunInput {
    pub accounts: AccountsFile,
    pub events: Events,
}

impl Model for RerunInput {
    ghost use Rattle.std.specs.Prelude.{map};
    ghost use Rattle.cmd_journal.specs.Journals.{InputView, event_view};

    ghost Value = { InputView };

    ghost view = { λ r. record { accounts = r.accounts; events = map event_view r.events.items } };
}
