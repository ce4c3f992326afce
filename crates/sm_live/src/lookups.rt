//! Look-ups of sessions: by number, by connection, by account and resource.
ghost use Rattle.std.specs.Prelude.{◌≡◌, ◌≤◌, IfSome, map};
ghost use Rattle.std.specs.Option.{option_copied, option_map};
ghost use Rattle.sm_live.specs.Sessions.{info_of, number_of, session_at, session_named, session_of, sessions_of, told as told_by};

use crate::live::Live;
use crate::told::SessionInfo;
use sm_acks::MOST_UNACKNOWLEDGED;
use sm_resumption::SessionView;

impl SessionInfo {
    // What is told of a session, with how many stanzas of the peer were handled and how many of its own wait.
    fn of(shown: &SessionView, handled: u32, waiting: u64) -> SessionInfo
        ensures { result ≡ record { number = shown.now.number; account = shown.now.account; conn = shown.now.conn; available = shown.now.available; priority = shown.now.priority; carbons = shown.now.carbons; counted = shown.now.counted; asked = shown.now.asked; handled = handled; waiting = waiting } }
    {
        SessionInfo {
            number: shown.number,
            account: shown.account,
            conn: shown.conn,
            available: shown.available,
            priority: shown.priority,
            carbons: shown.carbons,
            counted: shown.counted,
            asked: shown.asked,
            handled,
            waiting,
        }
    }
}

impl Live {
    /// What is told of the session with a number. `None` exactly where it doesn't live.
    pub fn told(&self, number: u64) -> Option<SessionInfo>
        ensures told { result ≡ info_of number self.now.sessions }
        ensures few { IfSome result (λ t. t.waiting ≤ MOST_UNACKNOWLEDGED) }
    {
        let shown = self.table.view(number)?;
        let end = self.table.ack_end(number)?;
        Some(SessionInfo::of(shown, end.handled(), self.pool.len(end.queue())))
    }

    /// What is told of the session on a connection. `None` exactly where the connection has none.
    pub fn info_at(&self, conn: u64) -> Option<SessionInfo>
        ensures told { result ≡ option_map told_by (session_at conn self.now.sessions) }
        ensures same { IfSome result (λ t. session_of t.number self.now.sessions ≡ session_at conn self.now.sessions) }
        ensures few { IfSome result (λ t. t.waiting ≤ MOST_UNACKNOWLEDGED) }
    {
        self.table.keeps_rule();
        self.told(self.table.by_conn(conn)?)
    }

    /// What is told of the session of an account with a resource. `None` exactly where there is none.
    pub fn info_named(&self, account: u32, resource: &str) -> Option<SessionInfo>
        ensures told { result ≡ option_map told_by (session_named account resource.now self.now.sessions) }
        ensures same { IfSome result (λ t. session_of t.number self.now.sessions ≡ session_named account resource.now self.now.sessions) }
        ensures few { IfSome result (λ t. t.waiting ≤ MOST_UNACKNOWLEDGED) }
    {
        self.table.keeps_rule();
        self.told(self.table.by_name(account, resource)?)
    }

    /// All that is told of the session with a number. `None` exactly where it doesn't live.
    pub fn view(&self, number: u64) -> Option<&SessionView>
        ensures { option_copied result ≡ option_map (λ s. s.shown) (session_of number self.now.sessions) }
    {
        self.table.view(number)
    }

    /// The numbers of an account's sessions, ascending.
    pub fn of_account(&self, account: u32) -> &[u64]
        ensures { result.now ≡ map number_of (sessions_of account self.now.sessions) }
    {
        self.table.of_account(account)
    }
}
