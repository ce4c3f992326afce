//! What a session is sought by.
ghost use Rattle.std.specs.Prelude.{◌≡◌};
ghost use Rattle.sm_resumption.specs.Stored.{seeks};

use crate::session::Row;

// What a session is sought by, other than its number: a connection, an account and a resource, or that it has been parked
// for too long at a moment.
#[derive(Drop)]
pub(crate) enum Sought<'a> {
    Conn(u64),
    Named(u32, &'a str),
    Expired(u64),
}

impl Row {
    // Whether the session is sought.
    pub(crate) fn is(&self, sought: &Sought) -> bool
        ensures { result ≡ seeks sought.now self.now }
    {
        match sought {
            Sought::Conn(conn) => self.shown.conn == Some(*conn),
            Sought::Named(account, resource) => self.shown.account == *account
                && self.shown.resource.as_str() == *resource,
            Sought::Expired(now) => self.is_expired(*now),
        }
    }
}
