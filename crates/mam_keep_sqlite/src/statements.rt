//! The tables of the file, and what is asked of them, as SQL.

/// `given` is the greatest session number given, 0 at first: a session number is up to 2^63, and the greatest of the
/// file's integers is one less. `position` is the account's `id` times 2^32, and the entry's number.
pub(crate) const TABLES: &str =
    "CREATE TABLE IF NOT EXISTS server (id INTEGER PRIMARY KEY, given INTEGER NOT NULL) STRICT;
CREATE TABLE IF NOT EXISTS account (id INTEGER PRIMARY KEY, owner TEXT NOT NULL UNIQUE, last INTEGER NOT NULL) STRICT;
CREATE TABLE IF NOT EXISTS entry (place INTEGER PRIMARY KEY, stamp INTEGER NOT NULL, sender TEXT NOT NULL, recipient TEXT NOT NULL, normal INTEGER NOT NULL, id TEXT NOT NULL, origin TEXT NOT NULL, bodies TEXT NOT NULL) STRICT;";

pub(crate) const BEGIN: &str = "BEGIN";

pub(crate) const COMMIT: &str = "COMMIT";

pub(crate) const ROLLBACK: &str = "ROLLBACK";

/// Sets `given`.
pub(crate) const SET_GIVEN: &str =
    "INSERT INTO server (id, given) VALUES (1, ?1) ON CONFLICT (id) DO UPDATE SET given = excluded.given";

/// The account with an address.
pub(crate) const FIND_ACCOUNT: &str = "SELECT id, last FROM account WHERE owner = ?1";

pub(crate) const ADD_ACCOUNT: &str = "INSERT INTO account (owner, last) VALUES (?1, 0)";

pub(crate) const SET_LAST: &str = "UPDATE account SET last = ?2 WHERE id = ?1";

pub(crate) const ADD_ENTRY: &str =
    "INSERT INTO entry (place, stamp, sender, recipient, normal, id, origin, bodies) VALUES (?1, ?2, ?3, ?4, ?5, ?6, ?7, ?8)";

/// Drops the entries from one place to another.
pub(crate) const PURGE: &str = "DELETE FROM entry WHERE place >= ?1 AND place <= ?2";

pub(crate) const GIVEN: &str = "SELECT given FROM server WHERE id = 1";

/// The accounts in the order of their addresses, by bytes.
pub(crate) const ACCOUNTS: &str = "SELECT id, owner, last FROM account ORDER BY owner";

/// The first entries after one place and up to another.
pub(crate) const ENTRIES: &str =
    "SELECT place, stamp, sender, recipient, normal, id, origin, bodies FROM entry WHERE place > ?1 AND place <= ?2 ORDER BY place LIMIT ?3";

/// How many entries are read at once: their rows stand in memory beside the entries made of them.
pub(crate) const ROWS_AT_ONCE: u32 = 1000;
