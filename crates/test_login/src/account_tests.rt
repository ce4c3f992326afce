//! Lists of accounts, and what is wrong with them.
use crate::printed::prints;
use auth_scram::Credentials;
use base_io::{Bytes, Text};
use srv_login::{Account, AccountList, Accounts, AccountsFault};
use std::alloc::Global;
use std::process::Abort;

// Names and counts of iterations, and what is wrong.
type Row = (&'static [(&'static str, u32)], Option<AccountsFault>);

static LISTS: [Row; 12] = [
    (&[], None),
    (&[("alice", 4096), ("bob", 1)], None),
    (&[("a!#$%^*()`~", 1)], None),
    (&[("alice", 1), ("Bob", 1)], Some(AccountsFault::BadName(1))),
    (&[("", 1)], Some(AccountsFault::BadName(0))),
    (&[("al ice", 1)], Some(AccountsFault::BadName(0))),
    (&[("alice@chat", 0)], Some(AccountsFault::BadName(0))),
    (&[("alic\u{e9}", 1)], Some(AccountsFault::BadName(0))),
    (
        &[("alice", 1), ("bob", 1), ("alice", 0), ("Bob", 1)],
        Some(AccountsFault::Twice(2)),
    ),
    (
        &[("alice", 1), ("bob", 0), ("alice", 1)],
        Some(AccountsFault::NoIterations(1)),
    ),
    (&[("alice", 0)], Some(AccountsFault::NoIterations(0))),
    (
        &[("alice", 1), ("alice ", 1)],
        Some(AccountsFault::BadName(1)),
    ),
];

fn account_of(rt: &impl Abort, alloc: Global, given: &(&'static str, u32)) -> Account {
    Account {
        name: Text::from_str(alloc, given.0).expect(rt, "memory"),
        credentials: Credentials {
            salt: Bytes::new(alloc),
            iterations: given.1,
            stored_key: [0; 32],
            server_key: [0; 32],
        },
    }
}

fn list_of(rt: &impl Abort, alloc: Global, given: &[(&'static str, u32)]) -> AccountList {
    let mut list = AccountList::new(alloc);
    for row in given {
        list.push(account_of(rt, alloc, row)).expect(rt, "memory");
    }
    list
}

fn accounts_of(
    rt: &impl Abort,
    alloc: Global,
    list: AccountList,
) -> Result<Accounts, AccountsFault> {
    assert!(rt; list.as_slice().len() < 1000);
    Accounts::new(alloc, list)
}

// Whether each name that was given is found at its place, and no other name is.
fn are_found(accounts: &Accounts, given: &[(&'static str, u32)]) -> bool {
    let mut position: u32 = 0;
    for row in given {
        let Some(found) = accounts.find(row.0) else {
            return false;
        };
        let credentials = found.credentials;
        if found.position != position || credentials.iterations != row.1 {
            return false;
        }
        position = position.saturating_add(1);
    }
    accounts.find("nobody").is_none() && accounts.get(position).is_none()
}

fn is_judged(accounts: Result<Accounts, AccountsFault>, row: &Row) -> bool {
    match &accounts {
        Ok(accounts) => row.1.is_none() && are_found(accounts, row.0),
        Err(fault) => row.1 == Some(*fault),
    }
}

#[test]
fn lists_are_judged(rt: HostRuntime) {
    let alloc = rt.alloc();
    for row in &LISTS {
        let accounts = accounts_of(&rt, alloc, list_of(&rt, alloc, row.0));
        assert!(rt; is_judged(accounts, row));
    }
}

static PRINTED: [(AccountsFault, &str); 4] = [
    (
        AccountsFault::BadName(0),
        "the name of account 0 is not in normal form",
    ),
    (
        AccountsFault::Twice(7),
        "an earlier account has the name of account 7",
    ),
    (
        AccountsFault::NoIterations(1),
        "account 1 counts no iteration",
    ),
    (AccountsFault::NoMemory, "out of memory"),
];

#[test]
fn faults_are_printed(rt: HostRuntime) {
    for (fault, text) in &PRINTED {
        prints(&rt, rt.alloc(), *fault, text);
    }
}
