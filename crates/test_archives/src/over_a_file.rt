//! A keeper over a file: a second one loads what a first one committed.
use crate::changes::{change_of_one, seen};
use base_io::Text;
use mam_keep::{Change, KeepFault, Keeper, Kept, may_be_committed};
use mam_keep_sqlite::SqliteKeeper;
use std::test::Fail;

fn commit(keeper: &mut SqliteKeeper<'_>, change: &Change) -> Result<(), KeepFault> {
    if may_be_committed(change) {
        keeper.commit(change)
    } else {
        Err(KeepFault::Failed)
    }
}

// Commits two entries of which one is kept, and a third after a gap.
fn fill(rt: &HostRuntime, path: &str) -> Result<(), KeepFault> {
    let mut keeper = SqliteKeeper::new(rt, Text::from_str(rt.alloc(), path)?);
    for (session, number, keep) in [(2u64, 1u64, 2u32), (3, 2, 1), (4, 9, 7)] {
        commit(
            &mut keeper,
            &change_of_one(rt.alloc(), session, number, keep)?,
        )?;
    }
    keeper.close()
}

fn load(rt: &HostRuntime, path: &str) -> Result<Kept, KeepFault> {
    let mut keeper = SqliteKeeper::new(rt, Text::from_str(rt.alloc(), path)?);
    keeper.load()
}

fn found(rt: &HostRuntime, path: &str) -> Result<[u64; 3], KeepFault> {
    fill(rt, path)?;
    Ok(seen(&load(rt, path)?))
}

// Paths, and what is found at them. The last is in a folder that isn't there.
static PATHS: [(&str, Option<[u64; 3]>); 2] = [
    ("kept.db", Some([4, 9, 1])),
    ("none/kept.db", None),
];

#[test]
fn a_commit_is_found_again(rt: HostRuntime) -> Result<(), Fail> {
    for (path, kept) in PATHS {
        assert!(rt; found(&rt, path).ok() == kept);
    }
    Ok(())
}
