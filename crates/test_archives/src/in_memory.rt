//! Keepers in memory: chosen calls fail and leave what is kept, and what was committed is restored.
ghost use Rattle.std.specs.Prelude.{◌≡◌, [], Some, IsTrue};
ghost use Rattle.mam_keep.specs.Changes.{MayCommit};
ghost use Rattle.mam_keep.specs.InMemory.{nothing_committed, tables_after};

use crate::changes::{change_of_one, seen};
use base_io::{ListOf, Numbers};
use mam_keep::{Change, KeepFault, Keeper, MemoryKeeper, SureKeeper, may_be_committed};
use std::alloc::Global;
use std::test::Fail;

// Whether a change may be the first one.
#[tactic(auto, using(crate::proofs::Rising::first_may))]
fn may_be_first(change: &Change) -> bool
    ensures { IsTrue result → MayCommit change.now (Some (tables_after nothing_committed)) }
{
    may_be_committed(change) && change.appends.as_slice().len() == 1
}

fn change_of_session(alloc: Global, session: u64) -> Change
    ensures { result ≡ record { session = session; appends = [] } }
{
    Change {
        session,
        appends: ListOf::new(alloc),
    }
}

// Commits an entry, and then a session number.
fn commit_both(alloc: Global, keeper: &mut MemoryKeeper) -> Result<(), KeepFault>
    requires { keeper.old.committed ≡ nothing_committed }
{
    let first = change_of_one(alloc, 2, 5, 2)?;
    if may_be_first(&first) {
        let _ = keeper.commit(&first);
    }
    let _ = keeper.commit(&change_of_session(alloc, 9_223_372_036_854_775_808));
    Ok(())
}

// What is kept after two commits and a load, of which one call fails.
fn kept_where(alloc: Global, failing: u64) -> Result<[u64; 3], KeepFault> {
    let mut fails = Numbers::new(alloc);
    fails.push(failing)?;
    let mut keeper = MemoryKeeper::new(alloc, fails);
    commit_both(alloc, &mut keeper)?;
    Ok(seen(&keeper.load()?))
}

// The call that fails, and the number of the next session, the last number and how many entries there are then.
static CALLS: [(u64, Option<[u64; 3]>); 4] = [
    (0, Some([9_223_372_036_854_775_808, 5, 1])),
    (1, Some([9_223_372_036_854_775_808, 0, 0])),
    (2, Some([2, 5, 1])),
    (3, None),
];

#[test]
fn a_chosen_call_fails(rt: HostRuntime) -> Result<(), Fail> {
    for (failing, kept) in CALLS {
        assert!(rt; kept_where(rt.alloc(), failing).ok() == kept);
    }
    Ok(())
}

// What a keeper whose calls don't fail has after one commit.
fn surely_kept(alloc: Global) -> Result<[u64; 3], KeepFault> {
    let mut keeper = SureKeeper::new(alloc);
    let first = change_of_one(alloc, 2, 5, 2)?;
    if may_be_first(&first) {
        keeper.commit(&first)?;
    }
    Ok(seen(&keeper.load()?))
}

#[test]
fn a_commit_is_kept(rt: HostRuntime) -> Result<(), Fail> {
    assert!(rt; surely_kept(rt.alloc()).ok() == Some([2, 5, 1]));
    Ok(())
}
