//! What a keeper does line by line.
use crate::changes::{ACCOUNTS, change_of_both, change_of_one};
use crate::step::{Step, step_of};
use crate::stop::Stop;
use crate::texts::write_kept;
use mam_keep::{Change, Keeper, Kept, may_be_committed};
use mam_keep_sqlite::SqliteKeeper;

// Where the accounts stand: the number of the next session, and the last number of each.
#[derive(Clone, Copy)]
struct Stand {
    session: u64,
    lasts: [u64; 2],
}

fn last_of(kept: &Kept, owner: &str) -> u64 {
    let mut last = 0;
    for archive in kept.archives.as_slice() {
        if archive.owner.as_str() == owner {
            last = archive.last;
        }
    }
    last
}

fn load_stand(keeper: &mut SqliteKeeper<'_>) -> Result<Stand, Stop> {
    let kept = keeper.load()?;
    Ok(Stand {
        session: kept.session,
        lasts: [last_of(&kept, ACCOUNTS[0]), last_of(&kept, ACCOUNTS[1])],
    })
}

fn load(rt: &HostRuntime, keeper: &mut SqliteKeeper<'_>, with_entries: bool) -> Result<(), Stop> {
    let kept = keeper.load()?;
    write_kept(rt, &kept, with_entries)
}

fn commit_change(keeper: &mut SqliteKeeper<'_>, change: &Change) -> Result<(), Stop> {
    if may_be_committed(change) {
        keeper.commit(change)?;
        Ok(())
    } else {
        Err(Stop::Line)
    }
}

// Writes what was committed, once it was.
fn write_stand(rt: &HostRuntime, stand: Stand) -> Result<(), Stop> {
    let session = stand.session;
    let [first, second] = stand.lasts;
    println!(rt; "committed {session} {first} {second}")?;
    Ok(())
}

fn commit_both(
    rt: &HostRuntime,
    keeper: &mut SqliteKeeper<'_>,
    stand: Stand,
    each: u64,
    keep: u32,
) -> Result<Stand, Stop> {
    let session = stand.session.saturating_add(1);
    let [first, second] = stand.lasts;
    let change = change_of_both(rt.alloc(), session, stand.lasts, each, keep)?;
    commit_change(keeper, &change)?;
    let lasts = [
        first.saturating_add(each - each / 2),
        second.saturating_add(each / 2),
    ];
    Ok(Stand { session, lasts })
}

fn commit_all(
    rt: &HostRuntime,
    keeper: &mut SqliteKeeper<'_>,
    commits: u64,
    each: u64,
    keep: u32,
) -> Result<(), Stop> {
    let mut stand = load_stand(keeper)?;
    for _ in 0..commits {
        stand = commit_both(rt, keeper, stand, each, keep)?;
        write_stand(rt, stand)?;
    }
    Ok(())
}

fn append_one(
    rt: &HostRuntime,
    keeper: &mut SqliteKeeper<'_>,
    number: u64,
    keep: u32,
) -> Result<(), Stop> {
    let stand = load_stand(keeper)?;
    let session = stand.session.saturating_add(1);
    let [_, second] = stand.lasts;
    let change = change_of_one(rt.alloc(), session, number, keep)?;
    commit_change(keeper, &change)?;
    let lasts = [number, second];
    write_stand(rt, Stand { session, lasts })
}

fn take_step(rt: &HostRuntime, keeper: &mut SqliteKeeper<'_>, step: Step) -> Result<(), Stop> {
    match step {
        Step::Load => load(rt, keeper, true),
        Step::Count => load(rt, keeper, false),
        Step::Commit {
            commits,
            each,
            keep,
        } => commit_all(rt, keeper, commits, each, keep),
        Step::Append { number, keep } => append_one(rt, keeper, number, keep),
    }
}

/// Takes the step of each line of the input.
pub(crate) fn follow(rt: &HostRuntime, keeper: &mut SqliteKeeper<'_>) -> Result<(), Stop> {
    for line in rt.lines(rt.alloc()) {
        let step = step_of(rt.alloc(), line?.as_str())?;
        take_step(rt, keeper, step)?;
    }
    Ok(())
}
