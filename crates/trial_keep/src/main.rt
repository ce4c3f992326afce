//! The program `trial_keep FILE`: a keeper over that file does what the lines of standard input say, and what came
//! of it is written. So it can be tried what is found again after a run was ended at any moment, or in a damaged file.
//! Lines: `load`, all that is kept; `count`, the same without entries; `commit COMMITS EACH KEEP`, so many commits,
//! each of so many entries that go to two accounts in turn; `append NUMBER KEEP`, a commit of one entry with that
//! number. Statuses: 0; 2 where FILE is missing or a line is none of these; 5 where input or output failed; 6 where
//! memory ran out; 12, and a line `keep fault`, where the keeper failed.
#![tactic(auto)]

mod changes;
mod follow;
mod step;
mod stop;
mod texts;

use crate::follow::follow;
use crate::stop::Stop;
use base_io::Text;
use mam_keep_sqlite::SqliteKeeper;
use std::env;
use std::process::ExitCode;

fn path_of(rt: &HostRuntime) -> Result<Text, Stop> {
    match env::args(rt)?.nth(1) {
        Some(word) => Ok(Text::from(word)),
        None => Err(Stop::Line),
    }
}

fn work(rt: &HostRuntime) -> Result<(), Stop> {
    let mut keeper = SqliteKeeper::new(rt, path_of(rt)?);
    follow(rt, &mut keeper)?;
    keeper.close()?;
    Ok(())
}

fn main(rt: HostRuntime) -> ExitCode {
    match work(&rt) {
        Ok(()) => ExitCode::from(0),
        Err(stop) => {
            if stop == Stop::Keeper {
                // The status alone says it where this can't be written.
                let _ = println!(rt; "keep fault");
            }
            ExitCode::from(stop.status())
        }
    }
}
