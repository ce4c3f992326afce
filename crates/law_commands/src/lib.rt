//! Laws of what commands tell: of `check`, that it is the grammar's; of `replay`, that a report is of the last world of its run,
//! and what clock and which pages a direct run has.
#![tactic(auto)]

mod checks;
mod direct_runs;
mod histories;

pub use checks::told_is_the_grammars;
pub use direct_runs::{direct_pages_are_as_asked, direct_runs_keep_the_clock};
pub use histories::{
    direct_reports_are_of_their_worlds, pages_have_their_moves, runs_are_of_their_worlds,
};
