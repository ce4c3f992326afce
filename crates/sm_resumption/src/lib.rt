//! The table of sessions: binding, parking, resuming and ending them (RFC 6120 section 7, XEP-0198 section 5).
#![tactic(auto)]

mod answers;
mod binding;
mod change;
mod index;
mod previds;
mod resumption;
mod session;
mod sought;
mod table;

pub use answers::{
    AlreadyEnabled, Bound, Ended, Lost, RESUMABLE_FOR, RESUMABLE_SECONDS, ResumeFault, ResumeOk,
};
pub use previds::previd_text;
pub use resumption::parked_comes_back_whole;
pub use session::SessionView;
pub use table::Sessions;
