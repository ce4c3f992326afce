//! What a server holds, the small steps that the rows of its table are made of, and the rows of a stream up to its login
//! (RFC 6120, sections 4 and 6). Each row takes all memory first; then calls follow that can't fail.
#![tactic(auto)]

mod addresses;
mod connection;
mod context;
mod handling;
mod limits;
mod logins;
mod outgoing_stanza;
mod output;
mod prebuilt;
mod reading;
mod sending;
mod streams;
mod word;

pub use connection::{Connection, Phase, Stage, Standing, Tries};
pub use context::ServerContext;
pub use limits::{ASKS_AT, MOST_STANZA_BYTES};
pub use outgoing_stanza::OutgoingStanza;
pub use output::{Output, Outputs};
pub use prebuilt::{MadeRequest, Overflow, Prebuilt};
pub use reading::word_of;
pub use word::Word;
