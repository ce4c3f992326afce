//! What a server says of its own, each as the bytes that are sent: its side of a stream (RFC 6120, section 4), of a login
//! (section 6), of stream management (XEP-0198), and its answers to stanzas.
#![tactic(auto)]

mod conditions;
mod management;
mod requests;
mod sasl;
mod spelling;
mod streams;

pub use conditions::StreamCondition;
pub use management::{ack, enabled, refused, request, resumable, resumed};
pub use requests::{
    Envelope, account_info, bounced, bounced_presence, bound, empty_result, items, refusal,
    result_of, roster, server_info,
};
pub use sasl::{challenge, failure, success};
pub use streams::{footer, header, login_features, session_features, stream_error, too_high};
