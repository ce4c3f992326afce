//! The payloads of extensions as values: each is read off its element and written as one.
#![tactic(auto)]

mod bind;
mod carbons;
mod counts;
mod forwarding;
mod given;
mod ids;
mod laws;
mod requests;
mod stream_management;

pub use bind::{BindRequest, BindResult};
pub use carbons::Carbon;
pub use counts::too_high_tree;
pub use forwarding::{Forwarded, forwarded_element, forwarded_inside, forwarded_moved};
pub use given::{is_given_by, is_private, origin_of};
pub use ids::{OriginId, StanzaId};
pub use laws::{
    binding_is_exact, carbons_are_exact, forwarding_is_exact, requests_are_exact,
    small_payloads_are_read, stanza_ids_are_exact, stream_management_is_exact,
};
pub use requests::{CarbonsSwitch, DiscoInfo, Ping, RosterGet, SessionSet};
pub use stream_management::{Ack, Enable, Enabled, Request, Resume, Resumed, SmFailed};
