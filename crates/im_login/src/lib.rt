//! Logins as stanzas: the elements of SASL (RFC 6120, section 6), the features of a stream (RFC 6120, section 4.3.2), and the
//! answers of service discovery (XEP-0030, sections 3.1 and 4.1).
#![tactic(auto)]

mod discovery;
mod features;
mod features_laws;
mod payloads;
mod sasl;
mod sasl_laws;
mod texts;

pub use discovery::{Identity, account_info, disco_info_tree, disco_items_tree, server_info};
pub use features::{Features, SCRAM_SHA_256};
pub use features_laws::features_are_read;
pub use sasl::{Abort, Auth, Challenge, Response, SaslFailure, Success};
pub use sasl_laws::{payload_is_one, sasl_is_read, sasl_is_refused};
