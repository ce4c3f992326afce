//! What SCRAM stands on: HMAC-SHA-256 (RFC 2104), `Hi` (RFC 5802, section 2.2), a comparison of secrets that looks at every
//! byte, and whether a text is base64 in its one canonical form (RFC 4648, section 4).
#![tactic(auto)]

mod comparing;
mod keyed_hash;
mod laws;
mod text;

pub use comparing::is_same;
pub use keyed_hash::{KeyedHash, digest, hi, hmac, xor};
pub use laws::base64_is_read_exactly;
pub use text::{Base64Text, is_base64};
