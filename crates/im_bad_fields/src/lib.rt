//! Whether an element of stream management (XEP-0198) or of SASL (RFC 6120, section 6) has a bad field, told without
//! taking memory.
#![tactic(auto)]

mod either;
mod management;
mod payload;
mod sasl;

pub use either::has_bad_field;
pub use management::has_bad_management_field;
pub use sasl::has_bad_sasl_field;
