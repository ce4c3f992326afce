//! The laws of payloads, which are about definitions: what a function that reads answers is told by the relations of
//! the grammar, and what is written of a value is read as that value (RFC 6120; XEP-0198, XEP-0280, XEP-0297, XEP-0313
//! and XEP-0359).
#![tactic(auto)]

pub mod forwarding;
pub mod ids;
pub mod requests;
pub mod sasl;
pub mod stream_management;
pub mod trees;
