//! Tests of addresses, stanzas, stamps, payloads, and what is made of them: what no clause says.
#![tactic(auto)]

#[cfg(test)]
mod addresses;
#[cfg(test)]
mod archive_tests;
#[cfg(test)]
mod error_tests;
#[cfg(test)]
mod features;
#[cfg(test)]
mod forwarding;
#[cfg(test)]
mod made;
#[cfg(test)]
mod message_tests;
#[cfg(test)]
mod payload_tests;
#[cfg(test)]
mod replies;
#[cfg(test)]
mod sasl_tests;
#[cfg(test)]
mod stamps;
#[cfg(test)]
mod stanza_tests;
