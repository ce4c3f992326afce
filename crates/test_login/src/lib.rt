//! Tests of logins at both ends, and of SCRAM.
#![tactic(auto)]

#[cfg(test)]
mod account_tests;
#[cfg(test)]
mod client_login_tests;
#[cfg(test)]
mod hashes;
#[cfg(test)]
mod header_tests;
#[cfg(test)]
mod login_tests;
#[cfg(test)]
mod printed;
#[cfg(test)]
mod tests;
