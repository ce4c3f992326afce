//! Tests of sessions at both ends: parked and resumed, routed and acknowledged.
#![tactic(auto)]

#[cfg(test)]
mod client_sessions;
#[cfg(test)]
mod ends;
#[cfg(test)]
mod intents;
#[cfg(test)]
mod live_sessions;
#[cfg(test)]
mod outboxes;
#[cfg(test)]
mod plans;
#[cfg(test)]
mod pools;
#[cfg(test)]
mod resumed_sessions;
#[cfg(test)]
mod submissions;
#[cfg(test)]
mod tests;
