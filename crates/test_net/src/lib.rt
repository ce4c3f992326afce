//! Tests of the edge to the system, of the outside in memory, and of a server that serves connections at the same time: gated
//! links show that both are answered, and links that keep what is written show what goes over one, and what its journal has.
#![tactic(auto)]

#[cfg(test)]
mod adapters;
#[cfg(test)]
mod gated;
#[cfg(test)]
mod held;
#[cfg(test)]
mod in_memory;
#[cfg(test)]
mod kept;
#[cfg(test)]
mod over_the_system;
#[cfg(test)]
mod served_journals;
#[cfg(test)]
mod served_texts;
#[cfg(test)]
mod together;
