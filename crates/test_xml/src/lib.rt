//! Tests of streams as bytes: names, trees, which fault a stream has and at which place, a stream cut at each byte, what is
//! written, and what is told of a stream.
#![tactic(auto)]

#[cfg(test)]
mod checks;
#[cfg(test)]
mod framer;
#[cfg(test)]
mod made;
#[cfg(test)]
mod starts;
#[cfg(test)]
mod tags;
#[cfg(test)]
mod texts;
#[cfg(test)]
mod trees;
#[cfg(test)]
mod writer;
