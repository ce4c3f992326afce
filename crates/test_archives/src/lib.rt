//! Tests of archives, their pages, logs, and of keepers.
#![tactic(auto)]

#[cfg(test)]
mod archives;
#[cfg(test)]
mod changes;
#[cfg(test)]
mod in_memory;
#[cfg(test)]
mod logs;
#[cfg(test)]
mod over_a_file;
#[cfg(test)]
mod pages;
