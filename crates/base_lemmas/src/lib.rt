//! What is nobody's: numbers in hexadecimal digits, whether some items are distinct, and lemmas that each crate needs
//! and std has not.
#![tactic(auto)]

mod distinct;
mod hexadecimal;

pub use distinct::are_distinct;
pub use hexadecimal::{hex16, read_hex16};
