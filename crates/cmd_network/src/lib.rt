//! The network of a world: its devices, each with a client and what it refused, and their connections to the server, two pipes
//! each, with what ended each first.
#![tactic(auto)]

mod asking;
mod device;
mod lines;
mod starting;
mod takes;
mod talking;
mod wire;
mod wires;

pub use device::Device;
pub use lines::device_line;
pub use starting::{account_at_start, device_at_start};
pub use takes::{before_at, take_reported};
pub use wire::{Wire, amount};
pub use wires::{cut_wire, leave_wire, put_down_wire, put_up_wire, shut_wire};
