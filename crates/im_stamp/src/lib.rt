//! Time stamps (XEP-0082): a moment's text, and the moment of a text.
#![tactic(auto)]

mod fault;
mod laws;
mod stamp_reading;
mod stamp_writing;

pub use fault::StampFault;
pub use laws::{only_stamps_are_read, stamp_is_read, stamps_are_read};
pub use stamp_reading::read_stamp;
pub use stamp_writing::{LAST_MOMENT, stamp_text};
