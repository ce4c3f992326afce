//! How tests judge what is printed. A test ends where memory runs out.
use std::alloc::Global;
use std::fmt::Display;
use std::process::Abort;

/// The value is printed so for a reader.
pub(crate) fn prints(rt: &impl Abort, alloc: Global, value: impl Display + Drop, text: &str) {
    let shown = format!(in alloc; "{value}").expect(rt, "memory");
    assert_eq!(rt; shown.as_str(), text);
}
