//! What a run of a schedule came to: the report, its text, and the laws that it keeps, whichever way it came about.
#![tactic(auto)]

mod addresses;
mod line_texts;
mod lines;
mod printed;
mod report;
mod report_texts;

pub use addresses::{DOMAIN, bare_address, full_address, origin_of};
pub use lines::{
    copied_entry_line, copied_logged_line, copied_page_line, entry_line, entry_lines, logged_line,
    logged_lines, page_line, page_lines,
};
pub use report::{
    AccountLine, AccountLines, ConnEnd, ConnLine, ConnLines, DeviceLine, DeviceLines, EntryLine,
    EntryLines, HeldLine, HeldLines, LoggedLine, LoggedLines, PageLine, PageLines, RefusedLine,
    RefusedLines, RefusedWhy, Report, SaidLine, SaidLines, SaidMark, TakeLine, TakeLines,
    UnderwayLine, UnderwayLines,
};
pub use report_texts::report_text;
