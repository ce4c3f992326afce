//! What a line of a report says.
use cmd_report::{
    AccountLine, ConnLine, DeviceLine, EntryLine, HeldLine, PageLine, RefusedLine, SaidLine,
    TakeLine, UnderwayLine,
};

/// What a line below a device's says of that device.
#[derive(Drop)]
pub enum DevicePart {
    Said(SaidLine),
    Refused(RefusedLine),
    Page(PageLine),
    Underway(UnderwayLine),
    Logged(EntryLine),
    Held(HeldLine),
}

/// What a line of a report says. An account comes without its entries, and a device with nothing of it but its own line.
#[derive(Drop)]
pub enum ReportLine {
    Take(TakeLine),
    Account(AccountLine),
    Entry(EntryLine),
    Conn(ConnLine),
    Device(DeviceLine),
    Part(DevicePart),
    /// A run begins with the next line, which is of a log's entry.
    Break,
    End,
}
