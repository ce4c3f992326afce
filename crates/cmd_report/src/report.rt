//! What a run of a schedule came to: a line for each thing that it tells.
//!
//! The laws of a report begin with a line for each account and device of the schedule; without this a report could
//! leave out a log together with its pages. They take the worlds that they speak of, so that one statement serves
//! every kind of run.
//!
//! Law 5 of version 2 says more than that the last entry before a break was purged: without that, reports were found
//! that keep the laws although a kept entry was skipped, or a purged one delivered.
ghost use Rattle.std.specs.Prelude.{◌≡◌};
ghost use Rattle.cmd_report.specs.EntryLines.{line_of, line_under};

use base_io::{ListOf, Text};
use cmd_schedule::Version;
use mam_archive::{ArchivedMessage, Entry};
use std::marker::Model;

/// A message that the server took: of which device, in which epoch, its number there, to which account, and when
/// (milliseconds since 1970). `moment` is `None` exactly in version 1, whose text doesn't tell it.
#[derive(Drop)]
pub struct TakeLine {
    pub device: Text,
    pub epoch: u64,
    pub n: u64,
    pub account: Text,
    pub moment: Option<u64>,
}

/// Takes, in the server's order.
pub type TakeLines = ListOf<TakeLine>;

/// An entry of an archive under its id: contracts see its stamp in milliseconds since 1970, the addresses, the origin id
/// and the first body. It shares the entry's message.
#[derive(Drop)]
pub struct EntryLine {
    id: Text,
    entry: Entry,
}

impl Model for EntryLine {
    ghost use Rattle.cmd_report.specs.EntryLines.{EntryLineView, line_under};

    ghost Value = { EntryLineView };

    ghost view = { λ l. line_under l.id l.entry };
}

impl EntryLine {
    /// The line of an entry under an id. It takes no memory.
    pub fn new(id: Text, entry: Entry) -> EntryLine
        ensures { result ≡ line_under id entry }
    {
        EntryLine { id, entry }
    }

    /// The id.
    pub fn id(&self) -> &str
        ensures { result.now ≡ self.now.id }
    {
        self.id.as_str()
    }

    /// The message, without a copy.
    pub fn message(&self) -> &ArchivedMessage
        ensures { self.now ≡ line_of self.now.id result.now }
    {
        self.entry.message()
    }
}

/// Entries of an archive, in order.
pub type EntryLines = ListOf<EntryLine>;

/// An account's archive: how many entries it keeps, the greatest number that it gave, and the entries that it keeps.
/// In version 1 `last` is `count`.
#[derive(Drop)]
pub struct AccountLine {
    pub name: Text,
    pub count: u64,
    pub last: u64,
    pub entries: EntryLines,
}

impl Model for AccountLine {
    ghost use Rattle.cmd_report.specs.Reports.{AccountView};

    ghost Value = { AccountView };

    ghost view = { λ a. record { name = a.name; count = a.count; last = a.last; entries = a.entries.items } };
}

/// Accounts, in declared order.
pub type AccountLines = ListOf<AccountLine>;

/// What ended a connection first.
#[derive(Clone, Copy, Debug, PartialEq, Eq)]
pub enum ConnEnd {
    /// The network cut it.
    Cut,
    /// The device left it.
    Left,
    /// The server shut it.
    Shut,
    /// Nothing did.
    Open,
}

/// A connection: its number, its device, how many bytes entered and left each pipe, and its end.
#[derive(Drop)]
pub struct ConnLine {
    pub k: u64,
    pub device: Text,
    pub upput: u64,
    pub uptaken: u64,
    pub downput: u64,
    pub downtaken: u64,
    pub end: ConnEnd,
}

/// Connections, by their numbers.
pub type ConnLines = ListOf<ConnLine>;

/// What a device knows of a message that it sent.
#[derive(Clone, Copy, Debug, PartialEq, Eq)]
pub enum SaidMark {
    /// The server acknowledged it.
    Acknowledged,
    /// It may still be acknowledged.
    Waiting,
    /// Its session was lost before it was acknowledged.
    Undecided,
}

/// A message that a device sent: its epoch and number, what became of it, the account it was for, and its text.
#[derive(Drop)]
pub struct SaidLine {
    pub epoch: u64,
    pub n: u64,
    pub state: SaidMark,
    pub to: Text,
    pub text: Text,
}

/// Messages that a device sent, in order.
pub type SaidLines = ListOf<SaidLine>;

/// Why a device refused a line of the schedule.
#[derive(Clone, Copy, Debug, PartialEq, Eq)]
pub enum RefusedWhy {
    /// No session stands.
    NotBound,
    /// Too many stanzas are unacknowledged.
    OutboxFull,
    /// A page is under way.
    Underway,
}

/// A line of the schedule that the device refused.
#[derive(Drop)]
pub struct RefusedLine {
    pub line: u64,
    pub why: RefusedWhy,
}

/// Refused lines, in order.
pub type RefusedLines = ListOf<RefusedLine>;

/// A page that a device took over: the id behind which it was asked for, how many entries it had and, of the last
/// page of a catch-up, how many entries the archive had then.
#[derive(Drop)]
pub struct PageLine {
    pub after: Option<Text>,
    pub count: u64,
    pub total: Option<u64>,
}

/// Pages, in order.
pub type PageLines = ListOf<PageLine>;

/// A page that has not ended: the id of its query, and how many results came.
#[derive(Drop)]
pub struct UnderwayLine {
    pub queryid: Text,
    pub got: u64,
}

/// The page under way, where there is one.
pub type UnderwayLines = ListOf<UnderwayLine>;

/// An entry of a device's log. `broken` where a run begins with it after a break: entries before it were purged before
/// the device took them. In version 1 none is.
#[derive(Drop)]
pub struct LoggedLine {
    pub entry: EntryLine,
    pub broken: bool,
}

/// Entries of a log, in order.
pub type LoggedLines = ListOf<LoggedLine>;

/// A message that came live and is not in the log yet.
#[derive(Drop)]
pub struct HeldLine {
    pub id: Text,
}

/// Held messages, in order.
pub type HeldLines = ListOf<HeldLine>;

/// A device: its account, its epoch, whether nothing of it is outstanding, and what it sent, refused, asked for,
/// logged and held.
#[derive(Drop)]
pub struct DeviceLine {
    pub name: Text,
    pub account: Text,
    pub epoch: u64,
    pub settled: bool,
    pub said: SaidLines,
    pub refused: RefusedLines,
    pub pages: PageLines,
    pub underway: UnderwayLines,
    pub logged: LoggedLines,
    pub held: HeldLines,
}

impl Model for DeviceLine {
    ghost use Rattle.cmd_report.specs.Reports.{DeviceView};

    ghost Value = { DeviceView };

    ghost view = { λ d. record { name = d.name; account = d.account; epoch = d.epoch; settled = d.settled; said = d.said.items; refused = d.refused.items; pages = d.pages.items; underway = d.underway.items; logged = d.logged.items; held = d.held.items } };
}

/// Devices, in declared order.
pub type DeviceLines = ListOf<DeviceLine>;

/// What a run of a schedule came to.
#[derive(Drop)]
pub struct Report {
    pub version: Version,
    pub wire: bool,
    pub takes: TakeLines,
    pub accounts: AccountLines,
    pub conns: ConnLines,
    pub devices: DeviceLines,
}

impl Model for Report {
    ghost use Rattle.cmd_report.specs.Reports.{ReportView};

    ghost Value = { ReportView };

    ghost view = { λ r. record { version = r.version; wire = r.wire; takes = r.takes.items; accounts = r.accounts.items; conns = r.conns.items; devices = r.devices.items } };
}
