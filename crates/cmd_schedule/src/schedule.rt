//! A schedule: its lines, and what each says.
//!
//! A schedule is `Direct` or `Wire`: a direct one can't hold wire lines. A line that both have is a `Step`. The laws
//! see either as a `ScheduleView`. A version is an enum that owns its KEEP.
ghost use Rattle.std.specs.Prelude.{◌≡◌};
ghost use Rattle.cmd_schedule.specs.Schedules.{keep_of};

use base_io::{ListOf, Text};
use std::marker::Model;

/// The most entries that an archive can be told to keep: as many as it has numbers for.
pub const MOST_KEPT: u32 = 4_294_967_295;

/// The most milliseconds of one `tick`.
pub const MOST_TICK: u32 = 1_000_000_000;

/// The form of a schedule and of its report. In version 1 archives keep all entries, in version 2 their newest `keep`,
/// 1 to `MOST_KEPT`.
#[derive(Clone, Copy, Debug, PartialEq, Eq)]
pub enum Version {
    One,
    Two { keep: u32 },
}

impl Version {
    /// How many entries each archive keeps.
    pub fn keep(self) -> u32
        ensures { result ≡ keep_of self }
    {
        match self {
            Version::One => MOST_KEPT,
            Version::Two { keep } => keep,
        }
    }
}

/// The most `dial` lines of a wire schedule.
pub const MOST_DIALS: u32 = 10_000;

/// The greatest number of a line.
pub const MOST_NUMBER: u32 = 4_294_967_295;

/// The most times of one `pass` or `run` line.
pub const MOST_TIMES: u32 = 1_000;

/// The most times of all `pass` and `run` lines together.
pub const MOST_TIMES_TOGETHER: u32 = 100_000;

/// What a line of a schedule of either kind says, its fields in order.
#[derive(Drop)]
pub enum Step {
    /// An account of this name exists.
    Account(Text),
    /// A device of this name belongs to this account.
    Device(Text, Text),
    /// The device sends a message to the account of this name, which need not exist.
    Say(Text, Text, Text),
    /// As `Say`, but the message is for nobody's other devices to see live.
    Private(Text, Text, Text),
    /// The device catches up on its account's archive, in pages of at most so many entries.
    Catchup(Text, u32),
    /// The clock moves on by so many milliseconds, at most `MOST_TICK`.
    Tick(u32),
}

/// A line of a direct schedule. `number` is its place in the file, from 1.
#[derive(Drop)]
pub struct Line {
    pub number: u64,
    pub step: Step,
}

/// Lines of a direct schedule, in order.
pub type Lines = ListOf<Line>;

/// How many bytes a line moves: so many where there are, or all.
#[derive(Clone, Copy, Debug, PartialEq, Eq)]
pub enum Count {
    Number(u32),
    All,
}

/// What a line of a wire schedule says, its fields in order. A connection is told by its number: `k` for the one that
/// the `k`-th `Dial` made.
#[derive(Drop)]
pub enum WireStep {
    /// A line that direct schedules have too.
    Common(Step),
    /// The device dials: it leaves its connection, and a new one is made.
    Dial(Text),
    /// The device forgets its session and leaves its connection.
    Forget(Text),
    /// The device closes its stream and leaves its connection.
    Close(Text),
    /// So many bytes on their way to the server are handed over.
    Up(u32, Count),
    /// So many bytes on their way to the client are handed over.
    Down(u32, Count),
    /// The connection is cut: of the bytes on their way to the server the first so many stay, and so many of those to
    /// the client.
    Cut(u32, u32, u32),
    /// So many times, 1 to `MOST_TIMES`, all bytes of the connection are handed over, up and then down.
    Pass(u32, u32),
    /// So many times, 1 to `MOST_TIMES`, one `Pass` of each connection, in ascending order.
    Run(u32),
}

/// A line of a wire schedule. `number` is its place in the file, from 1.
#[derive(Drop)]
pub struct WireLine {
    pub number: u64,
    pub step: WireStep,
}

/// Lines of a wire schedule, in order.
pub type WireLines = ListOf<WireLine>;

/// A schedule whose messages are taken and answered at once: its version, and its lines behind the first.
#[derive(Drop)]
pub struct DirectSchedule {
    pub version: Version,
    pub lines: Lines,
}

impl Model for DirectSchedule {
    ghost use Rattle.std.specs.Prelude.{false};
    ghost use Rattle.cmd_schedule.specs.Schedules.{ScheduleView};

    ghost Value = { ScheduleView };

    ghost view = { λ s. record { version = s.version; wire = false; lines = s.lines.items } };
}

/// A schedule whose messages go through connections: its version, and its lines behind the first.
#[derive(Drop)]
pub struct WireSchedule {
    pub version: Version,
    pub lines: WireLines,
}

impl Model for WireSchedule {
    ghost use Rattle.cmd_schedule.specs.Schedules.{WireView};

    ghost Value = { WireView };

    ghost view = { λ s. record { version = s.version; lines = s.lines.items } };
}

/// A schedule of either kind.
#[derive(Drop)]
pub enum Schedule {
    Direct(DirectSchedule),
    Wire(WireSchedule),
}
