//! Time stamps are written (XEP-0082, section 3.2).
ghost use Rattle.std.specs.Prelude.{◌≡◌, ◌+◌, ◌<◌, ◌≤◌, pos, ◌≤ℤ◌, IfOk};
ghost use Rattle.jiff_core.specs.Date.{epoch_day};
ghost use Rattle.im_stamp.specs.Dates.{stamp_at};
ghost use Rattle.im_stamp.specs.Stamps.{IsWritten, stamp_of};

use base_io::{NoMemory, Text};
use jiff_core::civil::Date;
use std::alloc::Global;

/// The last moment of which a stamp is written and read, in milliseconds since 1970: 9999-12-30T22:00:00Z.
pub const LAST_MOMENT: u64 = 253_402_207_200_000;

/// The milliseconds of a day.
const DAY: u64 = 86_400_000;

// The date of a day number.
#[tactic(auto, using(jiff_core::proofs::SignedLemmas::signed_arith))]
fn date_of(day: u64) -> Date
    requires { day ≤ 2_932_896 }
    ensures { epoch_day result ≡ pos day }
{
    match Date::from_unix_epoch_day(day as i64) {
        Ok(date) => date,
        Err(_) => unreachable!(),
    }
}

// The year of a date from 1970 on.
fn year_of(date: Date) -> u32
    requires { pos 0 ≤ℤ epoch_day date }
    ensures year { pos result ≡ date.year }
    ensures early { result < 10000 }
{
    u32::from(date.year.unsigned_abs())
}

// The byte of a digit.
fn digit(n: u32) -> u8
    requires { n < 10 }
    ensures { result ≡ 48 + n }
{
    b'0' + n as u8
}

// The text of a year, a month, a day and the milliseconds of its clock.
fn spelled(year: u32, month: u32, day: u32, clock: u32) -> [u8; 24]
    requires year { year < 10000 }
    requires month { month < 100 }
    requires day { day < 100 }
    requires clock { clock < 86_400_000 }
    ensures { result ≡ stamp_of year month day clock }
{
    let hour = clock / 3_600_000;
    let minute = clock / 60_000 % 60;
    let second = clock / 1000 % 60;
    let ms = clock % 1000;
    [
        digit(year / 1000),
        digit(year / 100 % 10),
        digit(year / 10 % 10),
        digit(year % 10),
        b'-',
        digit(month / 10),
        digit(month % 10),
        b'-',
        digit(day / 10),
        digit(day % 10),
        b'T',
        digit(hour / 10),
        digit(hour % 10),
        b':',
        digit(minute / 10),
        digit(minute % 10),
        b':',
        digit(second / 10),
        digit(second % 10),
        b'.',
        digit(ms / 100),
        digit(ms / 10 % 10),
        digit(ms % 10),
        b'Z',
    ]
}

// The bytes of a moment's stamp.
fn stamp_bytes(ms: u64) -> [u8; 24]
    requires { ms ≤ LAST_MOMENT }
    ensures { IsWritten ms result }
{
    let date = date_of(ms / DAY);
    let year = year_of(date);
    spelled(
        year,
        u32::from(date.month),
        u32::from(date.day),
        (ms % DAY) as u32,
    )
}

/// The stamp of a moment, which is given in milliseconds since 1970: `YYYY-MM-DDThh:mm:ss.mmmZ` (XEP-0082, section 3.2).
pub fn stamp_text(alloc: Global, ms: u64) -> Result<Text, NoMemory>
    requires { ms ≤ LAST_MOMENT }
    ensures written { IfOk result (λ text. IsWritten ms text) }
    ensures value { IfOk result (λ text. text ≡ stamp_at ms) }
{
    match str::from_utf8(&stamp_bytes(ms)) {
        Ok(text) => Text::from_str(alloc, text),
        Err(_) => unreachable!(),
    }
}
