//! Time stamps are read (XEP-0082, section 3.2).
//!
//! `jiff_core` stands for `jiff` in stamps, as the crate with calls between dates and day numbers. The reader of a
//! stamp's text is this project's own, since jiff's accepts more than a stamp.
ghost use Rattle.std.specs.Prelude.{◌≡◌, ◌<◌, ◌≤◌, length, true, pos, neg_ℤ, ◌≤ℤ◌, slice_index};
ghost use Rattle.std.specs.Char.{is_ascii_digit};
ghost use Rattle.jiff_core.specs.Calendar.{IsEpochDay, days_from_civil};
ghost use Rattle.im_stamp.specs.Stamps.{seconds_since};
ghost use Rattle.im_stamp.specs.StampReading.{clock_of, counted_digit, digit_at, digit_count, fraction_len, has_clock, has_date, is_day, is_offset, is_pair, is_stamp, is_zone, millis_of, moment_at, moment_of, offset_of, seconds_of, two_at, year_of, zone_of};

use crate::fault::StampFault;
use crate::stamp_writing::LAST_MOMENT;
use jiff_core::civil::{Date, days_in_month};
// The byte at a place, and 0 past the end.
fn byte_at(text: &[u8], i: usize) -> u8
    ensures { result ≡ slice_index text.now i }
{
    match text.get(i) {
        Some(byte) => *byte,
        None => 0,
    }
}

fn digit_at(text: &[u8], i: usize) -> u32
    ensures value { result ≡ digit_at text.now i }
    ensures bound { result < 256 }
{
    u32::from(byte_at(text, i).saturating_sub(b'0'))
}

// The number of the two digits at a place.
#[tactic(auto, unfolding(crate::specs::StampReading::two_at))]
fn two_at(text: &[u8], i: usize) -> u32
    requires { i < 100 }
    ensures value { result ≡ two_at text.now i }
    ensures bound { result < 2816 }
{
    digit_at(text, i) * 10 + digit_at(text, i + 1)
}

fn is_digit_at(text: &[u8], i: usize) -> bool
    ensures { result ≡ is_ascii_digit (slice_index text.now i) }
{
    byte_at(text, i).is_ascii_digit()
}

#[tactic(auto, unfolding(crate::specs::StampReading::is_pair))]
fn is_pair(text: &[u8], i: usize) -> bool
    requires { i < 100 }
    ensures { result ≡ is_pair text.now i }
{
    is_digit_at(text, i) && is_digit_at(text, i + 1)
}

#[tactic(auto, unfolding(crate::specs::StampReading::year_of))]
fn year_of(text: &[u8]) -> u32
    ensures value { result ≡ year_of text.now }
    ensures bound { result < 284_416 }
{
    two_at(text, 0) * 100 + two_at(text, 2)
}

// Whether the calendar has this day.
#[tactic(auto, unfolding(crate::specs::StampReading::is_day))]
fn is_day(year: u32, month: u32, day: u32) -> bool
    ensures { result ≡ is_day year month day }
{
    year <= 9999
        && 1 <= month
        && month <= 12
        && 1 <= day
        && day <= u32::from(days_in_month(year as i16, month as u8))
}

#[tactic(auto, unfolding(crate::specs::StampReading::has_date))]
fn has_date(text: &[u8]) -> bool
    ensures { result ≡ has_date text.now }
{
    is_pair(text, 0)
        && is_pair(text, 2)
        && byte_at(text, 4) == b'-'
        && is_pair(text, 5)
        && byte_at(text, 7) == b'-'
        && is_pair(text, 8)
        && is_day(year_of(text), two_at(text, 5), two_at(text, 8))
}

#[tactic(auto, unfolding(crate::specs::StampReading::has_clock))]
fn has_clock(text: &[u8]) -> bool
    ensures { result ≡ has_clock text.now }
{
    byte_at(text, 10) == b'T'
        && is_pair(text, 11)
        && byte_at(text, 13) == b':'
        && is_pair(text, 14)
        && byte_at(text, 16) == b':'
        && is_pair(text, 17)
        && two_at(text, 11) < 24
        && two_at(text, 14) < 60
        && two_at(text, 17) < 60
}

// How many digits stand at the front.
#[tactic(auto, unfolding(crate::specs::StampReading::digit_count))]
fn digit_count(text: &[u8]) -> usize
    ensures value { result ≡ digit_count text.now }
    ensures bound { result ≤ length text.now }
{
    text.iter().take_while(|byte| byte.is_ascii_digit()).count()
}

// How long the fraction at the front is, with its point.
#[tactic(auto, unfolding(crate::specs::StampReading::fraction_len))]
fn fraction_len(text: &[u8]) -> usize
    ensures value { result ≡ fraction_len text.now }
    ensures bound { result ≤ length text.now }
{
    if byte_at(text, 0) != b'.' || text.is_empty() {
        return 0;
    }
    let digits = digit_count(&text[1..]);
    if digits == 0 { 0 } else { digits + 1 }
}

#[tactic(auto, unfolding(crate::specs::StampReading::is_offset))]
fn is_offset(text: &[u8]) -> bool
    ensures { result ≡ is_offset text.now }
{
    text.len() == 6
        && (byte_at(text, 0) == b'+' || byte_at(text, 0) == b'-')
        && is_pair(text, 1)
        && byte_at(text, 3) == b':'
        && is_pair(text, 4)
        && two_at(text, 1) < 24
        && two_at(text, 4) < 60
}

#[tactic(auto, unfolding(crate::specs::StampReading::is_zone))]
fn is_zone(text: &[u8]) -> bool
    ensures { result ≡ is_zone text.now }
{
    text == b"Z".as_slice() || is_offset(text)
}

// What stands behind the fraction.
#[tactic(auto, unfolding(crate::specs::StampReading::zone_of))]
fn zone_of(text: &[u8]) -> &[u8]
    requires { 20 ≤ length text.now }
    ensures { result.now ≡ zone_of text.now }
{
    let following = &text[19..];
    &following[fraction_len(following)..]
}

#[tactic(auto, unfolding(crate::specs::StampReading::is_stamp))]
fn is_stamp(text: &[u8]) -> bool
    ensures { result ≡ is_stamp text.now }
{
    text.len() >= 20 && has_date(text) && has_clock(text) && is_zone(zone_of(text))
}

// The seconds that a zone is ahead of UTC.
#[tactic(auto, unfolding(crate::specs::StampReading::offset_of))]
fn offset_of(zone: &[u8]) -> i64
    ensures value { result ≡ offset_of zone.now }
    ensures low { neg_ℤ (pos 20_000_000) ≤ℤ result }
    ensures high { result ≤ℤ pos 20_000_000 }
{
    let size = i64::from(two_at(zone, 1) * 3600 + two_at(zone, 4) * 60);
    if zone == b"Z".as_slice() {
        0
    } else if byte_at(zone, 0) == b'+' {
        size
    } else {
        -size
    }
}

#[tactic(auto, unfolding(crate::specs::StampReading::clock_of))]
fn clock_of(text: &[u8]) -> u32
    ensures value { result ≡ clock_of text.now }
    ensures bound { result < 20_000_000 }
{
    two_at(text, 11) * 3600 + two_at(text, 14) * 60 + two_at(text, 17)
}

// The day number of a day that the calendar has.
#[tactic(auto, using(jiff_core::proofs::SignedLemmas::signed_arith), unfolding(crate::specs::StampReading::is_day))]
fn day_number(year: u32, month: u32, day: u32) -> i32
    requires { is_day year month day ≡ true }
    ensures value { result ≡ days_from_civil (pos year) month day }
    ensures bound { IsEpochDay result }
{
    match Date::new(year as i16, month as i8, day as i8) {
        Ok(date) => date.to_unix_epoch_day(),
        Err(_) => unreachable!(),
    }
}

// The seconds since 1970 of a day, a clock and a zone.
#[tactic(auto, using(jiff_core::proofs::SignedLemmas::signed_arith))]
fn seconds_since(day: i32, clock: u32, offset: i64) -> i64
    requires day { IsEpochDay day }
    requires clock { clock < 20_000_000 }
    requires low { neg_ℤ (pos 20_000_000) ≤ℤ offset }
    requires high { offset ≤ℤ pos 20_000_000 }
    ensures value { result ≡ seconds_since day clock offset }
    ensures low { neg_ℤ (pos 400_000_000_000) ≤ℤ result }
    ensures high { result ≤ℤ pos 400_000_000_000 }
{
    i64::from(day) * 86_400 + i64::from(clock) - offset
}

// The seconds since 1970 of a stamp.
#[tactic(auto, unfolding(crate::specs::StampReading::seconds_of))]
fn seconds_of(text: &[u8]) -> i64
    requires long { 20 ≤ length text.now }
    requires day { is_day (year_of text.now) (two_at text.now 5) (two_at text.now 8) ≡ true }
    ensures value { result ≡ seconds_of text.now }
    ensures low { neg_ℤ (pos 400_000_000_000) ≤ℤ result }
    ensures high { result ≤ℤ pos 400_000_000_000 }
{
    let day = day_number(year_of(text), two_at(text, 5), two_at(text, 8));
    seconds_since(day, clock_of(text), offset_of(zone_of(text)))
}

#[tactic(auto, unfolding(crate::specs::StampReading::counted_digit))]
fn counted_digit(text: &[u8], n: usize, i: usize) -> u32
    ensures value { result ≡ counted_digit text.now n i }
    ensures bound { result < 256 }
{
    if i < n { digit_at(text, i) } else { 0 }
}

// The milliseconds of a fraction that is `n` long with its point.
#[tactic(auto, unfolding(crate::specs::StampReading::millis_of))]
fn millis_of(text: &[u8], n: usize) -> u32
    ensures value { result ≡ millis_of text.now n }
    ensures bound { result < 30_000 }
{
    counted_digit(text, n, 1) * 100 + counted_digit(text, n, 2) * 10 + counted_digit(text, n, 3)
}

// Whole seconds and milliseconds as a moment.
#[tactic(auto, using(jiff_core::proofs::SignedLemmas::signed_arith), unfolding(crate::specs::StampReading::moment_at))]
fn moment_at(seconds: i64, ms: u32) -> Result<u64, StampFault>
    requires ms { ms < 30_000 }
    requires high { seconds ≤ℤ pos 400_000_000_000 }
    ensures { result ≡ moment_at seconds ms }
{
    if seconds < 0 {
        return Err(StampFault::BeforeEpoch);
    }
    let moment = seconds as u64 * 1000 + u64::from(ms);
    if moment <= LAST_MOMENT {
        Ok(moment)
    } else {
        Err(StampFault::BadStamp)
    }
}

/// The moment of a stamp, in milliseconds since 1970. It takes no memory.
///
/// A stamp is `YYYY-MM-DDThh:mm:ss` with `T` in upper case, then optionally `.` and at least one digit, then `Z` or a sign
/// and `hh:mm` (XEP-0082, section 3.2). The date exists; hours are at most 23, minutes and seconds at most 59, in the
/// offset too. Three digits of a fraction count, and those behind are cut off. `BeforeEpoch` comes exactly where the
/// moment is before 1970, and `BadStamp` exactly where the text is no stamp or its moment is past `LAST_MOMENT`.
#[tactic(auto, unfolding(crate::specs::StampReading::moment_of, crate::specs::StampReading::is_stamp, crate::specs::StampReading::has_date))]
pub fn read_stamp(text: &str) -> Result<u64, StampFault>
    ensures { result ≡ moment_of text.now }
{
    let bytes = text.as_bytes();
    if !is_stamp(bytes) {
        return Err(StampFault::BadStamp);
    }
    let following = &bytes[19..];
    moment_at(
        seconds_of(bytes),
        millis_of(following, fraction_len(following)),
    )
}
