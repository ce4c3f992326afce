//! Decimal numbers, as fields spell them.
ghost use Rattle.std.specs.Prelude.{◌≡◌, ◌==◌, ◌&&◌, not};
ghost use Rattle.std.specs.List.{list_all};
ghost use Rattle.cmd_schedule.specs.Gives.{Gives};
ghost use Rattle.cmd_schedule.specs.Grammar.{is_digit};
ghost use Rattle.cmd_schedule.specs.Reading.{at_most, grown, is_number, number_within, value_of};

use crate::fault::{LineFault, LineWhy};
use crate::fields::is_digit;

fn are_digits(bytes: &[u8]) -> bool
    ensures { result ≡ list_all is_digit bytes.now }
{
    bytes.iter().all(|c| is_digit(*c))
}

fn is_number(digits: &[u8]) -> bool
    ensures { result ≡ is_number digits.now }
{
    match digits {
        [] => false,
        [digit] => is_digit(*digit),
        [first, rest @ ..] => is_digit(*first) && *first != b'0' && are_digits(rest),
    }
}

/// A number with a digit more, where it is no more than a bound.
fn grown_within(most: u64, value: u64, digit: u8) -> Option<u64>
    ensures { result ≡ at_most most (grown value digit) }
{
    let next = value
        .checked_mul(10)?
        .checked_add(u64::from(digit.saturating_sub(48)))?;
    if next <= most { Some(next) } else { None }
}

/// The value of digits, where it is no more than a bound.
fn value_within(most: u64, digits: &[u8]) -> Option<u64>
    ensures { result ≡ at_most most (value_of digits.now) }
{
    let mut value: u64 = 0;
    for i in 0..digits.len() {
        match grown_within(most, value, digits[i]) {
            Some(next) => value = next,
            None => return None,
        }
    }
    Some(value)
}

/// The number that a field spells: decimal digits without leading zeros, of a value within the bounds. `Number` is the reason
/// for any other field. Readers of every text of lines share it.
#[tactic(auto, using(crate::proofs::Numbers::judged_ok, crate::proofs::Numbers::judged_low, crate::proofs::Numbers::judged_high))]
pub fn read_number(least: u64, most: u64, field: &str) -> Result<u64, LineWhy>
    ensures { result ≡ number_within least most field.now }
{
    let digits = field.as_bytes();
    if !is_number(digits) {
        return Err(LineWhy::Number);
    }
    match value_within(most, digits) {
        Some(value) if least <= value => Ok(value),
        _ => Err(LineWhy::Number),
    }
}

/// The same of bounds below 2^32.
pub fn number_within(least: u32, most: u32, field: &str) -> Result<u32, LineFault>
    ensures { Gives (λ n. n) result (number_within least most field.now) }
{
    match read_number(u64::from(least), u64::from(most), field) {
        Ok(number) => Ok(number as u32),
        Err(why) => Err(LineFault::Reason(why)),
    }
}
