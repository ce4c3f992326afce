//! What a server took, as a report tells it.
ghost use Rattle.std.specs.Prelude.{◌≡◌, IfOk};
ghost use Rattle.std.specs.List.{after_first, before_first};
ghost use Rattle.im_jid.specs.Cuts.{is_at, is_slash};
ghost use Rattle.cmd_report.specs.Lines.{reported_moment};
ghost use Rattle.cmd_network.specs.Takes.{is_dot, number_spelled, take_reported};

use base_io::{NoMemory, Text};
use cmd_report::TakeLine;
use cmd_schedule::Version;
use im_payload::{Field, optional_u64};
use std::alloc::Global;

// The number that digits spell, and 0 where they spell none.
fn number_spelled(digits: &str) -> u64
    ensures { result ≡ number_spelled digits.now }
{
    match optional_u64(Some(digits), Field::Count) {
        Ok(Some(number)) => number,
        _ => 0,
    }
}

// What stands before the first dot, and what behind it.
fn split_dot(text: &str) -> (&str, &str)
    ensures before { result.0.now ≡ before_first is_dot text.now }
    ensures following { result.1.now ≡ after_first is_dot text.now }
{
    match text.split_once('.') {
        Some((before, following)) => (before, following),
        None => (text, &text[text.len()..]),
    }
}

// What stands behind the first `/`.
fn after_slash(text: &str) -> &str
    ensures { result.now ≡ after_first is_slash text.now }
{
    match text.split_once('/') {
        Some((_, following)) => following,
        None => &text[text.len()..],
    }
}

/// What stands before the first `@`, or all where there is none.
pub fn before_at(text: &str) -> &str
    ensures { result.now ≡ before_first is_at text.now }
{
    match text.split_once('@') {
        Some((before, _)) => before,
        None => text,
    }
}

// The moment of a take, which version 1 doesn't tell.
fn reported_moment(version: Version, moment: u64) -> Option<u64>
    ensures { result ≡ reported_moment version moment }
{
    match version {
        Version::One => None,
        Version::Two { .. } => Some(moment),
    }
}

/// The line of a message that was archived, by its addresses and its origin id.
pub fn take_reported(
    alloc: Global,
    version: Version,
    moment: u64,
    from: &str,
    to: &str,
    origin: &str,
) -> Result<TakeLine, NoMemory>
    ensures { IfOk result (λ line. line ≡ take_reported version moment from.now to.now origin.now) }
{
    let (_, numbers) = split_dot(origin);
    let (epoch, n) = split_dot(numbers);
    Ok(TakeLine {
        device: Text::from_str(alloc, after_slash(from))?,
        epoch: number_spelled(epoch),
        n: number_spelled(n),
        account: Text::from_str(alloc, before_at(to))?,
        moment: reported_moment(version, moment),
    })
}
