//! The ids of submissions (XEP-0359, section 3.2).
ghost use Rattle.std.specs.Prelude.{◌≡◌, ◌≢◌, ℕ, ◌<◌, ◌^◌, List, ◌∷◌, ◌++◌, decimal, string_bytes, IfNone, IfOk, IfSome, OnOk};
ghost use Rattle.std.specs.Option.{MatchOption};
ghost use Rattle.sm_outbox.specs.Submissions.{origin_of};

use base_io::{NoMemory, Text};
use itoa::Buffer;
use std::alloc::Global;

fn push_part(origin: &mut String, part: &str) -> Result<(), NoMemory>
    ensures { OnOk result (string_bytes origin.new ≡ string_bytes origin.old ++ 46 ∷ part.now) }
{
    origin.push_str(".")?;
    origin.push_str(part)?;
    Ok(())
}

/// The origin id of the `n`-th submission of a resource in an epoch.
pub fn origin_of(alloc: Global, resource: &str, epoch: u64, n: u64) -> Result<Text, NoMemory>
    ensures { IfOk result (λ t. t ≡ origin_of resource.now epoch n) }
{
    let mut epoch_buffer = Buffer::new();
    let epoch_digits = epoch_buffer.format(epoch);
    let mut number_buffer = Buffer::new();
    let number_digits = number_buffer.format(n);
    let digits = epoch_digits.len().saturating_add(number_digits.len());
    let size = resource.len().saturating_add(2).saturating_add(digits);
    let mut origin = String::with_capacity(alloc, size)?;
    origin.push_str(resource)?;
    push_part(&mut origin, epoch_digits)?;
    push_part(&mut origin, number_digits)?;
    Ok(Text::from(origin))
}

// The number that digits spell, where they are as it is written.
fn number_in(digits: &str) -> Option<u64>
    ensures some { IfSome result (λ n. digits.now ≡ decimal n) }
    ensures none { IfNone result ((n : ℕ) → n < 2 ^ 64 → digits.now ≢ decimal n) }
{
    let Ok(n) = digits.parse::<u64>() else {
        return None;
    };
    let mut buffer = Buffer::new();
    if buffer.format(n) == digits {
        Some(n)
    } else {
        None
    }
}

// What stands in a text behind its front. `None` where it doesn't begin with that.
fn following<'a>(text: &'a str, front: &str) -> Option<&'a str>
    ensures { MatchOption result ((rest : List ℕ) → text.now ≢ front.now ++ rest) (λ rest. text.now ≡ front.now ++ rest.now) }
{
    text.strip_prefix(front)
}

// Two numbers with a dot between.
fn numbers_in(text: &str) -> Option<(u64, u64)>
    ensures some { IfSome result (λ of. text.now ≡ decimal of.0 ++ 46 ∷ decimal of.1) }
    ensures none { IfNone result ((epoch n : ℕ) → epoch < 2 ^ 64 → n < 2 ^ 64 → text.now ≢ decimal epoch ++ 46 ∷ decimal n) }
{
    let Some((epoch, n)) = text.split_once('.') else {
        return None;
    };
    let Some(epoch) = number_in(epoch) else {
        return None;
    };
    let Some(n) = number_in(n) else {
        return None;
    };
    Some((epoch, n))
}

/// The epoch and the number of which an id is the origin id, for the resource.
pub(crate) fn read_origin(resource: &str, id: &str) -> Option<(u64, u64)>
    ensures some { IfSome result (λ of. id.now ≡ origin_of resource.now of.0 of.1) }
    ensures none { IfNone result ((epoch n : ℕ) → epoch < 2 ^ 64 → n < 2 ^ 64 → id.now ≢ origin_of resource.now epoch n) }
{
    let Some(dotted) = following(id, resource) else {
        return None;
    };
    let Some(numbers) = following(dotted, ".") else {
        return None;
    };
    numbers_in(numbers)
}
