//! Which sessions of an account get a message, or a copy of it.
ghost use Rattle.std.specs.Prelude.{◌≡◌, ◌==◌, ◌∷◌, IfOk, map};
ghost use Rattle.std.specs.List.{list_any};
ghost use Rattle.std.specs.List.Sorted.{IsStrictlySortedBy};
ghost use Rattle.std.specs.Ordering.{nat_cmp};
ghost use Rattle.sm_live.specs.Sessions.{number_of, session_of};
ghost use Rattle.srv_route.specs.Choices.{passes};
ghost use Rattle.srv_route.specs.Plans;
ghost use Rattle.srv_route.specs.Plans.{copied_of, ready_of};

use base_io::{NoMemory, Numbers};
use sm_live::Live;
use sm_resumption::SessionView;
use std::alloc::Global;

// Whether a session gets what is sent to the bare address of its account.
fn is_ready(shown: &SessionView) -> bool
    ensures { result ≡ Plans.is_ready shown.now }
{
    shown.available && shown.priority >= 0
}

// Whether a number is among numbers that ascend.
fn is_among(numbers: &[u64], number: u64) -> bool
    requires { IsStrictlySortedBy nat_cmp numbers.now }
    ensures { result ≡ list_any (λ n. n == number) numbers.now }
{
    numbers.binary_search(&number).is_ok()
}

// Whether a session gets a copy of a message that another one sent, and that is delivered to these.
fn wants_copy(shown: &SessionView, sender: u64, deliver: &[u64]) -> bool
    requires { IsStrictlySortedBy nat_cmp deliver.now }
    ensures { result ≡ Plans.wants_copy (sender ∷ deliver.now) shown.now }
{
    shown.carbons && shown.number != sender && !is_among(deliver, shown.number)
}

#[tactic(auto, using(crate::proofs::Chosen::told_passes, crate::proofs::Chosen::untold_passes))]
fn is_ready_at(live: &Live, number: u64) -> bool
    ensures { result ≡ passes Plans.is_ready (session_of number live.now.sessions) }
{
    match live.view(number) {
        Some(shown) => is_ready(shown),
        None => false,
    }
}

#[tactic(auto, using(crate::proofs::Chosen::told_passes, crate::proofs::Chosen::untold_passes))]
fn wants_copy_at(live: &Live, number: u64, sender: u64, deliver: &[u64]) -> bool
    requires { IsStrictlySortedBy nat_cmp deliver.now }
    ensures { result ≡ passes (Plans.wants_copy (sender ∷ deliver.now)) (session_of number live.now.sessions) }
{
    match live.view(number) {
        Some(shown) => wants_copy(shown, sender, deliver),
        None => false,
    }
}

/// The sessions of an account that get what is sent to its bare address (RFC 6121, section 8.5.2), by their numbers.
pub(crate) fn ready_sessions(alloc: Global, live: &Live, account: u32) -> Result<Numbers, NoMemory>
    ensures found { IfOk result (λ found. found.items ≡ map number_of (ready_of account live.now.sessions)) }
    ensures rising { IfOk result (λ found. IsStrictlySortedBy nat_cmp found.items) }
{
    live.keeps_rule();
    let mut found = Numbers::new(alloc);
    for number in live.of_account(account) {
        if is_ready_at(live, *number) {
            found.push(*number)?;
        }
    }
    Ok(found)
}

/// The sessions of an account that get a copy (XEP-0280, sections 7 and 8) of a message that a session sent, and that is
/// delivered to these sessions, which ascend.
pub(crate) fn copied_sessions(
    alloc: Global,
    live: &Live,
    account: u32,
    sender: u64,
    deliver: &[u64],
) -> Result<Numbers, NoMemory>
    requires { IsStrictlySortedBy nat_cmp deliver.now }
    ensures { IfOk result (λ found. found.items ≡ map number_of (copied_of account (sender ∷ deliver.now) live.now.sessions)) }
{
    live.keeps_rule();
    let mut found = Numbers::new(alloc);
    for number in live.of_account(account) {
        if wants_copy_at(live, *number, sender, deliver) {
            found.push(*number)?;
        }
    }
    Ok(found)
}
