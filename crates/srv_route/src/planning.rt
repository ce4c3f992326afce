//! The plan for a message: its destination, and what becomes of it there.
ghost use Rattle.std.specs.Prelude.{◌≡◌, ℕ, List, [], None, IfOk};
ghost use Rattle.std.specs.List.Sorted.{IsStrictlySortedBy};
ghost use Rattle.std.specs.Ordering.{nat_cmp};
ghost use Rattle.sm_live.specs.Sessions.{session_named};
ghost use Rattle.srv_route.specs.Choices.{route_to, user_plan};
ghost use Rattle.srv_route.specs.Destinations.{account_in};
ghost use Rattle.srv_route.specs.Numbered.{numbered};
ghost use Rattle.srv_route.specs.Plans;
ghost use Rattle.srv_route.specs.Plans.{archiving_of, plan_of};

use crate::archiving::Archiving;
use crate::messages::{is_archived, is_chat, is_copied, is_for_users};
use crate::recipients::{copied_sessions, ready_sessions};
use crate::routes::{Plan, Route};
use base_io::{NoMemory, Numbers};
use im_jid::Jid;
use im_stanza::{Condition, ErrorKind, Message, MessageKind, StanzaError};
use sm_live::{Live, SessionInfo};
use srv_login::Accounts;
use std::alloc::Global;

// The account that an address of this domain names.
fn account_in(to: &Jid, accounts: &Accounts) -> Option<u32>
    ensures { result ≡ account_in to.now accounts.now }
{
    accounts.position(to.local()?)
}

fn archiving_of(message: &Message, sender: u32, account: u32) -> Archiving
    ensures { result ≡ archiving_of message.now sender account }
{
    if !is_archived(message) {
        Archiving::Nowhere
    } else if sender == account {
        Archiving::Once(account)
    } else {
        Archiving::Both(sender, account)
    }
}

// A message that nobody gets: it is answered with an error, but for one that is an error itself.
fn refused(alloc: Global, condition: Condition, kind: MessageKind) -> Plan
    ensures { result ≡ numbered (Plans.refused {A = List ℕ} condition kind) }
{
    if kind.is_answered() {
        return Plan::Bounced(StanzaError {
            kind: ErrorKind::Cancel,
            condition,
        });
    }
    Plan::Routed(Route {
        archiving: Archiving::Nowhere,
        deliver: Numbers::new(alloc),
        sent: Numbers::new(alloc),
        received: Numbers::new(alloc),
    })
}

// The way of a message to these sessions of an account, which ascend.
fn route_to(
    alloc: Global,
    live: &Live,
    message: &Message,
    sender: &SessionInfo,
    account: u32,
    deliver: Numbers,
) -> Result<Route, NoMemory>
    requires rising { IsStrictlySortedBy nat_cmp deliver.items }
    ensures { IfOk result (λ route. route ≡ route_to message.now sender.now account deliver.items live.now.sessions) }
{
    let mut sent = Numbers::new(alloc);
    let mut received = Numbers::new(alloc);
    if is_copied(message) {
        let delivered = deliver.as_slice();
        sent = copied_sessions(alloc, live, sender.account, sender.number, delivered)?;
        if sender.account != account {
            received = copied_sessions(alloc, live, account, sender.number, delivered)?;
        }
    }
    Ok(Route {
        archiving: archiving_of(message, sender.account, account),
        deliver,
        sent,
        received,
    })
}

// To these sessions of an account, where it is a message for users.
fn to_user(
    alloc: Global,
    live: &Live,
    message: &Message,
    sender: &SessionInfo,
    account: u32,
    deliver: Numbers,
) -> Result<Plan, NoMemory>
    requires rising { IsStrictlySortedBy nat_cmp deliver.items }
    ensures { IfOk result (λ plan. plan ≡ user_plan message.now sender.now account deliver.items live.now.sessions) }
{
    if !is_for_users(message.kind) {
        return Ok(refused(alloc, Condition::ServiceUnavailable, message.kind));
    }
    let route = route_to(alloc, live, message, sender, account, deliver)?;
    Ok(Plan::Routed(route))
}

// To the bare address of an account (RFC 6121, section 8.5.2).
#[tactic(auto, using(crate::proofs::UserPlans::user_plan_is))]
fn to_bare(
    alloc: Global,
    live: &Live,
    message: &Message,
    sender: &SessionInfo,
    account: u32,
) -> Result<Plan, NoMemory>
    ensures { IfOk result (λ plan. plan ≡ numbered (Plans.to_bare message.now sender.now account live.now.sessions)) }
{
    let deliver = ready_sessions(alloc, live, account)?;
    to_user(alloc, live, message, sender, account, deliver)
}

// To an address with a resource that no session has (RFC 6121, section 8.5.3.2).
#[tactic(auto, using(crate::proofs::UserPlans::user_plan_is))]
fn to_absent(
    alloc: Global,
    live: &Live,
    message: &Message,
    sender: &SessionInfo,
    account: u32,
) -> Result<Plan, NoMemory>
    ensures { IfOk result (λ plan. plan ≡ numbered (Plans.to_full message.now sender.now account None live.now.sessions)) }
{
    if is_chat(message.kind) {
        to_bare(alloc, live, message, sender, account)
    } else {
        to_user(alloc, live, message, sender, account, Numbers::new(alloc))
    }
}

// To an address with a resource (RFC 6121, section 8.5.3).
#[tactic(auto, using(crate::proofs::UserPlans::full_plan_is, crate::proofs::UserPlans::empty_plan_is))]
fn to_full(
    alloc: Global,
    live: &Live,
    message: &Message,
    sender: &SessionInfo,
    account: u32,
    resource: &str,
) -> Result<Plan, NoMemory>
    ensures { IfOk result (λ plan. plan ≡ numbered (Plans.to_full message.now sender.now account (session_named account resource.now live.now.sessions) live.now.sessions)) }
{
    match live.info_named(account, resource) {
        Some(told) => {
            let mut deliver = Numbers::new(alloc);
            deliver.push(told.number)?;
            let route = route_to(alloc, live, message, sender, account, deliver)?;
            Ok(Plan::Routed(route))
        }
        None => to_absent(alloc, live, message, sender, account),
    }
}

/// What becomes of a message that a session sends, at the server of a domain (RFC 6121, section 8). `domain` is in normal
/// form, and the message is as the sender wrote it. It looks at the sessions of the sender's and of the recipient's
/// account alone, changes nothing, and answers `NoMemory` only where memory ran out.
///
/// Of these rules the first that fits decides:
///
/// - a message without `to` is one to the sender's bare address;
/// - a message to an address whose resource a session of that account has goes to that session, whatever its type;
/// - a message of type `error` goes to nobody;
/// - one to another domain is answered with `remote-server-not-found`;
/// - one to the domain itself, to an account that doesn't exist, or of type `groupchat`, with `service-unavailable`;
/// - one to a bare address, and a `chat` to a resource that no session has, goes to all sessions of the account that are
///   available with a priority of at least 0;
/// - any other goes to nobody.
///
/// A `chat` or `normal` message with a `body` to an account is archived, whoever gets it, and copied unless it is private.
pub fn plan(
    alloc: Global,
    domain: &str,
    accounts: &Accounts,
    live: &Live,
    message: &Message,
    sender: &SessionInfo,
) -> Result<Plan, NoMemory>
    ensures { IfOk result (λ plan. plan ≡ numbered (plan_of domain.now accounts.now live.now.sessions message.now sender.now)) }
{
    let Some(to) = &message.to else {
        return to_bare(alloc, live, message, sender, sender.account);
    };
    if to.domain() != domain {
        return Ok(refused(alloc, Condition::RemoteServerNotFound, message.kind));
    }
    let Some(account) = account_in(to, accounts) else {
        return Ok(refused(alloc, Condition::ServiceUnavailable, message.kind));
    };
    match to.resource() {
        None => to_bare(alloc, live, message, sender, account),
        Some(resource) => to_full(alloc, live, message, sender, account, resource),
    }
}
