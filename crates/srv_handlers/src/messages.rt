//! The row on a message of a session (RFC 6121, section 8; XEP-0313, section 5; XEP-0280; XEP-0359).
//!
//! The code appends to archives before it counts the stanza, and the row has the count first. Both are steps that
//! can't fail and touch different things: that is proved, and the clause has the row's order.
ghost use Rattle.std.specs.Prelude.{◌≡◌, [], false, nat_eq, true, IfOk, OnErr, OnOk, Some};
ghost use Rattle.base_lemmas.specs.Distinct.{are_distinct_by};
ghost use Rattle.srv_state.specs.Handling.{counting};
ghost use Rattle.srv_state.specs.OutgoingStanzas.{sends_of};
ghost use Rattle.srv_state.specs.Seen.{server_state_of, step_of};
ghost use Rattle.srv_state.specs.State.{session_address};
ghost use Rattle.srv_state.specs.Steps.{acted};
ghost use Rattle.im_forwarding.specs.Passed;
ghost use Rattle.im_forwarding.specs.Passed.{addressed_view};
ghost use Rattle.sm_live.specs.Sessions.{info_of};
ghost use Rattle.srv_handlers.specs.Messages;
ghost use Rattle.srv_handlers.specs.Messages.{at_message, bouncing, carrying, copying, delivering, messaging};
ghost use Rattle.srv_handlers.specs.Parts.{plan_view};
ghost use Rattle.srv_route.specs.Routes.{archives_in, archives_of};
ghost use Rattle.xml_writer.specs.Items.{written_item};

use crate::archives::is_full;
use crate::carrying::carry_to;
use crate::copies::add_copies;
use crate::deliveries::add_deliveries;
use base_io::NoMemory;
use im_forwarding::Addressed;
use im_replies::bounced;
use im_stanza::{Condition, ErrorKind, Message, StanzaError};
use sm_live::SessionInfo;
use srv_route::{Plan, Route, archives_have_it_once, plan};
use srv_state::{OutgoingStanza, ServerContext};

fn no_room() -> StanzaError
    ensures { result ≡ Messages.no_room }
{
    StanzaError {
        kind: ErrorKind::Wait,
        condition: Condition::ResourceConstraint,
    }
}

// All that goes to sessions: the message, and then copies as sent and as received.
#[tactic(auto, using(crate::proofs::Runs::all_sent))]
fn outgoing_stanzas_of(
    context: &ServerContext,
    addressed: &Addressed<'_>,
    route: &Route,
) -> Result<Vec<OutgoingStanza>, NoMemory>
    ensures { IfOk result (λ outgoing_stanzas. sends_of outgoing_stanzas.items ≡ delivering written_item (addressed_view addressed.now) (archives_of route.now.archiving) route.now.deliver (server_state_of context.now) (copying written_item true (addressed_view addressed.now) (archives_of route.now.archiving) route.now.sent (server_state_of context.now) (copying written_item false (addressed_view addressed.now) (archives_of route.now.archiving) route.now.received (server_state_of context.now) []))) }
{
    let archiving = route.archiving;
    let mut outgoing_stanzas = Vec::new(context.alloc);
    add_deliveries(
        context,
        &mut outgoing_stanzas,
        addressed,
        archiving,
        route.deliver.as_slice(),
    )?;
    add_copies(
        context,
        &mut outgoing_stanzas,
        addressed,
        archiving,
        true,
        route.sent.as_slice(),
    )?;
    add_copies(
        context,
        &mut outgoing_stanzas,
        addressed,
        archiving,
        false,
        route.received.as_slice(),
    )?;
    Ok(outgoing_stanzas)
}

// The message comes back.
fn bounce(
    context: &mut ServerContext,
    message: &Message,
    to: &str,
    error: &StanzaError,
    told: &SessionInfo,
) -> Result<(), NoMemory>
    requires { Some told.now ≡ info_of told.now.number (server_state_of context.old).sessions }
    ensures ok { OnOk result (step_of context.new ≡ acted written_item (counting told.now (bouncing written_item message.now to.now error.now told.now)) (step_of context.old)) }
    ensures err { OnErr result (step_of context.new ≡ step_of context.old) }
{
    let answer = bounced(context.alloc, to, message.id.as_str(), error)?;
    context.reply(told, answer)
}

// The message goes its way.
fn on_routed(
    context: &mut ServerContext,
    message: &Message,
    to: &str,
    route: &Route,
    told: &SessionInfo,
) -> Result<(), NoMemory>
    requires told { Some told.now ≡ info_of told.now.number (server_state_of context.old).sessions }
    requires apart { are_distinct_by nat_eq (archives_of route.now.archiving) ≡ true }
    ensures ok { OnOk result (step_of context.new ≡ acted written_item (counting told.now (carrying written_item (Passed.addressed (session_address told.now.number (server_state_of context.old)) to.now message.now) (archives_of route.now.archiving) route.now (server_state_of context.old))) (step_of context.old)) }
    ensures err { OnErr result (step_of context.new ≡ step_of context.old) }
{
    let from = context.session_address(told.number)?;
    let addressed = Addressed {
        message,
        from: from.as_str(),
        to,
    };
    let outgoing_stanzas = outgoing_stanzas_of(context, &addressed, route)?;
    carry_to(context, told, &addressed, route.archiving, outgoing_stanzas)
}

// The message goes the way that was planned.
fn on_planned(
    context: &mut ServerContext,
    message: &Message,
    to: &str,
    plan: &Plan,
    told: &SessionInfo,
) -> Result<(), NoMemory>
    requires told { Some told.now ≡ info_of told.now.number (server_state_of context.old).sessions }
    requires apart { are_distinct_by nat_eq (archives_in (plan_view plan.now)) ≡ true }
    ensures ok { OnOk result (step_of context.new ≡ acted written_item (counting told.now (messaging written_item message.now to.now told.now (plan_view plan.now) (server_state_of context.old))) (step_of context.old)) }
    ensures err { OnErr result (step_of context.new ≡ step_of context.old) }
{
    match plan {
        Plan::Bounced(error) => bounce(context, message, to, error, told),
        Plan::Routed(route) => {
            if is_full(context, route.archiving) {
                bounce(context, message, to, &no_room(), told)
            } else {
                on_routed(context, message, to, route, told)
            }
        }
    }
}

/// A message of a session that is bound (RFC 6121, section 8). One without `to` is to the bare address of the session's
/// account, and it goes on from the full address of the session, whatever it came with. `told` is what is told of the
/// session now. The message counts as handled, and then goes as `srv_route::plan` says:
///
/// - it comes back with an error;
/// - or it is archived in the sender's archive and then in the recipient's, each once (XEP-0313, section 5), that is told
///   where it was archived, it goes to each session that it is delivered to, with the id of the archive of the session's
///   account (XEP-0359), and then copies go out as sent and as received (XEP-0280, sections 7 and 8).
///
/// Where an archive of the plan gave its greatest number, the message comes back with `resource-constraint`, of type `wait`,
/// and goes nowhere. All of it is made from what the server held when the message came.
///
/// `NoMemory` comes where memory runs out, and where more stanzas than 32 bits count were to go out. A refusal leaves all as
/// it was: the message doesn't count, and nothing is archived or put out.
#[tactic(auto, using(crate::proofs::PlanViews::viewed, crate::proofs::PlanViews::viewed_archives))]
pub fn on_message(
    context: &mut ServerContext,
    message: &Message,
    told: &SessionInfo,
) -> Result<(), NoMemory>
    requires { Some told.now ≡ info_of told.now.number (server_state_of context.old).sessions }
    ensures ok { OnOk result (step_of context.new ≡ acted written_item (counting told.now (at_message written_item message.now told.now (server_state_of context.old))) (step_of context.old)) }
    ensures err { OnErr result (step_of context.new ≡ step_of context.old) }
{
    archives_have_it_once();
    let domain = context.domain.as_str();
    let plan = plan(
        context.alloc,
        domain,
        &context.accounts,
        &context.live,
        message,
        told,
    )?;
    match &message.to {
        Some(to) => on_planned(context, message, to.text(), &plan, told),
        None => {
            let bare = context.bare_address(told.account)?;
            on_planned(context, message, bare.as_str(), &plan, told)
        }
    }
}
