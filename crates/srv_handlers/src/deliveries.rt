//! A message goes to the sessions that it is delivered to (RFC 6121, section 8.5; XEP-0359, section 3).
ghost use Rattle.std.specs.Prelude.{◌≡◌, [], ◌++◌, IfOk, OnOk};
ghost use Rattle.srv_state.specs.OutgoingStanzas.{sends_of};
ghost use Rattle.srv_state.specs.Seen.{server_state_of};
ghost use Rattle.srv_state.specs.State.{bare_address};
ghost use Rattle.im_forwarding.specs.Passed.{addressed_view, passed_text};
ghost use Rattle.sm_live.specs.Sessions.{info_of};
ghost use Rattle.srv_handlers.specs.Messages;
ghost use Rattle.srv_handlers.specs.Messages.{delivering, delivering_to};
ghost use Rattle.srv_handlers.specs.Parts.{IsPassed};
ghost use Rattle.srv_route.specs.Routes.{archives_of};
ghost use Rattle.xml_writer.specs.Items.{written_item};

use crate::archives::number_in;
use crate::outgoing_stanzas::{Made, add_stanza};
use base_io::{Bytes, NoMemory};
use im_forwarding::{Addressed, Filed, passed};
use srv_route::Archiving;
use srv_state::{OutgoingStanza, ServerContext};

// The message for the sessions of an account.
fn make(
    context: &ServerContext,
    account: u32,
    addressed: &Addressed<'_>,
    archiving: Archiving,
) -> Result<Made, NoMemory>
    ensures account { IfOk result (λ made. made.account ≡ account) }
    ensures bytes { IfOk result (λ made. made.bytes.items ≡ passed_text (bare_address account (server_state_of context.now)) (Messages.number_in account (archives_of archiving) (server_state_of context.now)) (addressed_view addressed.now)) }
{
    let by = context.bare_address(account)?;
    let filed = Filed {
        by: by.as_str(),
        number: number_in(context, account, archiving),
    };
    let bytes = passed(context.alloc, addressed, &filed)?;
    Ok(Made { account, bytes })
}

// The same, where what was made before may be for this account.
fn made_for(
    context: &ServerContext,
    account: u32,
    addressed: &Addressed<'_>,
    archiving: Archiving,
    made: Option<Made>,
) -> Result<Made, NoMemory>
    requires { IsPassed (addressed_view addressed.now) (archives_of archiving) (server_state_of context.now) made }
    ensures account { IfOk result (λ made. made.account ≡ account) }
    ensures bytes { IfOk result (λ made. made.bytes.items ≡ passed_text (bare_address account (server_state_of context.now)) (Messages.number_in account (archives_of archiving) (server_state_of context.now)) (addressed_view addressed.now)) }
{
    match made {
        Some(made) => {
            if made.account == account {
                Ok(made)
            } else {
                make(context, account, addressed, archiving)
            }
        }
        None => make(context, account, addressed, archiving),
    }
}

// The message to one session, where it lives, and what is made by then.
fn add_delivery(
    context: &ServerContext,
    outgoing_stanzas: &mut Vec<OutgoingStanza>,
    addressed: &Addressed<'_>,
    archiving: Archiving,
    number: u64,
    made: Option<Made>,
) -> Result<Option<Made>, NoMemory>
    requires { IsPassed (addressed_view addressed.now) (archives_of archiving) (server_state_of context.now) made }
    ensures made { IfOk result (λ made. IsPassed (addressed_view addressed.now) (archives_of archiving) (server_state_of context.now) made) }
    ensures sends { OnOk result (sends_of outgoing_stanzas.new.items ≡ sends_of outgoing_stanzas.old.items ++ delivering_to written_item (addressed_view addressed.now) (archives_of archiving) number (info_of number (server_state_of context.now).sessions) (server_state_of context.now) []) }
{
    match context.live.told(number) {
        Some(told) => {
            let made = made_for(context, told.account, addressed, archiving, made)?;
            let bytes = Bytes::from_slice(context.alloc, made.bytes.as_slice())?;
            add_stanza(context.alloc, outgoing_stanzas, number, bytes)?;
            Ok(Some(made))
        }
        None => Ok(made),
    }
}

/// The message to each of these sessions. What an account's archive and its bare address make of it is made once for the
/// sessions of one account that follow one another.
#[tactic(auto, using(crate::proofs::Runs::delivered_first))]
pub(crate) fn add_deliveries(
    context: &ServerContext,
    outgoing_stanzas: &mut Vec<OutgoingStanza>,
    addressed: &Addressed<'_>,
    archiving: Archiving,
    numbers: &[u64],
) -> Result<(), NoMemory>
    ensures { OnOk result (sends_of outgoing_stanzas.new.items ≡ sends_of outgoing_stanzas.old.items ++ delivering written_item (addressed_view addressed.now) (archives_of archiving) numbers.now (server_state_of context.now) []) }
{
    let mut made = None;
    for number in numbers {
        made = add_delivery(
            context,
            outgoing_stanzas,
            addressed,
            archiving,
            *number,
            made,
        )?;
    }
    Ok(())
}
