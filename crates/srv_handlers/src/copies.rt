//! Copies of a message go to sessions that asked for them (XEP-0280, sections 7 and 8).
ghost use Rattle.std.specs.Prelude.{◌≡◌, [], ◌++◌, IfOk, OnOk, Some};
ghost use Rattle.srv_state.specs.OutgoingStanzas.{sends_of};
ghost use Rattle.srv_state.specs.Seen.{server_state_of};
ghost use Rattle.srv_state.specs.State.{session_address};
ghost use Rattle.im_forwarding.specs.Copies.{copied_text, copy_text, copy_view};
ghost use Rattle.im_forwarding.specs.Passed.{addressed_view};
ghost use Rattle.sm_live.specs.Sessions.{info_of};
ghost use Rattle.srv_handlers.specs.Messages.{copy_for, copying, copying_to};
ghost use Rattle.srv_handlers.specs.Parts.{IsInside};
ghost use Rattle.srv_route.specs.Routes.{archives_of};
ghost use Rattle.xml_writer.specs.Items.{written_item};

use crate::archives::number_in;
use crate::outgoing_stanzas::{Made, add_stanza};
use base_io::{Bytes, NoMemory};
use im_forwarding::{Addressed, CarbonCopy, Filed};
use srv_route::Archiving;
use srv_state::{OutgoingStanza, ServerContext};
use std::alloc::Global;

// What is inside the copies for an account's sessions.
fn make(alloc: Global, account: u32, copy: &CarbonCopy<'_>) -> Result<Made, NoMemory>
    ensures account { IfOk result (λ made. made.account ≡ account) }
    ensures bytes { IfOk result (λ made. made.bytes.items ≡ copied_text (copy_view copy.now)) }
{
    let bytes = copy.inside(alloc)?;
    Ok(Made { account, bytes })
}

// The same, where what was made before may be for this account.
fn made_for(
    context: &ServerContext,
    account: u32,
    copy: &CarbonCopy<'_>,
    addressed: &Addressed<'_>,
    archiving: Archiving,
    made: Option<Made>,
) -> Result<Made, NoMemory>
    requires copy { copy_view copy.now ≡ copy_for copy.now.sent (addressed_view addressed.now) (archives_of archiving) account (server_state_of context.now) }
    requires made { IsInside copy.now.sent (addressed_view addressed.now) (archives_of archiving) (server_state_of context.now) made }
    ensures account { IfOk result (λ made. made.account ≡ account) }
    ensures bytes { IfOk result (λ made. made.bytes.items ≡ copied_text (copy_view copy.now)) }
{
    match made {
        Some(made) => {
            if made.account == account {
                Ok(made)
            } else {
                make(context.alloc, account, copy)
            }
        }
        None => make(context.alloc, account, copy),
    }
}

// A copy for a session of an account, and what is made by then.
fn copy_for(
    context: &ServerContext,
    account: u32,
    number: u64,
    addressed: &Addressed<'_>,
    archiving: Archiving,
    sent: bool,
    made: Option<Made>,
) -> Result<(Bytes, Made), NoMemory>
    requires { IsInside sent (addressed_view addressed.now) (archives_of archiving) (server_state_of context.now) made }
    ensures bytes { IfOk result (λ pair. pair.0.items ≡ copy_text (copy_for sent (addressed_view addressed.now) (archives_of archiving) account (server_state_of context.now)) (session_address number (server_state_of context.now))) }
    ensures made { IfOk result (λ pair. IsInside sent (addressed_view addressed.now) (archives_of archiving) (server_state_of context.now) (Some pair.1)) }
{
    let by = context.bare_address(account)?;
    let full = context.session_address(number)?;
    let filed = Filed {
        by: by.as_str(),
        number: number_in(context, account, archiving),
    };
    let copy = CarbonCopy {
        sent,
        moment: context.moment,
        message: addressed,
        filed: &filed,
    };
    let made = made_for(context, account, &copy, addressed, archiving, made)?;
    let bytes = copy.to(context.alloc, full.as_str(), &made.bytes)?;
    Ok((bytes, made))
}

// A copy to one session, where it lives, and what is made by then.
fn add_copy(
    context: &ServerContext,
    outgoing_stanzas: &mut Vec<OutgoingStanza>,
    addressed: &Addressed<'_>,
    archiving: Archiving,
    sent: bool,
    number: u64,
    made: Option<Made>,
) -> Result<Option<Made>, NoMemory>
    requires { IsInside sent (addressed_view addressed.now) (archives_of archiving) (server_state_of context.now) made }
    ensures made { IfOk result (λ made. IsInside sent (addressed_view addressed.now) (archives_of archiving) (server_state_of context.now) made) }
    ensures sends { OnOk result (sends_of outgoing_stanzas.new.items ≡ sends_of outgoing_stanzas.old.items ++ copying_to written_item sent (addressed_view addressed.now) (archives_of archiving) number (info_of number (server_state_of context.now).sessions) (server_state_of context.now) []) }
{
    match context.live.told(number) {
        Some(told) => {
            let (bytes, made) = copy_for(
                context,
                told.account,
                number,
                addressed,
                archiving,
                sent,
                made,
            )?;
            add_stanza(context.alloc, outgoing_stanzas, number, bytes)?;
            Ok(Some(made))
        }
        None => Ok(made),
    }
}

/// A copy to each of these sessions, as sent or as received. What is inside it is made once for the sessions of one
/// account that follow one another.
#[tactic(auto, using(crate::proofs::Runs::copied_first))]
pub(crate) fn add_copies(
    context: &ServerContext,
    outgoing_stanzas: &mut Vec<OutgoingStanza>,
    addressed: &Addressed<'_>,
    archiving: Archiving,
    sent: bool,
    numbers: &[u64],
) -> Result<(), NoMemory>
    ensures { OnOk result (sends_of outgoing_stanzas.new.items ≡ sends_of outgoing_stanzas.old.items ++ copying written_item sent (addressed_view addressed.now) (archives_of archiving) numbers.now (server_state_of context.now) []) }
{
    let mut made = None;
    for number in numbers {
        made = add_copy(
            context,
            outgoing_stanzas,
            addressed,
            archiving,
            sent,
            *number,
            made,
        )?;
    }
    Ok(())
}
