//! A page of an archive is sent (XEP-0313, sections 4.2 and 4.3): its entries one by one, and then its end.
ghost use Rattle.std.specs.Prelude.{◌≡◌, ◌+◌, ◌≤◌, [], ◌∷◌, ◌++◌, length, IfOk, IfSome, OnErr, OnOk, Some};
ghost use Rattle.std.specs.Option.{option_copied, option_map};
ghost use Rattle.srv_state.specs.Handling.{counting};
ghost use Rattle.srv_state.specs.OutgoingStanzas.{sends_of};
ghost use Rattle.srv_state.specs.Seen.{kept_of, server_state_of, step_of};
ghost use Rattle.srv_state.specs.State;
ghost use Rattle.srv_state.specs.State.{archive_at};
ghost use Rattle.srv_state.specs.Steps.{Send, acted};
ghost use Rattle.im_forwarding.specs.Results.{asker_view, fin_text};
ghost use Rattle.sm_live.specs.Sessions.{info_of};
ghost use Rattle.mam_pages.specs.Kept.{kept_by};
ghost use Rattle.mam_pages.specs.PageOf.{page_of};
ghost use Rattle.im_replies.specs.Requests.{envelope_view, iq_error_text};
ghost use Rattle.im_forwarding.specs.Queries;
ghost use Rattle.srv_handlers.specs.Pages.{page_sent};
ghost use Rattle.srv_handlers.specs.Requests.{paging, querying_in, sending_entries, sending_entry};
ghost use Rattle.xml_writer.specs.Items.{written_item};

use crate::envelopes::envelope_to;
use base_io::{Bytes, NoMemory};
use im_forwarding::{Asker, archived, no_such_place, page_end};
use im_mam::MamQuery;
use im_replies::{Envelope, refusal};
use im_stanza::Iq;
use mam_archive::{Archive, Entry};
use mam_pages::{ArchiveLook, PageCut, PageFault, PageQuery, page};
use sm_live::SessionInfo;
use srv_state::{OutgoingStanza, ServerContext};
use std::alloc::Global;

// The page of an archive. `None` where its place is none.
#[tactic(auto, using(crate::proofs::PageLengths::few_numbers))]
fn page_of(alloc: Global, archive: &Archive, query: &PageQuery) -> Result<Option<PageCut>, NoMemory>
    ensures page { IfOk result (λ cut. cut ≡ page_of (kept_by archive.now.owner archive.now.entries) query.now) }
    ensures few { IfOk result (λ cut. IfSome cut (λ c. length c.numbers ≤ 100)) }
{
    let mut look = ArchiveLook::new(archive);
    match page(alloc, &mut look, query) {
        Ok(cut) => Ok(Some(cut)),
        Err(PageFault::NotFound) => Ok(None),
        Err(PageFault::NoMemory) => Err(NoMemory),
    }
}

// ---- what is sent

// One stanza more to a session.
#[tactic(auto, using(crate::proofs::Sendings::sends_push))]
fn add_stanza(
    alloc: Global,
    outgoing_stanzas: &mut Vec<OutgoingStanza>,
    number: u64,
    bytes: Bytes,
) -> Result<(), NoMemory>
    ensures sends { OnOk result (sends_of outgoing_stanzas.new.items ≡ sends_of outgoing_stanzas.old.items ++ Send number bytes.items ∷ []) }
    ensures length { OnOk result (length outgoing_stanzas.new.items ≡ length outgoing_stanzas.old.items + 1) }
{
    outgoing_stanzas.push(OutgoingStanza::new(alloc, number, bytes)?)?;
    Ok(())
}

// An entry of a page, where there is one.
fn add_entry(
    alloc: Global,
    outgoing_stanzas: &mut Vec<OutgoingStanza>,
    number: u64,
    asker: &Asker<'_>,
    entry: Option<&Entry>,
) -> Result<(), NoMemory>
    ensures sends { OnOk result (sends_of outgoing_stanzas.new.items ≡ sends_of outgoing_stanzas.old.items ++ sending_entry written_item number (asker_view asker.now) (option_copied entry.entry) []) }
    ensures length { OnOk result (length outgoing_stanzas.new.items ≤ length outgoing_stanzas.old.items + 1) }
{
    match entry {
        Some(entry) => {
            let bytes = archived(alloc, asker, entry)?;
            add_stanza(alloc, outgoing_stanzas, number, bytes)
        }
        None => Ok(()),
    }
}

// The entries of a page, one by one.
#[tactic(auto, using(crate::proofs::Sendings::entry_first))]
fn add_entries(
    alloc: Global,
    outgoing_stanzas: &mut Vec<OutgoingStanza>,
    number: u64,
    asker: &Asker<'_>,
    archive: &Archive,
    numbers: &[u64],
) -> Result<(), NoMemory>
    ensures sends { OnOk result (sends_of outgoing_stanzas.new.items ≡ sends_of outgoing_stanzas.old.items ++ sending_entries written_item number (asker_view asker.now) archive.now.entries numbers.now []) }
    ensures length { OnOk result (length outgoing_stanzas.new.items ≤ length outgoing_stanzas.old.items + length numbers.now) }
{
    for at in numbers {
        add_entry(alloc, outgoing_stanzas, number, asker, archive.get(*at))?;
    }
    Ok(())
}

// The entries of a page, and its end.
#[tactic(auto, using(crate::proofs::Sendings::entries_before))]
fn found_outgoing_stanzas(
    alloc: Global,
    archive: &Archive,
    cut: &PageCut,
    asker: &Asker<'_>,
    envelope: &Envelope<'_>,
    number: u64,
) -> Result<Vec<OutgoingStanza>, NoMemory>
    ensures sends { IfOk result (λ outgoing_stanzas. sends_of outgoing_stanzas.items ≡ sending_entries written_item number (asker_view asker.now) archive.now.entries cut.now.numbers (Send number (fin_text (envelope_view envelope.now) cut.now) ∷ [])) }
    ensures length { IfOk result (λ outgoing_stanzas. length outgoing_stanzas.items ≤ length cut.now.numbers + 1) }
{
    let mut outgoing_stanzas = Vec::new(alloc);
    let numbers = cut.numbers.as_slice();
    add_entries(
        alloc,
        &mut outgoing_stanzas,
        number,
        asker,
        archive,
        numbers,
    )?;
    let end = page_end(alloc, envelope, cut)?;
    add_stanza(alloc, &mut outgoing_stanzas, number, end)?;
    Ok(outgoing_stanzas)
}

// The refusal of a page whose place is none.
fn refused_outgoing_stanzas(
    alloc: Global,
    envelope: &Envelope<'_>,
    number: u64,
) -> Result<Vec<OutgoingStanza>, NoMemory>
    ensures sends { IfOk result (λ outgoing_stanzas. sends_of outgoing_stanzas.items ≡ Send number (iq_error_text (envelope_view envelope.now) Queries.no_such_place) ∷ []) }
    ensures length { IfOk result (λ outgoing_stanzas. length outgoing_stanzas.items ≡ 1) }
{
    let answer = refusal(alloc, envelope, &no_such_place())?;
    let mut outgoing_stanzas = Vec::new(alloc);
    add_stanza(alloc, &mut outgoing_stanzas, number, answer)?;
    Ok(outgoing_stanzas)
}

// What is sent of the page that a query of an archive asks for.
fn page_outgoing_stanzas(
    alloc: Global,
    archive: &Archive,
    query: &PageQuery,
    asker: &Asker<'_>,
    envelope: &Envelope<'_>,
    number: u64,
) -> Result<Vec<OutgoingStanza>, NoMemory>
    ensures sends { IfOk result (λ outgoing_stanzas. sends_of outgoing_stanzas.items ≡ page_sent written_item number (asker_view asker.now) (envelope_view envelope.now) archive.now.entries (page_of (kept_by archive.now.owner archive.now.entries) query.now)) }
    ensures few { IfOk result (λ outgoing_stanzas. length outgoing_stanzas.items ≤ 101) }
{
    match page_of(alloc, archive, query)? {
        Some(cut) => found_outgoing_stanzas(alloc, archive, &cut, asker, envelope, number),
        None => refused_outgoing_stanzas(alloc, envelope, number),
    }
}

// ---- whose archive

// What an account's archive is asked for. The session has this full address.
#[tactic(auto, using(crate::proofs::Sendings::page_paged))]
fn archive_outgoing_stanzas(
    context: &ServerContext,
    archive: &Archive,
    query: &MamQuery,
    iq: &Iq,
    full: &str,
    told: &SessionInfo,
) -> Result<Vec<OutgoingStanza>, NoMemory>
    requires { full.now ≡ State.session_address told.now.number (server_state_of context.now) }
    ensures sends { IfOk result (λ outgoing_stanzas. sends_of outgoing_stanzas.items ≡ paging written_item iq.now told.now query.now.queryid (kept_of archive.now) (page_of (kept_by archive.now.owner archive.now.entries) query.now.query) (server_state_of context.now)) }
    ensures few { IfOk result (λ outgoing_stanzas. length outgoing_stanzas.items ≤ 101) }
{
    let by = context.bare_address(told.account)?;
    let asker = Asker {
        by: by.as_str(),
        full,
        queryid: query.queryid.as_str(),
    };
    let envelope = envelope_to(iq, full);
    page_outgoing_stanzas(
        context.alloc,
        archive,
        &query.query,
        &asker,
        &envelope,
        told.number,
    )
}

// The archive of a session's account.
#[tactic(auto, using(crate::proofs::ArchiveSteps::seen_at))]
fn archive_of<'a>(context: &'a ServerContext, told: &SessionInfo) -> Option<&'a Archive>
    ensures { option_map kept_of (option_copied result) ≡ archive_at told.now.account (server_state_of context.now) }
{
    context.archives.get(told.account as usize)
}

// What the archive of the session's account is asked for. Nothing is sent where it has none.
fn query_outgoing_stanzas(
    context: &ServerContext,
    query: &MamQuery,
    iq: &Iq,
    full: &str,
    told: &SessionInfo,
) -> Result<Vec<OutgoingStanza>, NoMemory>
    requires { full.now ≡ State.session_address told.now.number (server_state_of context.now) }
    ensures sends { IfOk result (λ outgoing_stanzas. sends_of outgoing_stanzas.items ≡ querying_in written_item iq.now told.now query.now (archive_at told.now.account (server_state_of context.now)) (server_state_of context.now)) }
    ensures few { IfOk result (λ outgoing_stanzas. length outgoing_stanzas.items ≤ 101) }
{
    match archive_of(context, told) {
        Some(archive) => archive_outgoing_stanzas(context, archive, query, iq, full, told),
        None => Ok(Vec::new(context.alloc)),
    }
}

/// A query of the archive of the session's account (XEP-0313, sections 4.1 to 4.3). The session has this full address. All
/// memory is taken first; a refusal leaves all as it was.
#[tactic(auto, using(crate::proofs::Countings::counts_first))]
pub(crate) fn on_query(
    context: &mut ServerContext,
    query: &MamQuery,
    iq: &Iq,
    full: &str,
    told: &SessionInfo,
) -> Result<(), NoMemory>
    requires told { Some told.now ≡ info_of told.now.number (server_state_of context.old).sessions }
    requires full { full.now ≡ State.session_address told.now.number (server_state_of context.old) }
    ensures ok { OnOk result (step_of context.new ≡ acted written_item (counting told.now (querying_in written_item iq.now told.now query.now (archive_at told.now.account (server_state_of context.old)) (server_state_of context.old))) (step_of context.old)) }
    ensures err { OnErr result (step_of context.new ≡ step_of context.old) }
{
    let outgoing_stanzas = query_outgoing_stanzas(context, query, iq, full, told)?;
    context.reserve_stanzas(outgoing_stanzas.len() as u32)?;
    context.count(told);
    context.send_all(outgoing_stanzas);
    Ok(())
}
