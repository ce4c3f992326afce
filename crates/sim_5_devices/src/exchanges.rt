//! A catch-up over a session, of both ends.
ghost use Rattle.std.specs.Prelude.{◌≡◌, ℕ, ◌-◌, ◌+◌, ◌≤◌, List, Ok, Some, length};
ghost use Rattle.im_jid.specs.Normal.{normal};
ghost use Rattle.srv_state.specs.State.{Kept, ServerState};
ghost use Rattle.sm_live.specs.declared.told.SessionInfo.{SessionInfo};
ghost use Rattle.sm_outbox.specs.Sessions.{SessionView};
ghost use Rattle.cl_core.specs.UserCalls.{catches_up};
ghost use Rattle.cl_handlers.specs.Clients.{ClientStep};
ghost use Rattle.cl_handlers.specs.Speech.{in_items};
ghost use Rattle.cl_handlers.specs.declared.phase.Phase.TheVariants.{Online};
ghost use Rattle.sm_acks.specs.declared.end.TheConstants.{MOST_UNACKNOWLEDGED};
ghost use Rattle.mam_pages.specs.declared.span.TheConstants.{MOST_RESULTS};
ghost use Rattle.law_client.specs.CatchUps.{pages_for};
ghost use Rattle.sim_5_devices.specs.Exchanges.{HasAsked, HasPlace, IsArchive, IsCaughtUp, Lacks, Serves, TakesAnswers, last_put};
ghost use Rattle.xml_writer.specs.Items.{ItemOut};

/// A law: a catch-up of client and server over a session ends, with all that was missing (XEP-0313, section 4; XEP-0059).
/// Where the user asks, the client puts the request for the page behind its log's last entry (`asks`). Of an archive that
/// doesn't grow meanwhile, whose last entries the log lacks, the catch-up then takes exactly so many answers as these make
/// pages, and one where none is missing: the server's row answers each request that the client put, the client takes the
/// results and the end, and behind the last page no other is asked for. The log has then the entries that it lacked behind
/// those that it had, as the archive has them, in tiles of which the last is complete (`exactly`). And it does end so,
/// where as many stanzas have place in the client's queue (`takes`).
pub fn catch_ups_end_over_a_session()
    ensures asks { (t : ClientStep ItemOut ItemOut) (s : SessionView ItemOut) (bare : List ℕ) (most : ℕ) → t.client.session ≡ Some s → t.client.phase ≡ Online → t.client.account.bare ≡ bare
        → (z : ItemOut) × (last_put (catches_up in_items t most).client.session ≡ Some z) × HasAsked bare most z (catches_up in_items t most) × ((catches_up in_items t most).client.log.entries ≡ t.client.log.entries) }
    ensures exactly { (bare full : List ℕ) (kept : Kept) (first last base most n : ℕ) (z : ItemOut) (t u : ClientStep ItemOut ItemOut) → normal bare ≡ Ok bare → normal full ≡ Ok full → IsArchive first last kept → 1 ≤ most → most ≤ MOST_RESULTS
        → HasAsked bare most z t → HasPlace t → Lacks first last base t.client.log → TakesAnswers bare full kept n z t u
        → (n ≡ pages_for (last - base) most) × IsCaughtUp first last base most n kept t.client.log u.client.log }
    ensures takes { (bare full : List ℕ) (kept : Kept) (first last base most : ℕ) (z : ItemOut) (t : ClientStep ItemOut ItemOut) (s : SessionView ItemOut) (told : SessionInfo) (h : ServerState ItemOut) → normal bare ≡ Ok bare → normal full ≡ Ok full → IsArchive first last kept
        → 1 ≤ most → most ≤ MOST_RESULTS → HasAsked bare most z t → t.client.session ≡ Some s → length s.waiting.queue + pages_for (last - base) most ≤ MOST_UNACKNOWLEDGED → Lacks first last base t.client.log → Serves bare full kept told h
        → (u : ClientStep ItemOut ItemOut) × TakesAnswers bare full kept (pages_for (last - base) most) z t u }
{}
