//! The laws.
ghost use Rattle.std.specs.Prelude.{◌≡◌, ◌≤◌, ◌<◌, ◌+◌, ◌^◌, ℕ, List, [], ◌∷◌, Option, Some, None, IfSome, true, false, codes, drop, length};
ghost use Rattle.std.specs.List.{list_all};
ghost use Rattle.mam_archive.specs.Entries.{EntryView, numbered};
ghost use Rattle.base_lemmas.specs.Hexadecimal.{hex16_of};
ghost use Rattle.im_extensions.specs.Bind.{bind_result_elem};
ghost use Rattle.im_extensions.specs.Counts.{too_high_elem};
ghost use Rattle.im_extensions.specs.StreamManagement.{ack_elem, enabled_elem, resumed_elem, sm_failed_elem};
ghost use Rattle.im_login.specs.Discovery.{account, disco_info_elem, disco_items_elem, server, server_features};
ghost use Rattle.im_login.specs.Features.{features_elem};
ghost use Rattle.im_forwarding.specs.Copies.{CopyView, copy_elem};
ghost use Rattle.im_forwarding.specs.Passed.{passed_elem};
ghost use Rattle.im_forwarding.specs.Results.{AskerView, entry_elem};
ghost use Rattle.xml_framer.specs.Limits.{client_limits};
ghost use Rattle.law_xml.specs.Fitting.{HeaderFits};
ghost use Rattle.law_xml.specs.Plain.{IsPlainHeader};
ghost use Rattle.im_mam.specs.ArchiveAnswers.{fin_elem, fin_elem_without_index};
ghost use Rattle.im_messages.specs.Entries.{entry_of};
ghost use Rattle.mam_pages.specs.declared.fin.Fin.{Fin};
ghost use Rattle.im_payload.specs.Bare.{bare};
ghost use Rattle.im_payload.specs.Names.{management, roster};
ghost use Rattle.law_limits.specs.Bounded.{AreBounded, ClientReads, IsWord};
ghost use Rattle.law_limits.specs.Messages.{EntryFits, MessageFits};
ghost use Rattle.im_replies.specs.Requests.{EnvelopeView};
ghost use Rattle.im_replies.specs.Streams.{server_header, stream_condition_name, stream_id};
ghost use Rattle.im_replies.specs.declared.conditions.StreamCondition.{StreamCondition};
ghost use Rattle.im_login.specs.Sasl.{carrier, failure_of};
ghost use Rattle.law_limits.specs.Texts.{Said, is_printable};
ghost use Rattle.im_stanza.specs.Answering.{bounce_elem, iq_error_elem, presence_bounce_elem};
ghost use Rattle.im_stanza.specs.Conditions.{IsKnown};
ghost use Rattle.im_stanza.specs.Errors.{stream_error_elem};
ghost use Rattle.im_stanza.specs.Names.{client_ns};
ghost use Rattle.im_stanza.specs.Views.{MessageView};
ghost use Rattle.im_stanza.specs.Written.{iq_elem};
ghost use Rattle.im_stanza.specs.declared.conditions.Condition.{Condition};
ghost use Rattle.im_stanza.specs.declared.errors.StanzaError.{StanzaError};
ghost use Rattle.im_stanza.specs.declared.kinds.IqKind.TheVariants as iq;
ghost use Rattle.xml_trees.specs.Tidied.{tidied_nodes};
ghost use Rattle.xml_trees.specs.Trees.{Nodes, child, no_nodes};

/// A law: a client reads how a server begins and ends its stream (RFC 6120, sections 4.3 to 4.9). A domain takes at most
/// 6,138 bytes as it is written, and behind its first 18 bytes what is drawn for a connection has at most 1,000.
pub fn streams_are_read()
    ensures plain { (domain : List ℕ) (k : ℕ) (entropy : List ℕ) → Said 6138 domain → length (drop 18 entropy) ≤ 1000 → IsPlainHeader (server_header domain (stream_id k entropy)) }
    ensures header { (domain : List ℕ) (k : ℕ) (entropy : List ℕ) → Said 6138 domain → length (drop 18 entropy) ≤ 1000 → HeaderFits client_limits (server_header domain (stream_id k entropy)) }
    ensures error { (c : StreamCondition) → ClientReads (stream_error_elem (stream_condition_name c) None) }
    ensures too_high { (h count : ℕ) → h < 2 ^ 64 → count < 2 ^ 64 → ClientReads (stream_error_elem (codes "undefined-condition") (Some (too_high_elem h count))) }
    ensures login_features { ClientReads (features_elem (record { scram_sha_256 = true; bind = false; stream_management = false })) }
    ensures session_features { ClientReads (features_elem (record { scram_sha_256 = false; bind = true; stream_management = true })) }
{}

/// A law: a client reads what a server says of a login (RFC 6120, section 6.4): a printable message of at most 200,000
/// bytes, and a failure.
pub fn logins_are_read()
    ensures carrier { (name payload : List ℕ) → IsWord name → list_all is_printable payload ≡ true → length payload ≤ 200000 → ClientReads (carrier name payload) }
    ensures failure { (condition : List ℕ) → IsWord condition → ClientReads (failure_of condition) }
{}

/// A law: a client reads what a server says of stream management (XEP-0198, sections 3 to 5).
pub fn management_is_read()
    ensures request { ClientReads (bare management (codes "r")) }
    ensures ack { (h : ℕ) → h < 2 ^ 64 → ClientReads (ack_elem (record { h = h })) }
    ensures enabled { ClientReads (enabled_elem (record { id = []; resume = false; max = None })) }
    ensures resumable { (n seconds : ℕ) → seconds < 2 ^ 64 → ClientReads (enabled_elem (record { id = hex16_of n; resume = true; max = Some seconds })) }
    ensures resumed { (n h : ℕ) → h < 2 ^ 64 → ClientReads (resumed_elem (record { previd = hex16_of n; h = h })) }
    ensures refused { (c : Condition) → IsKnown c → ClientReads (sm_failed_elem (record { condition = c })) }
{}

/// A law: a client reads what a server answers to requests, and to messages and presences that it can't pass on (RFC 6120,
/// sections 7 and 8), where the texts of the answer take at most 4,000,000 bytes in all.
pub fn answers_are_read()
    ensures bounce { (f i : ℕ) (from id : List ℕ) (e : StanzaError) → Said f from → Said i id → IsKnown e.condition → f + i ≤ 4000000 → ClientReads (bounce_elem from id e) }
    ensures presence { (f i : ℕ) (from id : List ℕ) (e : StanzaError) → Said f from → Said i id → IsKnown e.condition → f + i ≤ 4000000 → ClientReads (presence_bounce_elem from id e) }
    ensures error { (f i t : ℕ) (from to : Option (List ℕ)) (id : List ℕ) (e : StanzaError) → IfSome from (Said f) → Said i id → IfSome to (Said t) → IsKnown e.condition → f + i + t ≤ 4000000 → ClientReads (iq_error_elem from to id e) }
    ensures result { (f i t levels n : ℕ) (a : EnvelopeView) (payload : Nodes) → IfSome a.from (Said f) → Said i a.id → IfSome a.to (Said t) → tidied_nodes payload ≡ payload → AreBounded client_ns levels n payload
        → levels ≤ 60 → f + i + t + n ≤ 4000000 → ClientReads (iq_elem (record { from = a.from; to = a.to; id = a.id; kind = iq.Result; payload = payload })) }
    ensures roster { AreBounded client_ns 1 400 (child (bare roster (codes "query")) no_nodes) }
    ensures server_info { AreBounded client_ns 2 5000 (child (disco_info_elem (server ∷ []) server_features) no_nodes) }
    ensures account_info { AreBounded client_ns 2 5000 (child (disco_info_elem (account ∷ []) server_features) no_nodes) }
    ensures items { (m : ℕ) (node : List ℕ) → Said m node → AreBounded client_ns 1 (m + 448) (child (disco_items_elem node) no_nodes) }
    ensures bound { (m : ℕ) (jid : List ℕ) → Said m jid → AreBounded client_ns 2 (m + 800) (child (bind_result_elem (record { jid = jid })) no_nodes) }
    ensures fin { (v : Fin) → IfSome v.first (Said 120) → IfSome v.last (Said 120) → v.first_index < 2 ^ 64 → v.count < 2 ^ 64 → AreBounded client_ns 3 3000 (child (fin_elem v) no_nodes) }
    ensures fin_without_index { (v : Fin) → IfSome v.first (Said 120) → IfSome v.last (Said 120) → v.count < 2 ^ 64 → AreBounded client_ns 3 3000 (child (fin_elem_without_index v) no_nodes) }
{}

/// A law: a client reads what a server passes on, copies and forwards (RFC 6121, section 8; XEP-0280; XEP-0313, section
/// 4.2), of a message that was handled and of an entry that was made of one.
pub fn forwarded_messages_are_read()
    ensures passed { (by : List ℕ) (number : Option ℕ) (m : MessageView) → Said 12282 by → MessageFits m → ClientReads (passed_elem by number m) }
    ensures copied { (c : CopyView) (full : List ℕ) → Said 12282 c.by → Said 18426 full → MessageFits c.message → ClientReads (copy_elem c full) }
    ensures result { (a : AskerView) (e : EntryView) → Said 12282 a.by → Said 18426 a.full → Said 1048576 a.queryid → EntryFits e → ClientReads (entry_elem a e) }
{}

/// A law: what an archive keeps of a message that was handled fits, under whatever number.
pub fn entries_fit()
    ensures entry { (number stamp : ℕ) (m : MessageView) → MessageFits m → EntryFits (entry_of number stamp m) }
    ensures numbered { (n : ℕ) (e : EntryView) → EntryFits e → EntryFits (numbered n e) }
{}
