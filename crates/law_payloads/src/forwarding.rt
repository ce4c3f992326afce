//! Laws of messages that are forwarded: carbons, and what an archive answers (XEP-0280, XEP-0297, XEP-0313).
ghost use Rattle.std.specs.Prelude.{◌≡◌, ◌<◌, ◌≤◌, ◌^◌, ℕ, List, [], None, Ok, Option, Some, codes, true};
ghost use Rattle.im_extensions.specs.Carbons.{IsCarbon, WritesCarbon, carbon_checks, is_carbon};
ghost use Rattle.im_extensions.specs.ForwardReadings.{carbon_read, forward_read, forwarded_read};
ghost use Rattle.im_extensions.specs.Forwarding.{Forwards, IsForwarded, WritesForwarded, forward_checks, forwarded_checks, is_forwarded};
ghost use Rattle.im_extensions.specs.declared.carbons.Carbon.{Carbon};
ghost use Rattle.im_extensions.specs.declared.forwarding.Forwarded.{Forwarded};
ghost use Rattle.im_jid.specs.Normal.{normal};
ghost use Rattle.im_mam.specs.ArchiveAnswers.{IsFin, IsMamResult, WritesMamResult, fin_checks, fin_elem, fin_elem_without_index, is_fin, is_result, result_checks};
ghost use Rattle.im_mam.specs.Readings.{fin_read, result_read};
ghost use Rattle.im_mam.specs.declared.archive_answers.MamResult.{MamResult};
ghost use Rattle.mam_pages.specs.declared.fin.Fin.{Fin};
ghost use Rattle.im_payload.specs.Checks.{IsFirstWrong};
ghost use Rattle.law_payloads.specs.Answers.{IsAnswer};
ghost use Rattle.law_payloads.specs.Archived.{archived_elem};
ghost use Rattle.law_payloads.specs.AsRead.{carbon_as_read, forwarded_as_read, last_moment, result_as_read};
ghost use Rattle.im_stanza.specs.Readings.{stanza_of};
ghost use Rattle.im_stanza.specs.Stanzas.{attr_named};
ghost use Rattle.im_stanza.specs.declared.kinds.MessageKind.TheVariants as kind;
ghost use Rattle.im_stanza.specs.declared.stanzas.Stanza.TheVariants as stanza;
ghost use Rattle.xml_trees.specs.Tidied.{tidied};
ghost use Rattle.xml_trees.specs.Trees.{AreTidy, Elem, child, no_nodes};

/// A law: what is read of an element that forwards a message is what the grammar says that it stands for, and each
/// refusal comes exactly where the grammar tells it. `inside` is what is forwarded in an element, whatever its name;
/// `absent` is the moment where it has no delay.
pub fn forwarding_is_read_as_stated()
    ensures inside { (absent : Option ℕ) (e : Elem) → IsAnswer (forward_read absent e) true (IsFirstWrong (forward_checks absent e)) (Forwards absent e) }
    ensures forwarded { (e : Elem) → IsAnswer (forwarded_read e) (is_forwarded e) (IsFirstWrong (forwarded_checks e)) (IsForwarded e) }
    ensures carbon { (e : Elem) → IsAnswer (carbon_read e) (is_carbon e) (IsFirstWrong (carbon_checks e)) (IsCarbon e) }
    ensures result { (e : Elem) → IsAnswer (result_read e) (is_result e) (IsFirstWrong (result_checks e)) (IsMamResult e) }
{}

/// A law: what is written of a value is read as that value, but for a moment past the last, which is read as the last,
/// and a payload that isn't tidy, which is read tidied.
pub fn written_forwarding_is_read_back()
    ensures forwarded { (v : Forwarded) (e : Elem) → WritesForwarded v e → forwarded_read e ≡ Ok (forwarded_as_read v) }
    ensures carbon { (v : Carbon) (e : Elem) → WritesCarbon v e → carbon_read e ≡ Ok (carbon_as_read v) }
    ensures result { (v : MamResult) (e : Elem) → WritesMamResult v e → result_read e ≡ Ok (result_as_read v) }
    ensures stays { (v : Forwarded) → v.stamp ≤ last_moment → AreTidy v.message.payload → forwarded_as_read v ≡ v }
{}

/// A law: the message in which an archive sends an archived one has no `type`. It is read as a message of the type `normal`
/// between the normal forms of its addresses, without an id and a language, and what it contains, alone, is read as what
/// was written (XEP-0313, section 4.2).
pub fn archived_messages_are_read_back()
    ensures untyped { (from to : List ℕ) (e : Elem) → attr_named (codes "type") (tidied (archived_elem from to e)) ≡ None }
    ensures message { (from to : List ℕ) (e : Elem) (sender recipient : List ℕ) → normal from ≡ Ok sender → normal to ≡ Ok recipient
        → stanza_of (tidied (archived_elem from to e)) ≡ Ok (stanza.Message (record { from = Some sender; to = Some recipient; id = []; kind = kind.Normal; lang = []; payload = child (tidied e) no_nodes })) }
    ensures result { (v : MamResult) (e : Elem) → WritesMamResult v e → result_read (tidied e) ≡ Ok (result_as_read v) }
{}

/// A law: what is read of the end of a page is what the grammar says that the element stands for, and each refusal
/// comes exactly where the grammar tells it.
pub fn ends_of_pages_are_read_as_stated()
    ensures { (e : Elem) → IsAnswer (fin_read e) (is_fin e) (IsFirstWrong (fin_checks e)) (IsFin e) }
{}

/// A law: what is written of the end of a page is read as it. Its numbers have 64 bits, as they have in the type, and
/// without a first item the place of it is 0. Where that place isn't told, it is read as 0, and the rest as it is.
pub fn written_ends_of_pages_are_read_back()
    ensures with_index { (v : Fin) → v.first_index < 2 ^ 64 → v.count < 2 ^ 64 → (v.first ≡ None → v.first_index ≡ 0) → fin_read (fin_elem v) ≡ Ok v }
    ensures without_index { (v : Fin) → v.count < 2 ^ 64 → fin_read (fin_elem_without_index v) ≡ Ok (record v { first_index = 0 }) }
{}
