//! What is said is read as what it means: to the server, and to the client.
//!
//! A pipe carries items of the framer's machine (`Items.antt`, `law_xml`), not spellings of the grammar: so the laws
//! of pipes need neither the grammar nor the writer nor limits, and a declaration and the header behind it are one
//! item.
ghost use Rattle.std.specs.Prelude.{◌≡◌, ℕ, ◌^◌, ◌<◌, Bool, true, List, Option, Some};
ghost use Rattle.mam_archive.specs.Entries.{EntryView};
ghost use Rattle.im_forwarding.specs.Copies.{CopyView, copy_item};
ghost use Rattle.im_forwarding.specs.Passed.{passed_item};
ghost use Rattle.im_forwarding.specs.Queries.{no_such_place};
ghost use Rattle.im_forwarding.specs.Results.{AskerView, entry_item, fin_item};
ghost use Rattle.sim_3_items.specs.Downs.{down_stanza};
ghost use Rattle.sim_3_items.specs.Meant.{IsEntryNumber, IsOrigin, IsPage, IsRequest, IsSubmitted, requested, submitted};
ghost use Rattle.sim_3_items.specs.Ups.{up_stanza};
ghost use Rattle.sm_outbox.specs.Submissions.{origin_of};
ghost use Rattle.mam_pages.specs.Cuts.{CutView};
ghost use Rattle.im_replies.specs.Requests.{EnvelopeView, bounce_item, iq_error_item, result_item};
ghost use Rattle.im_requests.specs.Messages.{queryid_text};
ghost use Rattle.im_requests.specs.Sessions.{available_item, carbons_item};
ghost use Rattle.cmd_schedule.specs.Grammar.{is_name};
ghost use Rattle.sim_1_applications.specs.Answers.{last_in};
ghost use Rattle.sim_1_applications.specs.Stanzas.{Request, Submission};
ghost use Rattle.sim_1_applications.specs.Stanzas.Down.{Accepted, Bounced, Fin, Live, NotFound, Res};
ghost use Rattle.sim_1_applications.specs.Stanzas.Up.{Carbons, Message, Presence, Query};
ghost use Rattle.im_stanza.specs.Views.{MessageView};
ghost use Rattle.im_stanza.specs.declared.errors.StanzaError.{StanzaError};
ghost use Rattle.xml_trees.specs.Trees.{no_nodes};

/// A law: what a client puts at the beginning of its session, and each submission of a device, is read as that: by its
/// epoch and number, the name of the account that it is to, its text, and whether it is private. And where the server
/// sends one back, the client reads which it was.
pub fn submissions_are_read()
    ensures carbons { up_stanza carbons_item ≡ Carbons }
    ensures presence { up_stanza available_item ≡ Presence }
    ensures submission { (resource domain : List ℕ) (m : Submission) → IsOrigin resource m.epoch m.n → is_name m.to ≡ true → up_stanza (submitted resource domain m) ≡ Message m }
    ensures accepted { (a : EnvelopeView) → down_stanza (result_item a no_nodes) ≡ Accepted }
    ensures bounced { (from resource : List ℕ) (epoch n : ℕ) (e : StanzaError) → IsOrigin resource epoch n → down_stanza (bounce_item from (origin_of resource epoch n) e) ≡ Bounced epoch n }
{}

/// A law: a message that the server passes on, and each copy of one, is read by the number that it has in the archive of
/// the account that gets it.
pub fn deliveries_are_read()
    ensures passed { (by : List ℕ) (number : ℕ) (m : MessageView) → IsSubmitted m → IsEntryNumber number → down_stanza (passed_item by (Some number) m) ≡ Live number }
    ensures copied { (c : CopyView) (full : List ℕ) (number : ℕ) → IsSubmitted c.message → c.number ≡ Some number → IsEntryNumber number → down_stanza (copy_item c full) ≡ Live number }
{}

/// A law: a request for a page is read by its number, its place and how many entries it asks for.
pub fn requests_are_read()
    ensures { (r : Request) → IsRequest r → up_stanza (requested r) ≡ Query r }
{}

/// A law: what an archive answers to a request is read by the number of the request: each entry by its number; the end of a
/// page by whether it is complete, its last entry and how many entries match; and that its place isn't there.
pub fn answers_are_read()
    ensures entry { (a : AskerView) (e : EntryView) (q : ℕ) → a.queryid ≡ queryid_text q → q < 2 ^ 64 → IsEntryNumber e.number → down_stanza (entry_item a e) ≡ Res q e.number }
    ensures end { (a : EnvelopeView) (cut : CutView) (q : ℕ) → a.id ≡ queryid_text q → q < 2 ^ 64 → IsPage cut → down_stanza (fin_item a cut) ≡ Fin q cut.complete (last_in cut.numbers) cut.count }
    ensures not_found { (a : EnvelopeView) (q : ℕ) → a.id ≡ queryid_text q → q < 2 ^ 64 → down_stanza (iq_error_item a no_such_place) ≡ NotFound q }
{}
