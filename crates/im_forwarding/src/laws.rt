//! What is promised of all that is passed on.
ghost use Rattle.std.specs.Prelude.{◌≡◌, ℕ, List, Ok, Option, filter};
ghost use Rattle.mam_archive.specs.Entries.{EntryView};
ghost use Rattle.im_extensions.specs.Given.{is_given_by, is_read_as_given_by};
ghost use Rattle.im_forwarding.specs.Copies.{CopyView, copy_elem};
ghost use Rattle.im_forwarding.specs.Passed.{id_node, passed_elem, passed_nodes};
ghost use Rattle.im_forwarding.specs.Results.{AskerView, archived_message, entry_elem};
ghost use Rattle.im_jid.specs.Normal.{normal};
ghost use Rattle.im_messages.specs.Entries.{entry_of};
ghost use Rattle.im_stanza.specs.Views.{MessageView};
ghost use Rattle.xml_trees.specs.Readers.{elements_of};
ghost use Rattle.xml_trees.specs.Trees.{AreTidy, IsTree, Nodes};

/// A law: what is passed on of a message whose payload keeps the rule of a tree, as that of one that was read does, is a
/// tree, in the form in which a reader sees it; so is a copy of it, and each result of an archive.
pub fn what_is_passed_on_is_a_tree()
    ensures passed { (by : List ℕ) (number : Option ℕ) (m : MessageView) → AreTidy m.payload → IsTree (passed_elem by number m) }
    ensures copy { (c : CopyView) (full : List ℕ) → AreTidy c.message.payload → IsTree (copy_elem c full) }
    ensures result { (a : AskerView) (e : EntryView) → IsTree (entry_elem a e) }
{}

/// A law: of the elements that an account's sessions are passed, those that a client may take for ids that the account gave
/// are the one of its archive, and none where the archive hasn't the message (XEP-0359, section 5). `taken`: whatever
/// `spells_account` takes for the account's address. `read`: whatever reads as that address, by the profile of RFC 7622
/// that addresses are read by here, whose local part is ASCII. The account's bare address is in normal form, as each
/// account's is.
pub fn only_the_archive_gives_ids()
    ensures taken { (by : List ℕ) (number : Option ℕ) (payload : Nodes) → normal by ≡ Ok by → filter (is_given_by by) (elements_of (passed_nodes by number payload)) ≡ elements_of (id_node by number) }
    ensures read { (by : List ℕ) (number : Option ℕ) (payload : Nodes) → normal by ≡ Ok by → filter (is_read_as_given_by by) (elements_of (passed_nodes by number payload)) ≡ elements_of (id_node by number) }
{}

/// A law: what is kept of the message that a result has, under the number and the moment of its entry, is the entry. So a
/// log has of an archive what the archive has (XEP-0313, section 4.2).
pub fn results_are_their_entries()
    ensures { (e : EntryView) → entry_of e.number e.stamp (archived_message e) ≡ e }
{}
