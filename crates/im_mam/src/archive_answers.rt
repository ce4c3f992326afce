//! What an archive answers (XEP-0313).
ghost use Rattle.std.specs.Prelude.{◌≡◌, None, Some, true, IfErr, IfOk, OnErr, OnOk};
ghost use Rattle.std.specs.Option.{option_copied};
ghost use Rattle.im_mam.specs.ArchiveAnswers.{IsFin, IsMamResult, WritesMamResult, fin_checks, fin_elem, fin_elem_with, fin_elem_without_index, first_item, first_item_where, index_in, is_fin, is_result, number_or_zero, page_elem, result_checks};
ghost use Rattle.im_payload.specs.Checks.{IsFirstWrong};
ghost use Rattle.im_payload.specs.Faults.{IsFault};
ghost use Rattle.xml_trees.specs.Trees.{with_nodes};
ghost use Rattle.xml_trees.specs.Views.{elem_view};
ghost use Rattle.im_stanza.specs.Errors.{trees_where};
ghost use Rattle.im_mam.specs.Readings.{fin_read, result_read};
ghost use Rattle.im_payload.specs.Readings.{Reads};

use crate::result_sets::{push_item, set_child, set_element, set_text, text_where};
use base_io::{NoMemory, Text};
use im_extensions::{Forwarded, forwarded_element, forwarded_inside, forwarded_moved};
use im_payload::{
    ARCHIVE, ExtFault, Field, RESULT_SETS, attr_text, flag, optional_u64, push_flag, push_number,
    push_text_child, push_unless_empty, push_value, text_element,
};
use mam_pages::Fin;
use std::alloc::Global;
use xml_trees::{Element, Tree};

// The number that a text spells, and 0 where it is absent. `Bad(Count)` where it spells none below 2^64.
fn number_or_zero(text: Option<&str>) -> Result<u64, ExtFault>
    ensures ok { IfOk result (λ n. number_or_zero (option_copied text.entry) ≡ Some n) }
    ensures err { IfErr result (λ fault. (fault ≡ ExtFault.Bad Field.Count) × (number_or_zero (option_copied text.entry) ≡ None)) }
{
    match optional_u64(text, Field::Count) {
        Ok(Some(number)) => Ok(number),
        Ok(None) => Ok(0),
        Err(fault) => Err(fault),
    }
}

// Where the page begins, as it is spelled.
fn index_in(element: &Element) -> Option<&str>
    ensures { option_copied result ≡ index_in (elem_view element.now) }
{
    match set_child(element, "first") {
        None => None,
        Some(first) => first.attr("", "index"),
    }
}

// The item `first`, with the place of what it names, where that is given.
fn first_element(alloc: Global, id: &str, index: Option<u64>) -> Result<Element, NoMemory>
    ensures { IfOk result (λ e. elem_view e ≡ first_item index id.now) }
{
    let id = Text::from_str(alloc, id)?;
    let mut item = text_element(alloc, RESULT_SETS, "first", id)?;
    if let Some(index) = index {
        push_number(alloc, &mut item, "index", index)?;
    }
    Ok(item)
}

// Adds the item `first` where there is one.
#[tactic(auto, using(im_payload::proofs::WhereLemmas::nothing_added, im_payload::proofs::WhereLemmas::one_added))]
fn push_first(
    alloc: Global,
    set: &mut Element,
    first: Option<&str>,
    index: Option<u64>,
) -> Result<(), NoMemory>
    ensures ok { OnOk result (elem_view set.new ≡ with_nodes (elem_view set.old) (trees_where (first_item_where (option_copied first.entry) index))) }
    ensures err { OnErr result (elem_view set.new ≡ elem_view set.old) }
{
    let Some(id) = first else {
        return Ok(());
    };
    set.push_child(first_element(alloc, id, index)?)?;
    Ok(())
}

// The set of a page's end, with the place of its first item, where that is given.
fn page_element(alloc: Global, fin: &Fin, index: Option<u64>) -> Result<Element, NoMemory>
    ensures { IfOk result (λ e. elem_view e ≡ page_elem index fin.now) }
{
    let mut set = set_element(alloc)?;
    push_first(alloc, &mut set, text_where(&fin.first), index)?;
    push_item(alloc, &mut set, "last", text_where(&fin.last))?;
    let count = fin.count.to_string(alloc)?;
    push_text_child(alloc, &mut set, RESULT_SETS, "count", &count)?;
    Ok(set)
}

/// Reads a `fin` of an archive. An absent `complete` is false, and the set may be absent. `NotThis` where the tree is
/// another element, `Bad(Count)` where the place of the first item or the count is there and is no number below 2^64;
/// where it is absent it is 0.
pub fn read_fin(alloc: Global, tree: &Tree) -> Result<Fin, ExtFault>
    ensures ok { IfOk result (λ fin. IsFin tree.now fin) }
    ensures err { IfErr result (IsFault (is_fin tree.now) (IsFirstWrong (fin_checks tree.now))) }
    ensures reading { Reads result (fin_read tree.now) }
{
    read_fin_element(alloc, tree.element())
}

/// The same of an element, which need not keep the rule of a tree.
pub fn read_fin_element(alloc: Global, element: &Element) -> Result<Fin, ExtFault>
    ensures ok { IfOk result (λ fin. IsFin (elem_view element.now) fin) }
    ensures err { IfErr result (IsFault (is_fin (elem_view element.now)) (IsFirstWrong (fin_checks (elem_view element.now)))) }
    ensures reading { Reads result (fin_read (elem_view element.now)) }
{
    if !element.is(ARCHIVE, "fin") {
        return Err(ExtFault::NotThis);
    }
    let first_index = number_or_zero(index_in(element))?;
    let count = set_text(alloc, element, "count")?;
    let count = number_or_zero(text_where(&count))?;
    Ok(Fin {
        complete: flag(element.attr("", "complete")),
        first: set_text(alloc, element, "first")?,
        first_index,
        last: set_text(alloc, element, "last")?,
        count,
    })
}

// The end of a page as a tree, with the place of its first item, where that is given.
#[tactic(auto, using(crate::proofs::FinLaws::fin_with_stays))]
fn fin_tree_with(alloc: Global, fin: &Fin, index: Option<u64>) -> Result<Tree, NoMemory>
    ensures { IfOk result (λ tree. tree ≡ fin_elem_with index fin.now) }
{
    let set = page_element(alloc, fin, index)?;
    let mut element = Element::from_strs(alloc, ARCHIVE, "fin")?;
    push_flag(alloc, &mut element, "complete", fin.complete)?;
    element.push_child(set)?;
    Tree::of(alloc, element)
}

/// The end of a page as a tree. `complete` is left out where it is false, and the place of the first item where there is no
/// first item, so that the set of an empty page has its count alone.
pub fn fin_tree(alloc: Global, fin: &Fin) -> Result<Tree, NoMemory>
    ensures { IfOk result (λ tree. tree ≡ fin_elem fin.now) }
{
    fin_tree_with(alloc, fin, Some(fin.first_index))
}

/// The same without the place of the first item (XEP-0059, section 2.6: it need not be told).
pub fn fin_tree_without_index(alloc: Global, fin: &Fin) -> Result<Tree, NoMemory>
    ensures { IfOk result (λ tree. tree ≡ fin_elem_without_index fin.now) }
{
    fin_tree_with(alloc, fin, None)
}

/// An archived message: the id of the query that it answers, which is empty where there is none, its id in the archive, and
/// the message (XEP-0313, section 4.2).
#[derive(Drop)]
pub struct MamResult {
    pub queryid: Text,
    pub id: Text,
    pub forwarded: Forwarded,
}

// An archived message as an element.
fn result_element(alloc: Global, v: &MamResult) -> Result<Element, NoMemory>
    ensures { IfOk result (λ e. WritesMamResult v.now (elem_view e)) }
{
    let forwarded = forwarded_element(alloc, &v.forwarded)?;
    let mut element = Element::from_strs(alloc, ARCHIVE, "result")?;
    push_value(alloc, &mut element, "id", v.id.as_str())?;
    push_unless_empty(alloc, &mut element, "queryid", v.queryid.as_str())?;
    element.push_child(forwarded)?;
    Ok(element)
}

// The same with the message moved.
fn result_moved(alloc: Global, v: MamResult) -> Result<Element, NoMemory>
    ensures { IfOk result (λ e. WritesMamResult v (elem_view e)) }
{
    let mut element = Element::from_strs(alloc, ARCHIVE, "result")?;
    push_value(alloc, &mut element, "id", v.id.as_str())?;
    push_unless_empty(alloc, &mut element, "queryid", v.queryid.as_str())?;
    let forwarded = forwarded_moved(alloc, v.forwarded)?;
    element.push_child(forwarded)?;
    Ok(element)
}

impl MamResult {
    /// Reads a `result` of an archive: its attributes `queryid`, which is empty where it is absent, and `id`, and what is
    /// forwarded in its first `forwarded`, an absent one being as an empty one. `NotThis` where the tree is another element.
    /// Else `Bad` of the first of these that is wrong: `Id` where `id` is absent, `Stamp` where there is no delay or it has no
    /// stamp from 1970 on, and `Stanza` where there is no message or `read_stanza` refuses it.
    pub fn read(alloc: Global, tree: &Tree) -> Result<MamResult, ExtFault>
        ensures ok { IfOk result (λ v. IsMamResult tree.now v) }
        ensures err { IfErr result (IsFault (is_result tree.now) (IsFirstWrong (result_checks tree.now))) }
        ensures reading { Reads result (result_read tree.now) }
    {
        MamResult::read_element(alloc, tree.element())
    }

    /// The same of an element, which need not keep the rule of a tree.
    pub fn read_element(alloc: Global, element: &Element) -> Result<MamResult, ExtFault>
        ensures ok { IfOk result (λ v. IsMamResult (elem_view element.now) v) }
        ensures err { IfErr result (IsFault (is_result (elem_view element.now)) (IsFirstWrong (result_checks (elem_view element.now)))) }
        ensures reading { Reads result (result_read (elem_view element.now)) }
    {
        if !element.is(ARCHIVE, "result") {
            return Err(ExtFault::NotThis);
        }
        let Some(id) = element.attr("", "id") else {
            return Err(ExtFault::Bad(Field::Id));
        };
        let forwarded = match forwarded_inside(alloc, element, None) {
            Ok(forwarded) => forwarded,
            Err(fault) => return Err(fault),
        };
        Ok(MamResult {
            queryid: attr_text(alloc, element, "queryid")?,
            id: Text::from_str(alloc, id)?,
            forwarded,
        })
    }

    /// The element as a tree. `queryid` is left out where it is empty. A moment past `LAST_MOMENT` is written as that.
    #[tactic(auto, using(crate::proofs::ResultLaws::result_tree))]
    pub fn tree(&self, alloc: Global) -> Result<Tree, NoMemory>
        ensures { IfOk result (λ tree. WritesMamResult self.now tree) }
    {
        let element = result_element(alloc, self)?;
        Tree::of(alloc, element)
    }

    /// The same with the message moved.
    #[tactic(auto, using(crate::proofs::ResultLaws::result_tree))]
    pub fn into_tree(self, alloc: Global) -> Result<Tree, NoMemory>
        ensures { IfOk result (λ tree. WritesMamResult self tree) }
    {
        let element = result_moved(alloc, self)?;
        Tree::of(alloc, element)
    }
}
