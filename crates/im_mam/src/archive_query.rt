//! What an archive is asked for (XEP-0313, XEP-0004, XEP-0059).
//!
//! The address of a query is kept as the text of its normal form.
ghost use Rattle.std.specs.Prelude.{◌≡◌, None, Some, true, codes, IfErr, IfOk, OnErr, OnOk};
ghost use Rattle.std.specs.List.{list_all};
ghost use Rattle.std.specs.Fmt.{decimal};
ghost use Rattle.std.specs.Option.{option_copied, option_map};
ghost use Rattle.im_mam.specs.ArchiveQuery.{IsFiltered, IsLimited, IsMamQuery, IsStampWhere, WritesForm, WritesMamQuery, form_checks, has_known_fields, is_for_archive, is_known, is_query, limit_elem, max_in, optional_address, optional_moment, place_item, position_in, position_of, query_checks, set_checks};
ghost use Rattle.im_payload.specs.Checks.{IsFirstWrong};
ghost use Rattle.im_mam.specs.DataForms.{field_value, form_of};
ghost use Rattle.im_payload.specs.Faults.{IsFault};
ghost use Rattle.xml_trees.specs.Readers.{elements_of};
ghost use Rattle.im_mam.specs.ResultSets.{set_item_where};
ghost use Rattle.xml_trees.specs.Trees.{with_nodes};
ghost use Rattle.xml_trees.specs.Views.{elem_view, nodes_view};
ghost use Rattle.im_stanza.specs.Errors.{trees_where};
ghost use Rattle.im_stanza.specs.Written.{IsNormal};
ghost use Rattle.im_mam.specs.Readings.{mam_query_read};
ghost use Rattle.im_payload.specs.Readings.{Reads};

use crate::data_forms::{
    field_value, form_of, form_type_element, has_var, is_field, push_field, value_in,
};
use crate::result_sets::{set_child, set_element, set_text, text_where};
use base_io::{NoMemory, Text};
use im_jid::{Jid, JidFault};
use im_payload::{
    ARCHIVE, DATA_FORMS, ExtFault, Field, RESULT_SETS, attr_text, moment_in, moment_text,
    optional_u32, push_text_child, push_unless_empty, push_value,
};
use mam_pages::{PagePosition, PageQuery};
use std::alloc::Global;
use xml_trees::{Element, Node, Tree};

/// What an archive is asked for, and the id by which the answers name the query, which is empty where there is none
/// (XEP-0313, sections 4.1 and 4.3). The address of the query is in normal form.
#[derive(Drop)]
pub struct MamQuery {
    pub queryid: Text,
    pub query: PageQuery,
}

// Whose messages are asked for, and from when to when.
#[derive(Drop)]
struct Filters {
    peer: Option<Text>,
    start: Option<u64>,
    end: Option<u64>,
}

// Whether the form, where there is one, is for the archive.
fn is_for_archive(alloc: Global, element: &Element) -> Result<bool, NoMemory>
    ensures { IfOk result (λ answer. answer ≡ is_for_archive (form_of (elem_view element.now))) }
{
    let Some(form) = form_of(element) else {
        return Ok(true);
    };
    match value_in(alloc, form, "FORM_TYPE")? {
        None => Ok(false),
        Some(purpose) => Ok(purpose.as_str() == ARCHIVE),
    }
}

// Whether an element is no field, or one of the four.
fn is_known(element: &Element) -> bool
    ensures { result ≡ is_known (elem_view element.now) }
{
    !is_field(element)
        || has_var(element, "FORM_TYPE")
        || has_var(element, "with")
        || has_var(element, "start")
        || has_var(element, "end")
}

// Whether all fields among nodes are known.
fn are_known(nodes: &[Node]) -> bool
    ensures { result ≡ list_all is_known (elements_of (nodes_view nodes.now)) }
{
    for node in nodes {
        if let Node::Child(element) = node
            && !is_known(element)
        {
            return false;
        }
    }
    true
}

// Whether the form, where there is one, has no other field.
fn has_known_fields(element: &Element) -> bool
    ensures { result ≡ has_known_fields (form_of (elem_view element.now)) }
{
    match form_of(element) {
        None => true,
        Some(form) => are_known(&form.children),
    }
}

// The address in the field `with`. `Bad(Peer)` where the field is there and has none.
fn peer_in(alloc: Global, element: &Element) -> Result<Option<Text>, ExtFault>
    ensures ok { IfOk result (λ peer. optional_address (field_value (codes "with") (elem_view element.now)) ≡ Some peer) }
    ensures stays { IfOk result (λ peer. IsNormal peer) }
    ensures err { IfErr result (IsFault true (λ f. (f ≡ Field.Peer) × (optional_address (field_value (codes "with") (elem_view element.now)) ≡ None))) }
{
    let Some(text) = field_value(alloc, element, "with")? else {
        return Ok(None);
    };
    match Jid::parse(alloc, text.as_str()) {
        Ok(jid) => Ok(Some(Text::from_str(alloc, jid.text())?)),
        Err(JidFault::NoMemory) => Err(ExtFault::NoMemory),
        Err(_) => Err(ExtFault::Bad(Field::Peer)),
    }
}

// The moment in a field of the form. `Bad` of the payload's field where it is there and has none.
fn moment_of_field(
    alloc: Global,
    element: &Element,
    name: &str,
    field: Field,
) -> Result<Option<u64>, ExtFault>
    ensures ok { IfOk result (λ ms. optional_moment (field_value name.now (elem_view element.now)) ≡ Some ms) }
    ensures err { IfErr result (IsFault true (λ f. (f ≡ field) × (optional_moment (field_value name.now (elem_view element.now)) ≡ None))) }
{
    let Some(text) = field_value(alloc, element, name)? else {
        return Ok(None);
    };
    match moment_in(Some(text.as_str())) {
        Some(ms) => Ok(Some(ms)),
        None => Err(ExtFault::Bad(field)),
    }
}

// What the form asks for. `Bad` of its first field that is wrong, in the order `FormType`, `UnknownField`, `Peer`, `Start`,
// `End`.
fn filters_in(alloc: Global, element: &Element) -> Result<Filters, ExtFault>
    ensures ok { IfOk result (λ v. IsFiltered (elem_view element.now) v.peer v.start v.end) }
    ensures err { IfErr result (IsFault true (IsFirstWrong (form_checks (elem_view element.now)))) }
{
    if !is_for_archive(alloc, element)? {
        return Err(ExtFault::Bad(Field::FormType));
    }
    if !has_known_fields(element) {
        return Err(ExtFault::Bad(Field::UnknownField));
    }
    Ok(Filters {
        peer: peer_in(alloc, element)?,
        start: moment_of_field(alloc, element, "start", Field::Start)?,
        end: moment_of_field(alloc, element, "end", Field::End)?,
    })
}

// The place by the texts of `after` and `before`. `None` where both are there.
fn position_of(after: Option<Text>, before: Option<Text>) -> Option<PagePosition>
    ensures { result ≡ position_of after before }
{
    match (after, before) {
        (None, None) => Some(PagePosition::First),
        (Some(id), None) => Some(PagePosition::After(id)),
        (None, Some(id)) => Some(before_position(id)),
        (Some(_), Some(_)) => None,
    }
}

// The place before an id, which is the end where the id is empty.
fn before_position(id: Text) -> PagePosition
    ensures { Some result ≡ position_of None (Some id) }
{
    if id.as_str().is_empty() {
        PagePosition::Last
    } else {
        PagePosition::Before(id)
    }
}

// The place and the greatest number of items that the set asks for. `Bad` of its first field that is wrong, in the order
// `PagePosition`, `Max`, `UnknownField`.
fn limits_in(alloc: Global, element: &Element) -> Result<(PagePosition, Option<u32>), ExtFault>
    ensures ok { IfOk result (λ v. IsLimited (elem_view element.now) v.0 v.1) }
    ensures err { IfErr result (IsFault true (IsFirstWrong (set_checks (elem_view element.now)))) }
{
    let after = set_text(alloc, element, "after")?;
    let before = set_text(alloc, element, "before")?;
    let Some(position) = position_of(after, before) else {
        return Err(ExtFault::Bad(Field::PagePosition));
    };
    let max = set_text(alloc, element, "max")?;
    let max = optional_u32(text_where(&max), Field::Max)?;
    if set_child(element, "index").is_some() {
        return Err(ExtFault::Bad(Field::UnknownField));
    }
    Ok((position, max))
}

// The query that an element stands for, field by field.
fn query_in(alloc: Global, element: &Element) -> Result<MamQuery, ExtFault>
    ensures ok { IfOk result (λ v. IsMamQuery (elem_view element.now) v) }
    ensures err { IfErr result (IsFault (is_query (elem_view element.now)) (IsFirstWrong (query_checks (elem_view element.now)))) }
{
    if !element.is(ARCHIVE, "query") {
        return Err(ExtFault::NotThis);
    }
    let filters = match filters_in(alloc, element) {
        Ok(filters) => filters,
        Err(fault) => return Err(fault),
    };
    let (position, max) = limits_in(alloc, element)?;
    let query = PageQuery {
        peer: filters.peer,
        start: filters.start,
        end: filters.end,
        position,
        max,
    };
    Ok(MamQuery {
        queryid: attr_text(alloc, element, "queryid")?,
        query,
    })
}

// The stamp of a moment, where there is one.
fn stamp_where(alloc: Global, moment: Option<u64>) -> Result<Option<Text>, NoMemory>
    ensures { IfOk result (λ text. IsStampWhere moment text) }
{
    match moment {
        None => Ok(None),
        Some(ms) => Ok(Some(moment_text(alloc, ms)?)),
    }
}

// The form of a query.
fn form_element(alloc: Global, query: &PageQuery) -> Result<Element, NoMemory>
    ensures { IfOk result (λ e. WritesForm query.now (elem_view e)) }
{
    let start = stamp_where(alloc, query.start)?;
    let end = stamp_where(alloc, query.end)?;
    let purpose = form_type_element(alloc, ARCHIVE)?;
    let mut form = Element::from_strs(alloc, DATA_FORMS, "x")?;
    push_value(alloc, &mut form, "type", "submit")?;
    form.push_child(purpose)?;
    push_field(alloc, &mut form, "with", text_where(&query.peer))?;
    push_field(alloc, &mut form, "start", text_where(&start))?;
    push_field(alloc, &mut form, "end", text_where(&end))?;
    Ok(form)
}

// Adds the place of a page to a set.
#[tactic(auto, using(im_payload::proofs::WhereLemmas::nothing_added, im_payload::proofs::WhereLemmas::one_added))]
fn push_position(alloc: Global, set: &mut Element, position: &PagePosition) -> Result<(), NoMemory>
    ensures ok { OnOk result (elem_view set.new ≡ with_nodes (elem_view set.old) (trees_where (place_item position.now))) }
    ensures err { OnErr result (elem_view set.new ≡ elem_view set.old) }
{
    match position {
        PagePosition::First => Ok(()),
        PagePosition::After(id) => push_text_child(alloc, set, RESULT_SETS, "after", id.as_str()),
        PagePosition::Before(id) => push_text_child(alloc, set, RESULT_SETS, "before", id.as_str()),
        PagePosition::Last => push_text_child(alloc, set, RESULT_SETS, "before", ""),
    }
}

// Adds the greatest number of items to a set, where there is one.
#[tactic(auto, using(im_payload::proofs::WhereLemmas::nothing_added, im_payload::proofs::WhereLemmas::one_added))]
fn push_max(alloc: Global, set: &mut Element, max: Option<u32>) -> Result<(), NoMemory>
    ensures ok { OnOk result (elem_view set.new ≡ with_nodes (elem_view set.old) (trees_where (set_item_where (codes "max") (option_map decimal max)))) }
    ensures err { OnErr result (elem_view set.new ≡ elem_view set.old) }
{
    let Some(number) = max else {
        return Ok(());
    };
    let digits = number.to_string(alloc)?;
    push_text_child(alloc, set, RESULT_SETS, "max", &digits)
}

// The set of a query.
fn limit_element(alloc: Global, query: &PageQuery) -> Result<Element, NoMemory>
    ensures { IfOk result (λ e. elem_view e ≡ limit_elem query.now.position query.now.max) }
{
    let mut set = set_element(alloc)?;
    push_position(alloc, &mut set, &query.position)?;
    push_max(alloc, &mut set, query.max)?;
    Ok(set)
}

// The whole query.
fn query_element(alloc: Global, v: &MamQuery) -> Result<Element, NoMemory>
    ensures { IfOk result (λ e. WritesMamQuery v.now (elem_view e)) }
{
    let form = form_element(alloc, &v.query)?;
    let set = limit_element(alloc, &v.query)?;
    let mut query = Element::from_strs(alloc, ARCHIVE, "query")?;
    push_unless_empty(alloc, &mut query, "queryid", v.queryid.as_str())?;
    query.push_child(form)?;
    query.push_child(set)?;
    Ok(query)
}

impl MamQuery {
    /// Reads a `query` of an archive. An absent `queryid` is empty. The form may be absent, and so may each of `with`, `start`
    /// and `end` in it: a field without a value counts as the empty text, one without `var` as another field, and of several of
    /// one name the first. The set may be absent, and so may its `max`; `<after/>` is the empty id, an empty `before` the place
    /// `Last`, and without both the place is `First`.
    ///
    /// `NotThis` where the tree is another element. Else `Bad` of the first of these that is wrong: `FormType` where a
    /// form's `FORM_TYPE` is not the archive's namespace, `UnknownField` where the form has another field, `Peer` where
    /// `with` is no address, `Start` and `End` where these have no stamp from 1970 on, `PagePosition` where the set has
    /// both `after` and `before`, `Max` where it is no number below 2^32, and `UnknownField` where the set has an
    /// `index`.
    pub fn read(alloc: Global, tree: &Tree) -> Result<MamQuery, ExtFault>
        ensures ok { IfOk result (λ v. IsMamQuery tree.now v) }
        ensures err { IfErr result (IsFault (is_query tree.now) (IsFirstWrong (query_checks tree.now))) }
        ensures reading { Reads result (mam_query_read tree.now) }
    {
        MamQuery::read_element(alloc, tree.element())
    }

    /// The same of an element, which need not keep the rule of a tree.
    pub fn read_element(alloc: Global, element: &Element) -> Result<MamQuery, ExtFault>
        ensures ok { IfOk result (λ v. IsMamQuery (elem_view element.now) v) }
        ensures err { IfErr result (IsFault (is_query (elem_view element.now)) (IsFirstWrong (query_checks (elem_view element.now)))) }
        ensures reading { Reads result (mam_query_read (elem_view element.now)) }
    {
        query_in(alloc, element)
    }

    /// The element as a tree, with a form and a set. `queryid` is left out where it is empty, in the form the fields that
    /// are none, and in the set the place `First` and a `max` that is none. A moment past `LAST_MOMENT` is written as that.
    #[tactic(auto, using(crate::proofs::ArchiveQueryLaws::query_tree))]
    pub fn tree(&self, alloc: Global) -> Result<Tree, NoMemory>
        ensures { IfOk result (λ tree. WritesMamQuery self.now tree) }
    {
        let element = query_element(alloc, self)?;
        Tree::of(alloc, element)
    }
}
