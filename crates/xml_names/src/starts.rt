//! Start tags with their names expanded.
//!
//! Names are borrowed from a tag's bytes until they go into the tree, and an end tag's name is compared where it
//! stands. The names of up to eight attributes are compared in pairs, those of more are sorted. A prefix is looked up
//! in an ordered index, so that no choice of prefixes makes it slow; past 16 declarations in one tag through an
//! ordered map.
ghost use Rattle.std.specs.Prelude.{◌≡◌, [], ◌++◌, Ok, Err, Some, true, map, unwrap_or, IfOk, IfErr};
ghost use Rattle.std.specs.List.{list_any};
ghost use Rattle.std.specs.Option.{option_map, is_some};
ghost use Rattle.xml_names.specs.Faults.{IfRefused};
ghost use Rattle.xml_names.specs.Names.{has_colon, local_of, prefix_of, with_prefix};
ghost use Rattle.xml_names.specs.Scopes.{Scope, scope_of};
ghost use Rattle.xml_names.specs.Starts;
ghost use Rattle.xml_names.specs.Starts.{attributes_in, limited, parted_tag, start_of};
ghost use Rattle.xml_names.specs.TagView.{tag_view};
ghost use Rattle.xml_names.specs.declared.limits.TagLimits as declared_limits;
ghost use Rattle.xml_tokens.specs.RawTags.{attribute_of, raw_tag};
ghost use Rattle.xml_tokens.specs.Tags;
ghost use Rattle.xml_tokens.specs.Tags.{names_of, tag_of};

use crate::declarations::{PartedAttributes, all_may_declare, part};
use crate::expansion::{
    ExpandedAttribute, element_ns_copy, expanded_attributes, expanded_names, has_element_ns,
};
use crate::fault::{StartFault, StartWhy};
use crate::limits::TagLimits;
use crate::names::{is_prefixed, prefix_or_nothing, split_prefix};
use crate::open_scopes::Scopes;
use crate::pairs::{FEW_NAMES, have_names_in_pairs};
use crate::scopes::Binding;
use base_io::{NoMemory, Text};
use base_lemmas::are_distinct;
use std::alloc::Global;
use xml_tokens::{RawAttribute, RawTag, StartTag, TagFault, TagWhy, read_tag, spelled_value_len};

/// So many bytes of a namespace name are not looked at, where a limit leaves room for the longest spelling of each.
const UNMEASURED: usize = 42;

/// The most bytes in which these are spelled: `&apos;` has six.
const LONGEST_UNMEASURED: u32 = 252;

/// A start tag, or the tag of an empty element, with its names expanded (Namespaces in XML 1.0, section 2.1).
#[derive(Debug, Drop)]
pub struct Tag {
    /// The prefix of the element's name, where it has one: its end tag repeats it.
    pub prefix: Option<Text>,
    /// The element's namespace name; empty where it has none.
    pub ns: Text,
    /// The element's local name.
    pub name: Text,
    /// The attributes in the order in which they are given, declarations left out. No two have one expanded name.
    pub attributes: Vec<ExpandedAttribute>,
    /// The declarations in the order in which they are given.
    pub bindings: Vec<Binding>,
    /// Whether it is the tag of an empty element, which ends in `/>`.
    pub empty: bool,
}

// Whether a declaration's namespace name is past a limit. A byte is spelled with six at most: few are not looked at.
fn is_long(most: u32, binding: &Binding) -> bool
    ensures { result ≡ Starts.is_long most binding.now }
{
    let ns = binding.ns.as_str().as_bytes();
    if ns.len() <= UNMEASURED && most >= LONGEST_UNMEASURED {
        return false;
    }
    spelled_value_len(ns) > most as usize
}

// Whether some declaration's namespace name is past a limit.
fn has_long(most: u32, bindings: &[Binding]) -> bool
    ensures { result ≡ list_any (Starts.is_long most) bindings.now }
{
    for binding in bindings {
        if is_long(most, binding) {
            return true;
        }
    }
    false
}

// The limit that so many attributes and these declarations are past.
#[tactic(auto, unfolding(crate::specs::Starts::past_limits))]
fn past_limits(limits: TagLimits, count: usize, bindings: &[Binding]) -> Option<StartWhy>
    ensures { result ≡ Starts.past_limits limits count bindings.now }
{
    if count > limits.attributes as usize {
        return Some(StartWhy::TooManyAttributes);
    }
    if has_long(limits.namespace_bytes, bindings) {
        return Some(StartWhy::LongNamespace);
    }
    None
}

// Whether some attribute has a prefix.
fn has_prefixed(attributes: &[RawAttribute]) -> bool
    ensures { result ≡ list_any (λ a. has_colon a.name.now) attributes.now }
{
    for attribute in attributes {
        if is_prefixed(attribute.name) {
            return true;
        }
    }
    false
}

// Whether each attribute has an expanded name, and no two have the same. It is told whether some has a prefix: without one
// the spelled names are those. Few names are compared in pairs: memory is taken for many alone.
fn have_names(
    alloc: Global,
    own: &[Binding],
    stack: &Scopes,
    others: &[RawAttribute<'_>],
    prefixed: bool,
) -> Result<bool, NoMemory>
    requires distinct { Tags.are_distinct (names_of (map attribute_of others.now)) ≡ true }
    requires prefixed { prefixed ≡ list_any (λ a. has_colon a.name.now) others.now }
    ensures { IfOk result (λ b. b ≡ is_some (attributes_in (own.now ++ scope_of stack.now) (map attribute_of others.now))) }
{
    if !prefixed {
        return Ok(true);
    }
    if others.len() <= FEW_NAMES {
        return Ok(have_names_in_pairs(own, stack, others));
    }
    match expanded_names(alloc, own, stack, others)? {
        Some(mut names) => Ok(are_distinct(names.as_mut_slice())),
        None => Ok(false),
    }
}

// Whether declarations and other attributes say a tag, behind a name with this prefix.
fn is_well_formed(
    alloc: Global,
    stack: &Scopes,
    prefix: &str,
    parted: &PartedAttributes<'_>,
    prefixed: bool,
) -> Result<bool, NoMemory>
    requires distinct { Tags.are_distinct (names_of (map attribute_of parted.now.others.items)) ≡ true }
    requires prefixed { prefixed ≡ list_any (λ a. has_colon a.name.now) parted.now.others.items }
    ensures { IfOk result (λ b. b ≡ Starts.is_well_formed (scope_of stack.now) prefix.now parted.now.bindings.items (map attribute_of parted.now.others.items)) }
{
    let own = parted.bindings.as_slice();
    if !all_may_declare(own) || !has_element_ns(own, stack, prefix) {
        return Ok(false);
    }
    have_names(alloc, own, stack, parted.others.as_slice(), prefixed)
}

// A copy of a text, if there is one.
fn copied(alloc: Global, text: Option<&str>) -> Result<Option<Text>, NoMemory>
    ensures { IfOk result (λ o. o ≡ option_map (λ s. s.now) text.entry) }
{
    match text {
        Some(text) => Ok(Some(Text::from_str(alloc, text)?)),
        None => Ok(None),
    }
}

// The tag, its memory taken, behind a name with this prefix and this local part.
fn finished(
    alloc: Global,
    stack: &Scopes,
    prefix: Option<&str>,
    local: &str,
    parted: PartedAttributes<'_>,
    prefixed: bool,
    empty: bool,
) -> Result<Option<Tag>, NoMemory>
    requires prefix { unwrap_or (option_map (λ p. p.now) prefix) [] ≡ prefix_of (with_prefix (option_map (λ p. p.now) prefix) local.now) }
    requires local { local.now ≡ local_of (with_prefix (option_map (λ p. p.now) prefix) local.now) }
    requires formed { Starts.is_well_formed (scope_of stack.now) (unwrap_or (option_map (λ p. p.now) prefix) []) parted.bindings.items (map attribute_of parted.others.items) ≡ true }
    requires prefixed { prefixed ≡ list_any (λ a. has_colon a.name.now) parted.others.items }
    ensures { IfOk result (λ o. option_map tag_view o
        ≡ parted_tag (scope_of stack.now) (with_prefix (option_map (λ p. p.now) prefix.entry) local.now) parted.entry.bindings.items (map attribute_of parted.entry.others.items) empty) }
{
    let PartedAttributes { bindings, others } = parted;
    let found = element_ns_copy(alloc, bindings.as_slice(), stack, prefix_or_nothing(prefix))?;
    let Some(ns) = found else {
        return Ok(None);
    };
    let name = Text::from_str(alloc, local)?;
    let prefix = copied(alloc, prefix)?;
    match expanded_attributes(alloc, bindings.as_slice(), stack, others, prefixed)? {
        Some(attributes) => Ok(Some(Tag {
            prefix,
            ns,
            name,
            attributes,
            bindings,
            empty,
        })),
        None => Ok(None),
    }
}

// The tag within limits. Nothing that a namespace name is copied for comes before them.
fn expand(
    alloc: Global,
    limits: TagLimits,
    stack: &Scopes,
    count: usize,
    spelled: &str,
    parted: PartedAttributes<'_>,
    empty: bool,
) -> Result<Tag, StartFault>
    requires { Tags.are_distinct (names_of (map attribute_of parted.others.items)) ≡ true }
    ensures ok { IfOk result (λ t. limited limits count parted.entry.bindings.items
        (parted_tag (scope_of stack.now) spelled.now parted.entry.bindings.items (map attribute_of parted.entry.others.items) empty) ≡ Ok (tag_view t)) }
    ensures refused { IfErr result (λ e. IfRefused e (λ why. limited limits count parted.entry.bindings.items
        (parted_tag (scope_of stack.now) spelled.now parted.entry.bindings.items (map attribute_of parted.entry.others.items) empty) ≡ Err why)) }
{
    let (prefix, local) = split_prefix(spelled);
    let prefixed = has_prefixed(parted.others.as_slice());
    if !is_well_formed(alloc, stack, prefix_or_nothing(prefix), &parted, prefixed)? {
        return Err(StartFault::Refused(StartWhy::NotWellFormed));
    }
    if let Some(why) = past_limits(limits, count, parted.bindings.as_slice()) {
        return Err(StartFault::Refused(why));
    }
    match finished(alloc, stack, prefix, local, parted, prefixed, empty)? {
        Some(tag) => Ok(tag),
        None => Err(StartFault::Refused(StartWhy::NotWellFormed)),
    }
}

// What a start tag says, as it is spelled.
fn expand_spelled(
    alloc: Global,
    limits: TagLimits,
    stack: &Scopes,
    tag: StartTag<'_>,
) -> Result<Tag, StartFault>
    requires { Tags.are_distinct (names_of (map attribute_of tag.attributes.items)) ≡ true }
    ensures ok { IfOk result (λ t. Starts.start_from limits (scope_of stack.now) (raw_tag (RawTag.Start tag.entry)) ≡ Ok (tag_view t)) }
    ensures refused { IfErr result (λ e. IfRefused e (λ why. Starts.start_from limits (scope_of stack.now) (raw_tag (RawTag.Start tag.entry)) ≡ Err why)) }
{
    let StartTag {
        name,
        attributes,
        empty,
    } = tag;
    let count = attributes.len();
    match part(alloc, attributes) {
        Ok(parted) => expand(alloc, limits, stack, count, name, parted, empty),
        Err(NoMemory) => Err(StartFault::NoMemory),
    }
}

// A start tag as it is spelled.
#[tactic(auto, unfolding(crate::specs::Starts::start_of))]
fn read_spelled<'a>(alloc: Global, bytes: &'a [u8]) -> Result<StartTag<'a>, StartFault>
    ensures ok { IfOk result (λ t. tag_of bytes.now ≡ Ok (raw_tag (RawTag.Start t))) }
    ensures refused { IfErr result (λ e. IfRefused e (λ why. (limits : declared_limits.TagLimits) (scope : Scope) → start_of limits scope bytes.now ≡ Err why)) }
{
    match read_tag(alloc, bytes) {
        Ok(RawTag::Start(tag)) => Ok(tag),
        Ok(RawTag::End(_)) => Err(StartFault::Refused(StartWhy::NotWellFormed)),
        Err(TagFault::Refused(TagWhy::Restricted)) => {
            Err(StartFault::Refused(StartWhy::Restricted))
        }
        Err(TagFault::Refused(TagWhy::NotWellFormed)) => {
            Err(StartFault::Refused(StartWhy::NotWellFormed))
        }
        Err(TagFault::NoMemory) => Err(StartFault::NoMemory),
    }
}

/// Reads a start tag, or the tag of an empty element, off its whole bytes, from its `<` to its `>` (XML 1.0, section
/// 3.1; Namespaces in XML 1.0). `scope` has the declarations of the elements that it stands in; its own come before
/// them.
///
/// Of the refusals the first that fits is told. `Restricted` comes exactly where a reference inside quotes has an
/// unknown name. `NotWellFormed` comes exactly where the bytes are no start tag, a declaration may not be made, a
/// prefix is undeclared, the element has the prefix `xmlns`, or two attributes have one expanded name.
/// `TooManyAttributes` comes exactly where it has more attributes than `limits.attributes`, declarations counted, and
/// `LongNamespace` exactly where a declared namespace name, escaped as a written value, has more bytes than
/// `limits.namespace_bytes`. A refusal leaves nothing behind.
#[tactic(auto, unfolding(crate::specs::Starts::start_of))]
pub fn read_start(
    alloc: Global,
    limits: TagLimits,
    scope: &Scopes,
    bytes: &[u8],
) -> Result<Tag, StartFault>
    ensures ok { IfOk result (λ t. start_of limits (scope_of scope.now) bytes.now ≡ Ok (tag_view t)) }
    ensures refused { IfErr result (λ e. IfRefused e (λ why. start_of limits (scope_of scope.now) bytes.now ≡ Err why)) }
{
    match read_spelled(alloc, bytes) {
        Ok(tag) => expand_spelled(alloc, limits, scope, tag),
        Err(fault) => Err(fault),
    }
}
