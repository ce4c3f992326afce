//! Stream management (XEP-0198).
ghost use Rattle.std.specs.Prelude.{◌≡◌, Err, IfErr, IfOk, Ok, codes, if◌then◌else◌};
ghost use Rattle.std.specs.Option.{option_copied};
ghost use Rattle.im_payload.specs.Bare.{bare};
ghost use Rattle.im_payload.specs.Faults.{IsFault};
ghost use Rattle.im_payload.specs.Names.{management};
ghost use Rattle.im_extensions.specs.StreamManagement.{EnabledLacks, IsEnabled, IsResume, IsResumed, IsResumption, IsSmFailed, ResumptionLacks, SmFailedLacks, ack_elem, ack_read, enable_elem, enable_read, enabled_elem, failed_condition, is_management, resume_elem, resumed_elem, resumption, sm_failed_elem};
ghost use Rattle.xml_trees.specs.Readers.{is_named};
ghost use Rattle.xml_trees.specs.Views.{elem_view};
ghost use Rattle.im_extensions.specs.Readings.{enabled_read, failed_read, resumption_read};
ghost use Rattle.im_payload.specs.Readings.{Reads, ReadsBy};

use base_io::{NoMemory, Text};
use im_payload::{
    ExtFault, Field, MANAGEMENT, attr_text, bare_tree, flag, optional_u32, push_flag, push_number,
    push_number_where, push_unless_empty, push_value, required_u32,
};
use im_stanza::{Condition, STANZA_ERRORS, condition_in};
use std::alloc::Global;
use xml_trees::{Element, Tree};

/// A client's wish to have its stanzas acknowledged, and whether it wants to resume the stream later (XEP-0198, section
/// 3).
#[derive(Clone, Copy, Debug, PartialEq, Eq)]
pub struct Enable {
    pub resume: bool,
}

/// The server's answer to `Enable` (XEP-0198, section 3): the id to resume the stream by, which is empty where it has
/// none, whether it can be resumed, and for how many seconds at most.
#[derive(Drop)]
pub struct Enabled {
    pub id: Text,
    pub resume: bool,
    pub max: Option<u32>,
}

/// A request for an `Ack` (XEP-0198, section 4).
#[derive(Clone, Copy, Debug, PartialEq, Eq)]
pub struct Request;

/// How many stanzas of the other side were handled, modulo 2^32 (XEP-0198, section 4).
#[derive(Clone, Copy, Debug, PartialEq, Eq)]
pub struct Ack {
    pub h: u32,
}

/// A client's wish to resume the stream of this id, and how many stanzas it had handled of it (XEP-0198, section 5).
#[derive(Drop)]
pub struct Resume {
    pub previd: Text,
    pub h: u32,
}

/// The server's answer to `Resume`, with its own count (XEP-0198, section 5).
#[derive(Drop)]
pub struct Resumed {
    pub previd: Text,
    pub h: u32,
}

/// Why stream management was not enabled, or a stream not resumed (XEP-0198, sections 3 and 5).
#[derive(Drop)]
pub struct SmFailed {
    pub condition: Condition,
}

// Whether the element is stream management's of this name.
fn is_management(element: &Element, name: &str) -> bool
    ensures { result ≡ is_management name.now (elem_view element.now) }
{
    element.is(MANAGEMENT, name)
}

// An element of stream management that contains nothing.
fn management_element(alloc: Global, name: &str) -> Result<Element, NoMemory>
    ensures { IfOk result (λ e. elem_view e ≡ bare management name.now) }
{
    Element::from_strs(alloc, MANAGEMENT, name)
}

// The name of the condition of a `failed`. `None` where it names none.
fn failed_condition(element: &Element) -> Option<&str>
    ensures { option_copied result ≡ failed_condition (elem_view element.now) }
{
    condition_in(&element.children, STANZA_ERRORS)
}

impl Enable {
    /// Reads an `enable` of stream management's namespace: its attribute `resume`, which is true exactly where it is `true`
    /// or `1`. `NotThis` where the tree is another element.
    pub fn read(tree: &Tree) -> Result<Enable, ExtFault>
        ensures { result ≡ enable_read tree.now }
    {
        Enable::read_element(tree.element())
    }

    /// The same of an element.
    pub fn read_element(element: &Element) -> Result<Enable, ExtFault>
        ensures { result ≡ enable_read (elem_view element.now) }
    {
        if !is_management(element, "enable") {
            return Err(ExtFault::NotThis);
        }
        let resume = flag(element.attr("", "resume"));
        Ok(Enable { resume })
    }

    /// The element as a tree. `resume` is left out where it is false.
    #[tactic(auto, using(crate::proofs::StreamManagementLaws::enable_stays))]
    pub fn tree(&self, alloc: Global) -> Result<Tree, NoMemory>
        ensures { IfOk result (λ tree. tree ≡ enable_elem self.now) }
    {
        let mut element = management_element(alloc, "enable")?;
        push_flag(alloc, &mut element, "resume", self.resume)?;
        Tree::of(alloc, element)
    }
}

impl Enabled {
    /// Reads an `enabled` of stream management's namespace: its attributes `id`, which is empty where it is absent,
    /// `resume`, which is true exactly where it is `true` or `1`, and `max`, which may be absent. `NotThis` where the tree
    /// is another element, `Bad(Max)` where `max` is there and is no number below 2^32.
    pub fn read(alloc: Global, tree: &Tree) -> Result<Enabled, ExtFault>
        ensures ok { IfOk result (λ enabled. IsEnabled tree.now enabled) }
        ensures err { IfErr result (IsFault (is_management (codes "enabled") tree.now) (EnabledLacks tree.now)) }
        ensures reading { Reads result (enabled_read tree.now) }
    {
        Enabled::read_element(alloc, tree.element())
    }

    /// The same of an element, which need not keep the rule of a tree.
    pub fn read_element(alloc: Global, element: &Element) -> Result<Enabled, ExtFault>
        ensures ok { IfOk result (λ enabled. IsEnabled (elem_view element.now) enabled) }
        ensures err { IfErr result (IsFault (is_management (codes "enabled") (elem_view element.now)) (EnabledLacks (elem_view element.now))) }
        ensures reading { Reads result (enabled_read (elem_view element.now)) }
    {
        if !is_management(element, "enabled") {
            return Err(ExtFault::NotThis);
        }
        let max = optional_u32(element.attr("", "max"), Field::Max)?;
        let resume = flag(element.attr("", "resume"));
        let id = attr_text(alloc, element, "id")?;
        Ok(Enabled { id, resume, max })
    }

    /// The element as a tree. `id` is left out where it is empty, `resume` where it is false, `max` where it is `None`.
    #[tactic(auto, using(crate::proofs::StreamManagementLaws::enabled_stays))]
    pub fn tree(&self, alloc: Global) -> Result<Tree, NoMemory>
        ensures { IfOk result (λ tree. tree ≡ enabled_elem self.now) }
    {
        let mut element = management_element(alloc, "enabled")?;
        push_unless_empty(alloc, &mut element, "id", self.id.as_str())?;
        push_number_where(alloc, &mut element, "max", self.max)?;
        push_flag(alloc, &mut element, "resume", self.resume)?;
        Tree::of(alloc, element)
    }
}

impl Request {
    /// Reads an `r` of stream management's namespace, whatever it has and contains. `NotThis` where the tree is another
    /// element.
    pub fn read(tree: &Tree) -> Result<Request, ExtFault>
        ensures { result ≡ (if is_named management (codes "r") tree.now then Ok (record {}) else Err ExtFault.NotThis) }
    {
        Request::read_element(tree.element())
    }

    /// The same of an element.
    pub fn read_element(element: &Element) -> Result<Request, ExtFault>
        ensures { result ≡ (if is_named management (codes "r") (elem_view element.now) then Ok (record {}) else Err ExtFault.NotThis) }
    {
        if element.is(MANAGEMENT, "r") {
            Ok(Request)
        } else {
            Err(ExtFault::NotThis)
        }
    }

    /// The element as a tree.
    pub fn tree(&self, alloc: Global) -> Result<Tree, NoMemory>
        ensures { IfOk result (λ tree. tree ≡ bare management (codes "r")) }
    {
        bare_tree(alloc, MANAGEMENT, "r")
    }
}

impl Ack {
    /// Reads an `a` of stream management's namespace: its attribute `h`. `NotThis` where the tree is another element,
    /// `Bad(H)` where `h` is absent or no number below 2^32.
    pub fn read(tree: &Tree) -> Result<Ack, ExtFault>
        ensures { result ≡ ack_read tree.now }
    {
        Ack::read_element(tree.element())
    }

    /// The same of an element.
    pub fn read_element(element: &Element) -> Result<Ack, ExtFault>
        ensures { result ≡ ack_read (elem_view element.now) }
    {
        if !is_management(element, "a") {
            return Err(ExtFault::NotThis);
        }
        let h = required_u32(element.attr("", "h"), Field::H)?;
        Ok(Ack { h })
    }

    /// The element as a tree.
    pub fn tree(&self, alloc: Global) -> Result<Tree, NoMemory>
        ensures { IfOk result (λ tree. tree ≡ ack_elem self.now) }
    {
        let mut element = management_element(alloc, "a")?;
        push_number(alloc, &mut element, "h", u64::from(self.h))?;
        Tree::of(alloc, element)
    }
}

// The id and the count of a `resume` or a `resumed`, whichever the name says.
fn read_resumption(alloc: Global, element: &Element, name: &str) -> Result<(Text, u32), ExtFault>
    ensures ok { IfOk result (λ found. IsResumption name.now (elem_view element.now) found.0 found.1) }
    ensures err { IfErr result (IsFault (is_management name.now (elem_view element.now)) (ResumptionLacks (elem_view element.now))) }
    ensures reading { Reads result (resumption_read name.now (elem_view element.now)) }
{
    if !is_management(element, name) {
        return Err(ExtFault::NotThis);
    }
    let Some(previd) = element.attr("", "previd") else {
        return Err(ExtFault::Bad(Field::Previd));
    };
    let h = required_u32(element.attr("", "h"), Field::H)?;
    Ok((Text::from_str(alloc, previd)?, h))
}

// Its tree.
fn resumption_tree(alloc: Global, name: &str, previd: &Text, h: u32) -> Result<Tree, NoMemory>
    ensures { IfOk result (λ tree. tree ≡ resumption name.now previd.now h) }
{
    let mut element = management_element(alloc, name)?;
    push_number(alloc, &mut element, "h", u64::from(h))?;
    push_value(alloc, &mut element, "previd", previd.as_str())?;
    Tree::of(alloc, element)
}

impl Resume {
    /// Reads a `resume` of stream management's namespace: its attributes `previd` and `h`. `NotThis` where the tree is
    /// another element, `Bad(Previd)` where `previd` is absent, and else `Bad(H)` where `h` is absent or no number below
    /// 2^32.
    pub fn read(alloc: Global, tree: &Tree) -> Result<Resume, ExtFault>
        ensures ok { IfOk result (λ resume. IsResume tree.now resume) }
        ensures err { IfErr result (IsFault (is_management (codes "resume") tree.now) (ResumptionLacks tree.now)) }
        ensures reading { ReadsBy (λ resume. (resume.previd, resume.h)) result (resumption_read (codes "resume") tree.now) }
    {
        Resume::read_element(alloc, tree.element())
    }

    /// The same of an element, which need not keep the rule of a tree.
    pub fn read_element(alloc: Global, element: &Element) -> Result<Resume, ExtFault>
        ensures ok { IfOk result (λ resume. IsResume (elem_view element.now) resume) }
        ensures err { IfErr result (IsFault (is_management (codes "resume") (elem_view element.now)) (ResumptionLacks (elem_view element.now))) }
        ensures reading { ReadsBy (λ resume. (resume.previd, resume.h)) result (resumption_read (codes "resume") (elem_view element.now)) }
    {
        let (previd, h) = read_resumption(alloc, element, "resume")?;
        Ok(Resume { previd, h })
    }

    /// The element as a tree.
    pub fn tree(&self, alloc: Global) -> Result<Tree, NoMemory>
        ensures { IfOk result (λ tree. tree ≡ resume_elem self.now) }
    {
        resumption_tree(alloc, "resume", &self.previd, self.h)
    }
}

impl Resumed {
    /// Reads a `resumed` of stream management's namespace: its attributes `previd` and `h`. `NotThis` where the tree is
    /// another element, `Bad(Previd)` where `previd` is absent, and else `Bad(H)` where `h` is absent or no number below
    /// 2^32.
    pub fn read(alloc: Global, tree: &Tree) -> Result<Resumed, ExtFault>
        ensures ok { IfOk result (λ resumed. IsResumed tree.now resumed) }
        ensures err { IfErr result (IsFault (is_management (codes "resumed") tree.now) (ResumptionLacks tree.now)) }
        ensures reading { ReadsBy (λ resumed. (resumed.previd, resumed.h)) result (resumption_read (codes "resumed") tree.now) }
    {
        Resumed::read_element(alloc, tree.element())
    }

    /// The same of an element, which need not keep the rule of a tree.
    pub fn read_element(alloc: Global, element: &Element) -> Result<Resumed, ExtFault>
        ensures ok { IfOk result (λ resumed. IsResumed (elem_view element.now) resumed) }
        ensures err { IfErr result (IsFault (is_management (codes "resumed") (elem_view element.now)) (ResumptionLacks (elem_view element.now))) }
        ensures reading { ReadsBy (λ resumed. (resumed.previd, resumed.h)) result (resumption_read (codes "resumed") (elem_view element.now)) }
    {
        let (previd, h) = read_resumption(alloc, element, "resumed")?;
        Ok(Resumed { previd, h })
    }

    /// The element as a tree.
    pub fn tree(&self, alloc: Global) -> Result<Tree, NoMemory>
        ensures { IfOk result (λ tree. tree ≡ resumed_elem self.now) }
    {
        resumption_tree(alloc, "resumed", &self.previd, self.h)
    }
}

impl SmFailed {
    /// Reads a `failed` of stream management's namespace: the name of the first element in it of the stanza errors'
    /// namespace that isn't `text`. `NotThis` where the tree is another element, `Bad(Condition)` where it has no such
    /// child.
    pub fn read(alloc: Global, tree: &Tree) -> Result<SmFailed, ExtFault>
        ensures ok { IfOk result (λ failed. IsSmFailed tree.now failed) }
        ensures err { IfErr result (IsFault (is_management (codes "failed") tree.now) (SmFailedLacks tree.now)) }
        ensures reading { ReadsBy (λ failed. failed.condition) result (failed_read tree.now) }
    {
        SmFailed::read_element(alloc, tree.element())
    }

    /// The same of an element, which need not keep the rule of a tree.
    pub fn read_element(alloc: Global, element: &Element) -> Result<SmFailed, ExtFault>
        ensures ok { IfOk result (λ failed. IsSmFailed (elem_view element.now) failed) }
        ensures err { IfErr result (IsFault (is_management (codes "failed") (elem_view element.now)) (SmFailedLacks (elem_view element.now))) }
        ensures reading { ReadsBy (λ failed. failed.condition) result (failed_read (elem_view element.now)) }
    {
        if !is_management(element, "failed") {
            return Err(ExtFault::NotThis);
        }
        let Some(name) = failed_condition(element) else {
            return Err(ExtFault::Bad(Field::Condition));
        };
        let condition = Condition::named(alloc, name)?;
        Ok(SmFailed { condition })
    }

    /// The element as a tree. Of a condition named `text` no reader finds it.
    pub fn tree(&self, alloc: Global) -> Result<Tree, NoMemory>
        ensures { IfOk result (λ tree. tree ≡ sm_failed_elem self.now) }
    {
        let condition = Element::from_strs(alloc, STANZA_ERRORS, self.condition.name())?;
        let mut element = management_element(alloc, "failed")?;
        element.push_child(condition)?;
        Tree::of(alloc, element)
    }
}
