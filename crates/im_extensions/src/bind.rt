//! Resource binding (RFC 6120, section 7).
ghost use Rattle.std.specs.Prelude.{◌≡◌, Some, IfErr, IfOk, true};
ghost use Rattle.im_extensions.specs.Bind.{BindResultLacks, IsBindRequest, IsBindResult, IsNoAddress, bind_request_elem, bind_result_elem, is_bind};
ghost use Rattle.im_payload.specs.Faults.{IsFault, LacksNothing};
ghost use Rattle.xml_trees.specs.Views.{elem_view};
ghost use Rattle.im_jid.specs.Normal.{normal};
ghost use Rattle.im_extensions.specs.Readings.{bind_request_read, bind_result_read};
ghost use Rattle.im_payload.specs.Readings.{Reads, ReadsBy};

use base_io::{NoMemory, Text};
use im_jid::{Jid, JidFault};
use im_payload::{
    BINDING, ExtFault, Field, child_text, child_text_or_empty, push_text_child,
    push_text_child_where,
};
use std::alloc::Global;
use xml_trees::{Element, Tree};

/// A client's wish for a resource, which is empty where it leaves the choice to the server (RFC 6120, sections 7.6 and
/// 7.7).
#[derive(Drop)]
pub struct BindRequest {
    pub resource: Text,
}

/// The server's answer: the address that the client has from now on (RFC 6120, sections 7.6 and 7.7).
#[derive(Drop)]
pub struct BindResult {
    pub jid: Jid,
}

// Whether the element is the one for binding.
fn is_bind(element: &Element) -> bool
    ensures { result ≡ is_bind (elem_view element.now) }
{
    element.is(BINDING, "bind")
}

impl BindRequest {
    /// Reads a `bind` of binding's namespace: the text directly in its first child `resource` there, which is empty where it
    /// has none. `NotThis` where the tree is another element.
    pub fn read(alloc: Global, tree: &Tree) -> Result<BindRequest, ExtFault>
        ensures ok { IfOk result (λ request. IsBindRequest tree.now request) }
        ensures err { IfErr result (IsFault (is_bind tree.now) LacksNothing) }
        ensures reading { Reads result (bind_request_read tree.now) }
    {
        BindRequest::read_element(alloc, tree.element())
    }

    /// The same of an element, which need not keep the rule of a tree.
    pub fn read_element(alloc: Global, element: &Element) -> Result<BindRequest, ExtFault>
        ensures ok { IfOk result (λ request. IsBindRequest (elem_view element.now) request) }
        ensures err { IfErr result (IsFault (is_bind (elem_view element.now)) LacksNothing) }
        ensures reading { Reads result (bind_request_read (elem_view element.now)) }
    {
        if !is_bind(element) {
            return Err(ExtFault::NotThis);
        }
        let resource = child_text_or_empty(alloc, element, BINDING, "resource")?;
        Ok(BindRequest { resource })
    }

    /// The element as a tree. The child is left out where the resource is empty.
    #[tactic(auto, using(crate::proofs::BindLaws::bind_request_stays))]
    pub fn tree(&self, alloc: Global) -> Result<Tree, NoMemory>
        ensures { IfOk result (λ tree. tree ≡ bind_request_elem self.now) }
    {
        let mut element = Element::from_strs(alloc, BINDING, "bind")?;
        push_text_child_where(
            alloc,
            &mut element,
            BINDING,
            "resource",
            self.resource.as_str(),
        )?;
        Tree::of(alloc, element)
    }
}

// The address that a text spells. `Bad(Jid)` where it spells none.
fn address(alloc: Global, text: &str) -> Result<Jid, ExtFault>
    ensures ok { IfOk result (λ jid. normal text.now ≡ Ok jid) }
    ensures stays { IfOk result (λ jid. normal jid ≡ Ok jid) }
    ensures err { IfErr result (IsFault true (λ field. (field ≡ Field.Jid) × IsNoAddress (Some text.now))) }
{
    match Jid::parse(alloc, text) {
        Ok(jid) => Ok(jid),
        Err(JidFault::NoMemory) => Err(ExtFault::NoMemory),
        Err(_) => Err(ExtFault::Bad(Field::Jid)),
    }
}

impl BindResult {
    /// Reads a `bind` of binding's namespace: the address that the text directly in its first child `jid` there spells.
    /// `NotThis` where the tree is another element, `Bad(Jid)` where it has no such child or the text spells no address.
    pub fn read(alloc: Global, tree: &Tree) -> Result<BindResult, ExtFault>
        ensures ok { IfOk result (λ bound. IsBindResult tree.now bound) }
        ensures err { IfErr result (IsFault (is_bind tree.now) (BindResultLacks tree.now)) }
        ensures reading { ReadsBy (λ bound. bound.jid) result (bind_result_read tree.now) }
    {
        BindResult::read_element(alloc, tree.element())
    }

    /// The same of an element, which need not keep the rule of a tree.
    pub fn read_element(alloc: Global, element: &Element) -> Result<BindResult, ExtFault>
        ensures ok { IfOk result (λ bound. IsBindResult (elem_view element.now) bound) }
        ensures err { IfErr result (IsFault (is_bind (elem_view element.now)) (BindResultLacks (elem_view element.now))) }
        ensures reading { ReadsBy (λ bound. bound.jid) result (bind_result_read (elem_view element.now)) }
    {
        if !is_bind(element) {
            return Err(ExtFault::NotThis);
        }
        let Some(text) = child_text(alloc, element, BINDING, "jid")? else {
            return Err(ExtFault::Bad(Field::Jid));
        };
        match address(alloc, text.as_str()) {
            Ok(jid) => Ok(BindResult { jid }),
            Err(fault) => Err(fault),
        }
    }

    /// The element as a tree.
    #[tactic(auto, using(crate::proofs::BindLaws::bind_result_stays))]
    pub fn tree(&self, alloc: Global) -> Result<Tree, NoMemory>
        ensures { IfOk result (λ tree. tree ≡ bind_result_elem self.now) }
    {
        let mut element = Element::from_strs(alloc, BINDING, "bind")?;
        push_text_child(alloc, &mut element, BINDING, "jid", self.jid.text())?;
        Tree::of(alloc, element)
    }
}
