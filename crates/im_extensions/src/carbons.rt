//! Carbons (XEP-0280).
ghost use Rattle.std.specs.Prelude.{◌≡◌, IfErr, IfOk};
ghost use Rattle.im_extensions.specs.Carbons.{IsCarbon, WritesCarbon, carbon_checks, carbon_name, is_carbon};
ghost use Rattle.im_payload.specs.Checks.{IsFirstWrong};
ghost use Rattle.im_payload.specs.Faults.{IsFault};
ghost use Rattle.xml_trees.specs.Views.{elem_view};
ghost use Rattle.im_extensions.specs.ForwardReadings.{carbon_read};
ghost use Rattle.im_payload.specs.Readings.{Reads};

use crate::forwarding::{Forwarded, forwarded_element, forwarded_inside, forwarded_moved};
use base_io::NoMemory;
use im_payload::{CARBONS, ExtFault};
use std::alloc::Global;
use xml_trees::{Element, Tree};

/// A copy of a message that another of one's clients sent, or else received (XEP-0280, sections 7 and 8). The stamp of what
/// came without a delay is 0.
#[derive(Drop)]
pub struct Carbon {
    pub sent: bool,
    pub forwarded: Forwarded,
}

// The name of the element.
fn carbon_name(sent: bool) -> &'static str
    ensures { result.now ≡ carbon_name sent }
{
    if sent { "sent" } else { "received" }
}

// A copy as an element.
fn carbon_element(alloc: Global, v: &Carbon) -> Result<Element, NoMemory>
    ensures { IfOk result (λ e. WritesCarbon v.now (elem_view e)) }
{
    let forwarded = forwarded_element(alloc, &v.forwarded)?;
    let mut element = Element::from_strs(alloc, CARBONS, carbon_name(v.sent))?;
    element.push_child(forwarded)?;
    Ok(element)
}

// The same with the message moved.
fn carbon_moved(alloc: Global, v: Carbon) -> Result<Element, NoMemory>
    ensures { IfOk result (λ e. WritesCarbon v (elem_view e)) }
{
    let name = carbon_name(v.sent);
    let forwarded = forwarded_moved(alloc, v.forwarded)?;
    let mut element = Element::from_strs(alloc, CARBONS, name)?;
    element.push_child(forwarded)?;
    Ok(element)
}

impl Carbon {
    /// Reads a `sent` or `received` of carbons: what is forwarded in its first `forwarded`, an absent one being as an empty one.
    /// The moment is 0 where there is no delay. `NotThis` where the tree is another element, `Bad(Stamp)` where the delay has no
    /// stamp from 1970 on, and else `Bad(Stanza)` where there is no message or `read_stanza` refuses it.
    pub fn read(alloc: Global, tree: &Tree) -> Result<Carbon, ExtFault>
        ensures ok { IfOk result (λ v. IsCarbon tree.now v) }
        ensures err { IfErr result (IsFault (is_carbon tree.now) (IsFirstWrong (carbon_checks tree.now))) }
        ensures reading { Reads result (carbon_read tree.now) }
    {
        Carbon::read_element(alloc, tree.element())
    }

    /// The same of an element, which need not keep the rule of a tree.
    pub fn read_element(alloc: Global, element: &Element) -> Result<Carbon, ExtFault>
        ensures ok { IfOk result (λ v. IsCarbon (elem_view element.now) v) }
        ensures err { IfErr result (IsFault (is_carbon (elem_view element.now)) (IsFirstWrong (carbon_checks (elem_view element.now)))) }
        ensures reading { Reads result (carbon_read (elem_view element.now)) }
    {
        let sent = element.is(CARBONS, "sent");
        if !sent && !element.is(CARBONS, "received") {
            return Err(ExtFault::NotThis);
        }
        match forwarded_inside(alloc, element, Some(0)) {
            Ok(forwarded) => Ok(Carbon { sent, forwarded }),
            Err(fault) => Err(fault),
        }
    }

    /// The element as a tree, with a delay always. A moment past `LAST_MOMENT` is written as that.
    #[tactic(auto, using(crate::proofs::CarbonLaws::carbon_tree))]
    pub fn tree(&self, alloc: Global) -> Result<Tree, NoMemory>
        ensures { IfOk result (λ tree. WritesCarbon self.now tree) }
    {
        let element = carbon_element(alloc, self)?;
        Tree::of(alloc, element)
    }

    /// The same with the message moved.
    #[tactic(auto, using(crate::proofs::CarbonLaws::carbon_tree))]
    pub fn into_tree(self, alloc: Global) -> Result<Tree, NoMemory>
        ensures { IfOk result (λ tree. WritesCarbon self tree) }
    {
        let element = carbon_moved(alloc, self)?;
        Tree::of(alloc, element)
    }
}
