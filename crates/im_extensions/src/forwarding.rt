//! Forwarded messages (XEP-0297) with their delays (XEP-0203).
//!
//! A forwarded message that is moved into a tree is walked at each level, for the same reason.
ghost use Rattle.std.specs.Prelude.{◌≡◌, None, Some, true, codes, IfErr, IfOk};
ghost use Rattle.std.specs.Option.{option_copied, option_map};
ghost use Rattle.im_payload.specs.Bare.{bare};
ghost use Rattle.im_payload.specs.Checks.{IsFirstWrong, first_wrong};
ghost use Rattle.im_payload.specs.Faults.{IsFault};
ghost use Rattle.im_extensions.specs.Forwarding.{Forwards, IsForwarded, WritesForwarded, delay_elem, delay_moment, forward_checks, forwarded_checks, is_forwarded, message_read, the_forwarded};
ghost use Rattle.im_payload.specs.Names.{forwarding};
ghost use Rattle.xml_trees.specs.Views.{elem_view};
ghost use Rattle.im_extensions.specs.ForwardReadings.{forward_read, forwarded_read};
ghost use Rattle.im_payload.specs.Readings.{Reads, or_bad};

use base_io::NoMemory;
use im_payload::{DELAYS, ExtFault, FORWARDING, Field, moment_in, moment_text, push_value};
use im_stanza::{CLIENT, Message, Stanza, StanzaFault, message_tree, read_stanza_element};
use std::alloc::Global;
use xml_trees::{Element, Tree};

/// A message that is forwarded, and when it was sent, in milliseconds since 1970 (XEP-0297, section 3; XEP-0203).
#[derive(Drop)]
pub struct Forwarded {
    pub stamp: u64,
    pub message: Message,
}

// The moment of a delay. `absent` is that of one that is absent.
fn delay_moment(delay: Option<&Element>, absent: Option<u64>) -> Option<u64>
    ensures { result ≡ delay_moment absent (option_map elem_view (option_copied delay.entry)) }
{
    match delay {
        None => absent,
        Some(delay) => moment_in(delay.attr("", "stamp")),
    }
}

// The message that an element is. `Bad(Stanza)` where it is none.
fn message_read(alloc: Global, element: Option<&Element>) -> Result<Message, ExtFault>
    ensures ok { IfOk result (λ m. message_read (option_map elem_view (option_copied element.entry)) ≡ Some m) }
    ensures err { IfErr result (IsFault true (λ f. (f ≡ Field.Stanza) × (message_read (option_map elem_view (option_copied element.entry)) ≡ None))) }
    ensures reading { Reads result (or_bad Field.Stanza (message_read (option_map elem_view (option_copied element.entry)))) }
{
    let Some(element) = element else {
        return Err(ExtFault::Bad(Field::Stanza));
    };
    match read_stanza_element(alloc, element) {
        Ok(Stanza::Message(message)) => Ok(message),
        Ok(_) => Err(ExtFault::Bad(Field::Stanza)),
        Err(StanzaFault::NoMemory) => Err(ExtFault::NoMemory),
        Err(_) => Err(ExtFault::Bad(Field::Stanza)),
    }
}

/// What is forwarded in an element. `absent` is the moment where there is no delay. `Bad(Stamp)` where the first `delay`
/// has no stamp, and where there is none and `absent` is none; else `Bad(Stanza)` where the first `message` is no message.
pub(crate) fn forwarded_in(
    alloc: Global,
    element: &Element,
    absent: Option<u64>,
) -> Result<Forwarded, ExtFault>
    ensures ok { IfOk result (λ v. Forwards absent (elem_view element.now) v) }
    ensures err { IfErr result (IsFault true (IsFirstWrong (forward_checks absent (elem_view element.now)))) }
    ensures reading { Reads result (forward_read absent (elem_view element.now)) }
{
    let Some(stamp) = delay_moment(element.child(DELAYS, "delay"), absent) else {
        return Err(ExtFault::Bad(Field::Stamp));
    };
    match message_read(alloc, element.child(CLIENT, "message")) {
        Ok(message) => Ok(Forwarded { stamp, message }),
        Err(fault) => Err(fault),
    }
}

/// The same of the first `forwarded` of a payload. One that is absent is as an empty one.
pub fn forwarded_inside(
    alloc: Global,
    payload: &Element,
    absent: Option<u64>,
) -> Result<Forwarded, ExtFault>
    ensures ok { IfOk result (λ v. Forwards absent (the_forwarded (elem_view payload.now)) v) }
    ensures err { IfErr result (IsFault true (IsFirstWrong (forward_checks absent (the_forwarded (elem_view payload.now))))) }
    ensures reading { Reads result (forward_read absent (the_forwarded (elem_view payload.now))) }
{
    let Some(element) = payload.child(FORWARDING, "forwarded") else {
        return Err(ExtFault::Bad(field_of_empty(absent)));
    };
    forwarded_in(alloc, element, absent)
}

// The first field that is wrong of an empty `forwarded`.
fn field_of_empty(absent: Option<u64>) -> Field
    ensures { Some result ≡ first_wrong (forward_checks absent (bare forwarding (codes "forwarded"))) }
{
    match absent {
        None => Field::Stamp,
        Some(_) => Field::Stanza,
    }
}

// The element `delay` of a moment.
fn delay_element(alloc: Global, stamp: &str) -> Result<Element, NoMemory>
    ensures { IfOk result (λ e. elem_view e ≡ delay_elem stamp.now) }
{
    let mut delay = Element::from_strs(alloc, DELAYS, "delay")?;
    push_value(alloc, &mut delay, "stamp", stamp)?;
    Ok(delay)
}

/// What is forwarded as an element.
pub fn forwarded_element(alloc: Global, v: &Forwarded) -> Result<Element, NoMemory>
    ensures { IfOk result (λ e. WritesForwarded v.now (elem_view e)) }
{
    let stamp = moment_text(alloc, v.stamp)?;
    let delay = delay_element(alloc, stamp.as_str())?;
    let message = message_tree(alloc, &v.message)?;
    let mut element = Element::from_strs(alloc, FORWARDING, "forwarded")?;
    element.push_child(delay)?;
    element.push_child(message.into_element())?;
    Ok(element)
}

/// The same with the message moved.
pub fn forwarded_moved(alloc: Global, v: Forwarded) -> Result<Element, NoMemory>
    ensures { IfOk result (λ e. WritesForwarded v (elem_view e)) }
{
    let stamp = moment_text(alloc, v.stamp)?;
    let delay = delay_element(alloc, stamp.as_str())?;
    let message = v.message.into_tree(alloc)?;
    let mut element = Element::from_strs(alloc, FORWARDING, "forwarded")?;
    element.push_child(delay)?;
    element.push_child(message.into_element())?;
    Ok(element)
}

impl Forwarded {
    /// Reads a `forwarded` of its namespace: the moment of its first `delay`, and the message that its first `message` is.
    /// `NotThis` where the tree is another element, `Bad(Stamp)` where there is no delay or it has no stamp from 1970 on,
    /// and else `Bad(Stanza)` where there is no message or `read_stanza` refuses it.
    pub fn read(alloc: Global, tree: &Tree) -> Result<Forwarded, ExtFault>
        ensures ok { IfOk result (λ v. IsForwarded tree.now v) }
        ensures err { IfErr result (IsFault (is_forwarded tree.now) (IsFirstWrong (forwarded_checks tree.now))) }
        ensures reading { Reads result (forwarded_read tree.now) }
    {
        Forwarded::read_element(alloc, tree.element())
    }

    /// The same of an element, which need not keep the rule of a tree.
    pub fn read_element(alloc: Global, element: &Element) -> Result<Forwarded, ExtFault>
        ensures ok { IfOk result (λ v. IsForwarded (elem_view element.now) v) }
        ensures err { IfErr result (IsFault (is_forwarded (elem_view element.now)) (IsFirstWrong (forwarded_checks (elem_view element.now)))) }
        ensures reading { Reads result (forwarded_read (elem_view element.now)) }
    {
        if !element.is(FORWARDING, "forwarded") {
            return Err(ExtFault::NotThis);
        }
        forwarded_in(alloc, element, None)
    }

    /// The element as a tree. A moment past `LAST_MOMENT` is written as that.
    #[tactic(auto, using(crate::proofs::ForwardingLaws::written_tree))]
    pub fn tree(&self, alloc: Global) -> Result<Tree, NoMemory>
        ensures { IfOk result (λ tree. WritesForwarded self.now tree) }
    {
        let element = forwarded_element(alloc, self)?;
        Tree::of(alloc, element)
    }

    /// The same with the message moved.
    #[tactic(auto, using(crate::proofs::ForwardingLaws::written_tree))]
    pub fn into_tree(self, alloc: Global) -> Result<Tree, NoMemory>
        ensures { IfOk result (λ tree. WritesForwarded self tree) }
    {
        let element = forwarded_moved(alloc, self)?;
        Tree::of(alloc, element)
    }
}
