//! The bytes that SASL's elements carry (RFC 6120, section 6.4; RFC 4648, section 4).
ghost use Rattle.std.specs.Prelude.{◌≡◌, [], true, IfErr, IfOk};
ghost use Rattle.std.specs.Option.{option_copied};
ghost use Rattle.im_payload.specs.Faults.{IsFault};
ghost use Rattle.im_login.specs.Payloads.{HasNoPayload, IsPayload, base64_of};
ghost use Rattle.im_login.specs.Sasl.{CarrierLacks, IsCarrier, carrier, is_sasl};
ghost use Rattle.im_payload.specs.Names.{sasl};
ghost use Rattle.xml_trees.specs.Readers.{text_of};
ghost use Rattle.xml_trees.specs.Tidied.{text_node};
ghost use Rattle.xml_trees.specs.Trees.{element, nodes_of, no_nodes};
ghost use Rattle.xml_trees.specs.Views.{elem_view};
ghost use Rattle.im_stanza.specs.Conditions.{condition_in};
ghost use Rattle.im_payload.specs.Readings.{ReadsBy};
ghost use Rattle.im_login.specs.Readings.{carrier_read, payload_read};

use base_io::{Bytes, NoMemory, Text};
use base64::DecodeAllocError;
use base64::engine::general_purpose::STANDARD;
use im_payload::{ExtFault, Field, SASL, text_element};
use im_stanza::condition_in;
use std::alloc::Global;
use xml_trees::{Element, Tree};

/// An element of SASL that contains nothing.
#[tactic(auto, unfolding(im_payload::specs::Names::sasl))]
pub(crate) fn sasl_element(alloc: Global, name: &str) -> Result<Element, NoMemory>
    ensures { IfOk result (λ e. elem_view e ≡ element sasl name.now [] no_nodes) }
{
    Element::from_strs(alloc, SASL, name)
}

/// Whether the element is SASL's element of this name.
#[tactic(auto, unfolding(im_payload::specs::Names::sasl))]
pub(crate) fn is_sasl(element: &Element, name: &str) -> bool
    ensures { result ≡ is_sasl name.now (elem_view element.now) }
{
    element.is(SASL, name)
}

/// The condition that an element names in SASL's namespace. `None` where it names none.
#[tactic(auto, unfolding(im_payload::specs::Names::sasl))]
pub(crate) fn sasl_condition(element: &Element) -> Option<&str>
    ensures { option_copied result ≡ condition_in sasl (nodes_of (elem_view element.now)) }
{
    condition_in(&element.children, SASL)
}

// The bytes that a text stands for. `Bad(Payload)` where it is neither base64 (RFC 4648, section 4) nor a lone `=`.
#[tactic(auto, unfolding(crate::specs::Payloads::base64_of, crate::specs::Readings::payload_read))]
fn payload_of(alloc: Global, text: &str) -> Result<Bytes, ExtFault>
    ensures ok { IfOk result (λ bytes. IsPayload text.now bytes.items) }
    ensures err { IfErr result (IsFault true (HasNoPayload text.now)) }
    ensures reading { ReadsBy (λ bytes. bytes.items) result (payload_read text.now) }
{
    if text == "=" {
        return Ok(Bytes::new(alloc));
    }
    match STANDARD.decode(alloc, text.as_bytes()) {
        Ok(bytes) => Ok(Bytes::from(bytes)),
        Err(DecodeAllocError::OutOfMemory) => Err(ExtFault::NoMemory),
        Err(DecodeAllocError::DecodeError(_)) => Err(ExtFault::Bad(Field::Payload)),
    }
}

/// The bytes that the text directly in an element stands for. `Bad(Payload)` where it stands for none. The text is not
/// copied where it is in one piece.
pub(crate) fn payload_in(alloc: Global, element: &Element) -> Result<Bytes, ExtFault>
    ensures ok { IfOk result (λ bytes. IsPayload (text_of (nodes_of (elem_view element.now))) bytes.items) }
    ensures err { IfErr result (IsFault true (CarrierLacks (elem_view element.now))) }
    ensures reading { ReadsBy (λ bytes. bytes.items) result (payload_read (text_of (nodes_of (elem_view element.now)))) }
{
    match element.only_text() {
        Some(text) => payload_of(alloc, text),
        None => {
            let text = element.text(alloc)?;
            payload_of(alloc, text.as_str())
        }
    }
}

/// The bytes that SASL's element of this name carries. `NotThis` where it is another element, `Bad(Payload)` where
/// its text stands for no bytes.
pub(crate) fn read_carrier(alloc: Global, element: &Element, name: &str) -> Result<Bytes, ExtFault>
    ensures ok { IfOk result (λ bytes. IsCarrier name.now (elem_view element.now) bytes.items) }
    ensures err { IfErr result (IsFault (is_sasl name.now (elem_view element.now)) (CarrierLacks (elem_view element.now))) }
    ensures reading { ReadsBy (λ bytes. bytes.items) result (carrier_read name.now (elem_view element.now)) }
{
    if !is_sasl(element, name) {
        return Err(ExtFault::NotThis);
    }
    payload_in(alloc, element)
}

// The text for bytes: their base64.
#[tactic(auto, unfolding(crate::specs::Payloads::base64_of))]
fn payload_text(alloc: Global, payload: &[u8]) -> Result<Text, NoMemory>
    ensures { IfOk result (λ text. text ≡ base64_of payload.now) }
{
    Ok(Text::from(STANDARD.encode(alloc, payload)?))
}

/// SASL's element of this name that carries the bytes. No bytes are written as no text.
#[tactic(auto, unfolding(im_payload::specs::Names::sasl))]
pub(crate) fn carrier_element(
    alloc: Global,
    name: &str,
    payload: &[u8],
) -> Result<Element, NoMemory>
    ensures { IfOk result (λ e. elem_view e ≡ carrier name.now payload.now) }
{
    let text = payload_text(alloc, payload)?;
    text_element(alloc, SASL, name, text)
}

/// The same as a tree.
#[tactic(auto, using(im_payload::proofs::Written::after_text))]
pub(crate) fn carrier_tree(alloc: Global, name: &str, payload: &[u8]) -> Result<Tree, NoMemory>
    ensures { IfOk result (λ tree. tree ≡ carrier name.now payload.now) }
{
    let element = carrier_element(alloc, name, payload)?;
    Tree::of(alloc, element)
}
