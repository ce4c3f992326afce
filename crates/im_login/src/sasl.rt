//! The elements of SASL (RFC 6120, section 6.4).
ghost use Rattle.std.specs.Prelude.{◌≡◌, codes, IfErr, IfOk};
ghost use Rattle.std.specs.Option.{option_copied};
ghost use Rattle.im_payload.specs.Faults.{IsFault};
ghost use Rattle.im_login.specs.Sasl.{AuthLacks, CarrierLacks, FailureLacks, IsAuth, IsCarrier, IsFailure, abort_of, abort_read, auth_mechanism, auth_of, carrier, failure_of, is_sasl};
ghost use Rattle.xml_trees.specs.Views.{elem_view};
ghost use Rattle.im_payload.specs.Readings.{ReadsBy};
ghost use Rattle.im_login.specs.Readings.{auth_read, carrier_read, failure_read};

use crate::payloads::{
    carrier_element, carrier_tree, is_sasl, payload_in, read_carrier, sasl_condition, sasl_element,
};
use base_io::{Bytes, NoMemory, Text};
use im_payload::{ExtFault, Field};
use std::alloc::Global;
use xml_trees::{Attr, Element, Tree};

/// How a client begins a negotiation: the mechanism, and the bytes that it sends with it (RFC 6120, section 6.4.2).
#[derive(Drop)]
pub struct Auth {
    pub mechanism: Text,
    pub payload: Bytes,
}

impl Auth {
    /// Reads an `auth` of SASL's namespace: its attribute `mechanism`, and the bytes whose base64 is the text directly in
    /// it, where a lone `=` stands for none. `NotThis` where the tree is another element, `Bad(Mechanism)` where the
    /// attribute is absent, and else `Bad(Payload)` where the text is neither strict base64 nor a lone `=`.
    pub fn read(alloc: Global, tree: &Tree) -> Result<Auth, ExtFault>
        ensures ok { IfOk result (λ auth. IsAuth tree.now auth.mechanism auth.payload.items) }
        ensures err { IfErr result (IsFault (is_sasl (codes "auth") tree.now) (AuthLacks tree.now)) }
        ensures reading { ReadsBy (λ auth. (auth.mechanism, auth.payload.items)) result (auth_read tree.now) }
    {
        Auth::read_element(alloc, tree.element())
    }

    /// The same of an element, which need not keep the rule of a tree.
    pub fn read_element(alloc: Global, element: &Element) -> Result<Auth, ExtFault>
        ensures ok { IfOk result (λ auth. IsAuth (elem_view element.now) auth.mechanism auth.payload.items) }
        ensures err { IfErr result (IsFault (is_sasl (codes "auth") (elem_view element.now)) (AuthLacks (elem_view element.now))) }
        ensures reading { ReadsBy (λ auth. (auth.mechanism, auth.payload.items)) result (auth_read (elem_view element.now)) }
    {
        if !is_sasl(element, "auth") {
            return Err(ExtFault::NotThis);
        }
        let Some(mechanism) = element.attr("", "mechanism") else {
            return Err(ExtFault::Bad(Field::Mechanism));
        };
        match payload_in(alloc, element) {
            Ok(payload) => Ok(Auth {
                mechanism: Text::from_str(alloc, mechanism)?,
                payload,
            }),
            Err(fault) => Err(fault),
        }
    }

    /// The mechanism that an `auth` names, whatever its payload is. `None` where the element is no `auth` or names none.
    pub fn mechanism_of(element: &Element) -> Option<&str>
        ensures { option_copied result ≡ auth_mechanism (elem_view element.now) }
    {
        if !is_sasl(element, "auth") {
            return None;
        }
        element.attr("", "mechanism")
    }

    /// The element as a tree.
    #[tactic(auto, using(im_payload::proofs::Written::after_text))]
    pub fn tree(&self, alloc: Global) -> Result<Tree, NoMemory>
        ensures { IfOk result (λ tree. tree ≡ auth_of self.now.mechanism self.now.payload.items) }
    {
        let mut element = carrier_element(alloc, "auth", self.payload.as_slice())?;
        element.push_attr(Attr::from_strs(alloc, "", "mechanism", self.mechanism.as_str())?)?;
        Tree::of(alloc, element)
    }
}

/// What a server asks of a client (RFC 6120, section 6.4.3).
#[derive(Drop)]
pub struct Challenge {
    pub payload: Bytes,
}

impl Challenge {
    /// Reads a `challenge` of SASL's namespace: the bytes whose base64 is the text directly in it, where a lone `=` stands for
    /// none. `NotThis` where the tree is another element, `Bad(Payload)` where the text is neither strict base64 nor a
    /// lone `=`.
    pub fn read(alloc: Global, tree: &Tree) -> Result<Challenge, ExtFault>
        ensures ok { IfOk result (λ challenge. IsCarrier (codes "challenge") tree.now challenge.payload.items) }
        ensures err { IfErr result (IsFault (is_sasl (codes "challenge") tree.now) (CarrierLacks tree.now)) }
        ensures reading { ReadsBy (λ challenge. challenge.payload.items) result (carrier_read (codes "challenge") tree.now) }
    {
        Challenge::read_element(alloc, tree.element())
    }

    /// The same of an element, which need not keep the rule of a tree.
    pub fn read_element(alloc: Global, element: &Element) -> Result<Challenge, ExtFault>
        ensures ok { IfOk result (λ challenge. IsCarrier (codes "challenge") (elem_view element.now) challenge.payload.items) }
        ensures err { IfErr result (IsFault (is_sasl (codes "challenge") (elem_view element.now)) (CarrierLacks (elem_view element.now))) }
        ensures reading { ReadsBy (λ challenge. challenge.payload.items) result (carrier_read (codes "challenge") (elem_view element.now)) }
    {
        let payload = read_carrier(alloc, element, "challenge")?;
        Ok(Challenge { payload })
    }

    /// The element as a tree.
    pub fn tree(&self, alloc: Global) -> Result<Tree, NoMemory>
        ensures { IfOk result (λ tree. tree ≡ carrier (codes "challenge") self.now.payload.items) }
    {
        carrier_tree(alloc, "challenge", self.payload.as_slice())
    }
}

/// What a client answers to a challenge (RFC 6120, section 6.4.3).
#[derive(Drop)]
pub struct Response {
    pub payload: Bytes,
}

impl Response {
    /// Reads a `response` of SASL's namespace: the bytes whose base64 is the text directly in it, where a lone `=` stands for
    /// none. `NotThis` where the tree is another element, `Bad(Payload)` where the text is neither strict base64 nor a
    /// lone `=`.
    pub fn read(alloc: Global, tree: &Tree) -> Result<Response, ExtFault>
        ensures ok { IfOk result (λ response. IsCarrier (codes "response") tree.now response.payload.items) }
        ensures err { IfErr result (IsFault (is_sasl (codes "response") tree.now) (CarrierLacks tree.now)) }
        ensures reading { ReadsBy (λ response. response.payload.items) result (carrier_read (codes "response") tree.now) }
    {
        Response::read_element(alloc, tree.element())
    }

    /// The same of an element, which need not keep the rule of a tree.
    pub fn read_element(alloc: Global, element: &Element) -> Result<Response, ExtFault>
        ensures ok { IfOk result (λ response. IsCarrier (codes "response") (elem_view element.now) response.payload.items) }
        ensures err { IfErr result (IsFault (is_sasl (codes "response") (elem_view element.now)) (CarrierLacks (elem_view element.now))) }
        ensures reading { ReadsBy (λ response. response.payload.items) result (carrier_read (codes "response") (elem_view element.now)) }
    {
        let payload = read_carrier(alloc, element, "response")?;
        Ok(Response { payload })
    }

    /// The element as a tree.
    pub fn tree(&self, alloc: Global) -> Result<Tree, NoMemory>
        ensures { IfOk result (λ tree. tree ≡ carrier (codes "response") self.now.payload.items) }
    {
        carrier_tree(alloc, "response", self.payload.as_slice())
    }
}

/// The end of a negotiation that succeeded, with the data that the mechanism has for it (RFC 6120, section 6.4.6).
#[derive(Drop)]
pub struct Success {
    pub payload: Bytes,
}

impl Success {
    /// Reads a `success` of SASL's namespace: the bytes whose base64 is the text directly in it, where a lone `=` stands for
    /// none. `NotThis` where the tree is another element, `Bad(Payload)` where the text is neither strict base64 nor a
    /// lone `=`.
    pub fn read(alloc: Global, tree: &Tree) -> Result<Success, ExtFault>
        ensures ok { IfOk result (λ success. IsCarrier (codes "success") tree.now success.payload.items) }
        ensures err { IfErr result (IsFault (is_sasl (codes "success") tree.now) (CarrierLacks tree.now)) }
        ensures reading { ReadsBy (λ success. success.payload.items) result (carrier_read (codes "success") tree.now) }
    {
        Success::read_element(alloc, tree.element())
    }

    /// The same of an element, which need not keep the rule of a tree.
    pub fn read_element(alloc: Global, element: &Element) -> Result<Success, ExtFault>
        ensures ok { IfOk result (λ success. IsCarrier (codes "success") (elem_view element.now) success.payload.items) }
        ensures err { IfErr result (IsFault (is_sasl (codes "success") (elem_view element.now)) (CarrierLacks (elem_view element.now))) }
        ensures reading { ReadsBy (λ success. success.payload.items) result (carrier_read (codes "success") (elem_view element.now)) }
    {
        let payload = read_carrier(alloc, element, "success")?;
        Ok(Success { payload })
    }

    /// The element as a tree.
    pub fn tree(&self, alloc: Global) -> Result<Tree, NoMemory>
        ensures { IfOk result (λ tree. tree ≡ carrier (codes "success") self.now.payload.items) }
    {
        carrier_tree(alloc, "success", self.payload.as_slice())
    }
}

/// The end of a negotiation that failed, and its condition (RFC 6120, sections 6.4.5 and 6.5).
#[derive(Drop)]
pub struct SaslFailure {
    pub condition: Text,
}

impl SaslFailure {
    /// Reads a `failure` of SASL's namespace: the name of the first element in it of that namespace that isn't `text`.
    /// `NotThis` where the tree is another element, `Bad(Condition)` where it has no such child.
    pub fn read(alloc: Global, tree: &Tree) -> Result<SaslFailure, ExtFault>
        ensures ok { IfOk result (λ failure. IsFailure tree.now failure.condition) }
        ensures err { IfErr result (IsFault (is_sasl (codes "failure") tree.now) (FailureLacks tree.now)) }
        ensures reading { ReadsBy (λ failure. failure.condition) result (failure_read tree.now) }
    {
        SaslFailure::read_element(alloc, tree.element())
    }

    /// The same of an element, which need not keep the rule of a tree.
    pub fn read_element(alloc: Global, element: &Element) -> Result<SaslFailure, ExtFault>
        ensures ok { IfOk result (λ failure. IsFailure (elem_view element.now) failure.condition) }
        ensures err { IfErr result (IsFault (is_sasl (codes "failure") (elem_view element.now)) (FailureLacks (elem_view element.now))) }
        ensures reading { ReadsBy (λ failure. failure.condition) result (failure_read (elem_view element.now)) }
    {
        if !is_sasl(element, "failure") {
            return Err(ExtFault::NotThis);
        }
        match sasl_condition(element) {
            Some(condition) => Ok(SaslFailure {
                condition: Text::from_str(alloc, condition)?,
            }),
            None => Err(ExtFault::Bad(Field::Condition)),
        }
    }

    /// The element as a tree. Of a condition named `text` no reader finds it.
    pub fn tree(&self, alloc: Global) -> Result<Tree, NoMemory>
        ensures { IfOk result (λ tree. tree ≡ failure_of self.now.condition) }
    {
        let condition = sasl_element(alloc, self.condition.as_str())?;
        let mut element = sasl_element(alloc, "failure")?;
        element.push_child(condition)?;
        Tree::of(alloc, element)
    }
}

/// The end of a negotiation that a client gave up (RFC 6120, section 6.4.4).
#[derive(Clone, Copy, Debug, PartialEq, Eq)]
pub struct Abort;

impl Abort {
    /// Reads an `abort` of SASL's namespace, whatever it has and contains. `NotThis` where the tree is another element.
    pub fn read(tree: &Tree) -> Result<Abort, ExtFault>
        ensures { result ≡ abort_read tree.now }
    {
        Abort::read_element(tree.element())
    }

    /// The same of an element.
    pub fn read_element(element: &Element) -> Result<Abort, ExtFault>
        ensures { result ≡ abort_read (elem_view element.now) }
    {
        if is_sasl(element, "abort") {
            Ok(Abort)
        } else {
            Err(ExtFault::NotThis)
        }
    }

    /// The element as a tree.
    pub fn tree(&self, alloc: Global) -> Result<Tree, NoMemory>
        ensures { IfOk result (λ tree. tree ≡ abort_of) }
    {
        let element = sasl_element(alloc, "abort")?;
        Tree::of(alloc, element)
    }
}
