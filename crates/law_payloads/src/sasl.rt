//! Laws of SASL's elements (RFC 6120, section 6.4).
ghost use Rattle.std.specs.Prelude.{◌≡◌, ◌≢◌, ◌↔◌, ℕ, List, Ok, codes, true};
ghost use Rattle.base64.specs.GeneralPurpose.{IsBytes};
ghost use Rattle.im_payload.specs.Faults.{LacksNothing};
ghost use Rattle.law_payloads.specs.Answers.{IsAnswer};
ghost use Rattle.im_login.specs.Payloads.{IsPayload};
ghost use Rattle.im_login.specs.Readings.{auth_read, carrier_read, failure_read, payload_read};
ghost use Rattle.im_login.specs.Sasl.{AuthLacks, CarrierLacks, FailureLacks, IsAuth, IsCarrier, IsFailure, abort_of, abort_read, auth_of, carrier, failure_of, is_sasl};
ghost use Rattle.im_login.specs.declared.sasl.Abort.{Abort};
ghost use Rattle.xml_trees.specs.Readers.{text_of};
ghost use Rattle.xml_trees.specs.Trees.{Elem, nodes_of};

/// A law: what is read of an element of SASL is what the grammar says that it stands for, and each refusal comes
/// exactly where the grammar tells it. `carrier` is each of `challenge`, `response` and `success`, by its name. Where
/// base64 is read, the text of the element is bytes, as it is in each `Element`.
pub fn sasl_is_read_as_stated()
    ensures payload { (text bytes : List ℕ) → IsBytes text → (payload_read text ≡ Ok bytes) ↔ IsPayload text bytes }
    ensures carrier { (name : List ℕ) (e : Elem) → IsBytes (text_of (nodes_of e)) → IsAnswer (carrier_read name e) (is_sasl name e) (CarrierLacks e) (IsCarrier name e) }
    ensures auth { (e : Elem) → IsBytes (text_of (nodes_of e)) → IsAnswer (auth_read e) (is_sasl (codes "auth") e) (AuthLacks e) (λ v. IsAuth e v.0 v.1) }
    ensures failure { (e : Elem) → IsAnswer (failure_read e) (is_sasl (codes "failure") e) (FailureLacks e) (IsFailure e) }
    ensures abort { (e : Elem) → IsAnswer (abort_read e) (is_sasl (codes "abort") e) LacksNothing (λ (v : Abort). is_sasl (codes "abort") e ≡ true) }
{}

/// A law: what is written of a value is read as that value. The payload is bytes, as it is in the types, and the
/// condition of a `failure` isn't named `text`.
pub fn written_sasl_is_read_back()
    ensures carrier { (name payload : List ℕ) → IsBytes payload → carrier_read name (carrier name payload) ≡ Ok payload }
    ensures auth { (mechanism payload : List ℕ) → IsBytes payload → auth_read (auth_of mechanism payload) ≡ Ok (mechanism, payload) }
    ensures failure { (condition : List ℕ) → condition ≢ codes "text" → failure_read (failure_of condition) ≡ Ok condition }
    ensures abort { abort_read abort_of ≡ Ok (record {}) }
{}
