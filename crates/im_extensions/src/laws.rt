//! What reading and writing payloads say of each other.
ghost use Rattle.std.specs.Prelude.{◌≡◌, ◌↔◌, ℕ, List, Ok, codes, true};
ghost use Rattle.im_extensions.specs.Bind.{BindResultLacks, IsBindRequest, IsBindResult, bind_request_elem, bind_result_elem, is_bind};
ghost use Rattle.im_extensions.specs.Carbons.{IsCarbon, WritesCarbon, carbon_checks, is_carbon};
ghost use Rattle.im_extensions.specs.Forwarding.{IsForwarded, WritesForwarded, forwarded_checks, is_forwarded};
ghost use Rattle.im_extensions.specs.Ids.{IsOriginId, IsStanzaId, OriginIdLacks, StanzaIdLacks, is_origin_id, is_stanza_id, origin_id_elem, stanza_id_elem};
ghost use Rattle.im_extensions.specs.Requests.{IsCarbonsSwitch, carbons_switch_elem, is_switch, switch_read};
ghost use Rattle.im_extensions.specs.StreamManagement.{AckLacks, EnabledLacks, IsAck, IsEnable, IsEnabled, IsResume, IsResumed, IsSmFailed, ResumptionLacks, SmFailedLacks, ack_elem, ack_read, enable_elem, enable_read, enabled_elem, is_management, resume_elem, resumed_elem, sm_failed_elem};
ghost use Rattle.im_payload.specs.Bare.{bare};
ghost use Rattle.im_payload.specs.Checks.{IsExactBy};
ghost use Rattle.im_payload.specs.Faults.{IsExact, IsFault, LacksNothing};
ghost use Rattle.im_payload.specs.declared.fault.ExtFault.TheVariants.{NoMemory};
ghost use Rattle.im_payload.specs.declared.fault.ExtFault.{ExtFault};
ghost use Rattle.xml_trees.specs.Readers.{is_named};
ghost use Rattle.xml_trees.specs.Trees.{Elem};

use crate::requests::CarbonsSwitch;
use crate::stream_management::{Ack, Enable};

/// A law for each type of stream management: a tree stands for one value at most, and is refused for want of memory alone
/// where it stands for one; one field at most is the first that is wrong; and what is written of a value that any tree
/// stands for is read back as that value.
pub fn stream_management_is_exact()
    ensures enable { IsExact (is_management (codes "enable")) (λ e. LacksNothing) IsEnable enable_elem }
    ensures enabled { IsExact (is_management (codes "enabled")) EnabledLacks IsEnabled enabled_elem }
    ensures ack { IsExact (is_management (codes "a")) AckLacks IsAck ack_elem }
    ensures resume { IsExact (is_management (codes "resume")) ResumptionLacks IsResume resume_elem }
    ensures resumed { IsExact (is_management (codes "resumed")) ResumptionLacks IsResumed resumed_elem }
    ensures failed { IsExact (is_management (codes "failed")) SmFailedLacks IsSmFailed sm_failed_elem }
{}

/// The same law for resource binding.
pub fn binding_is_exact()
    ensures request { IsExact is_bind (λ e. LacksNothing) IsBindRequest bind_request_elem }
    ensures result { IsExact is_bind BindResultLacks IsBindResult bind_result_elem }
{}

/// The same law for ids of stanzas.
pub fn stanza_ids_are_exact()
    ensures stanza_id { IsExact is_stanza_id StanzaIdLacks IsStanzaId stanza_id_elem }
    ensures origin_id { IsExact is_origin_id OriginIdLacks IsOriginId origin_id_elem }
{}

/// The same law for the switch of carbons, and for each type that is a bare element: `Request`, `Ping`, `DiscoInfo`,
/// `RosterGet` and `SessionSet`.
pub fn requests_are_exact()
    ensures switch { IsExact is_switch (λ e. LacksNothing) IsCarbonsSwitch carbons_switch_elem }
    ensures refused { (ns name : List ℕ) (e : Elem) (fault : ExtFault) → is_named ns name e ≡ true → IsFault (is_named ns name e) LacksNothing fault → fault ≡ NoMemory }
    ensures read_back { (ns name : List ℕ) → is_named ns name (bare ns name) ≡ true }
{}

/// A law: a tree stands for one forwarded message at most, and is refused for want of memory alone where it stands for
/// one; and what is written of a value that any tree stands for is read back as that value.
pub fn forwarding_is_exact()
    ensures { IsExactBy is_forwarded forwarded_checks IsForwarded WritesForwarded }
{}

/// The same law for carbons.
pub fn carbons_are_exact()
    ensures { IsExactBy is_carbon carbon_checks IsCarbon WritesCarbon }
{}

/// A law: of the readers that take no memory the answer is `Ok` of a value exactly where the element stands for it.
pub fn small_payloads_are_read()
    ensures enable { (e : Elem) (v : Enable) → (enable_read e ≡ Ok v) ↔ IsEnable e v }
    ensures ack { (e : Elem) (v : Ack) → (ack_read e ≡ Ok v) ↔ IsAck e v }
    ensures switch { (e : Elem) (v : CarbonsSwitch) → (switch_read e ≡ Ok v) ↔ IsCarbonsSwitch e v }
{}
