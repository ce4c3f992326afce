//! Laws of requests that ask by a bare element, and of resource binding (RFC 6120, section 7; XEP-0030, XEP-0199,
//! XEP-0280).
ghost use Rattle.std.specs.Prelude.{◌≡◌, ℕ, Err, IfSome, List, Ok, codes, if◌then◌else◌, true};
ghost use Rattle.std.specs.Str.{IsUtf8};
ghost use Rattle.im_extensions.specs.Bind.{BindResultLacks, IsBindRequest, IsBindResult, bind_request_elem, bind_result_elem, is_bind};
ghost use Rattle.im_extensions.specs.Readings.{bind_request_read, bind_result_read};
ghost use Rattle.im_extensions.specs.Requests.{IsCarbonsSwitch, carbons_switch_elem, is_switch, switch_read};
ghost use Rattle.im_extensions.specs.declared.bind.BindRequest.{BindRequest};
ghost use Rattle.im_extensions.specs.declared.bind.BindResult.{BindResult};
ghost use Rattle.im_extensions.specs.declared.requests.CarbonsSwitch.{CarbonsSwitch};
ghost use Rattle.im_extensions.specs.declared.requests.DiscoInfo.{DiscoInfo};
ghost use Rattle.im_extensions.specs.declared.requests.Ping.{Ping};
ghost use Rattle.im_extensions.specs.declared.requests.RosterGet.{RosterGet};
ghost use Rattle.im_extensions.specs.declared.requests.SessionSet.{SessionSet};
ghost use Rattle.im_jid.specs.Normal.{normal};
ghost use Rattle.im_payload.specs.Bare.{bare};
ghost use Rattle.im_payload.specs.Faults.{LacksNothing};
ghost use Rattle.im_payload.specs.Names.{binding, disco_info, pings, roster, sessions};
ghost use Rattle.im_payload.specs.Shapes.{child_text};
ghost use Rattle.im_payload.specs.declared.fault.ExtFault.TheVariants as fault;
ghost use Rattle.law_payloads.specs.Answers.{IsAnswer};
ghost use Rattle.xml_trees.specs.Readers.{is_named};
ghost use Rattle.xml_trees.specs.Trees.{Elem};

/// A law: what is read of a request is what the grammar says that the element stands for, which of all but the switch
/// of carbons is its name, and `NotThis` comes exactly for other elements.
pub fn requests_are_read_as_stated()
    ensures switch { (e : Elem) → IsAnswer (switch_read e) (is_switch e) LacksNothing (IsCarbonsSwitch e) }
    ensures ping { (e : Elem) → IsAnswer (if is_named pings (codes "ping") e then Ok (record {}) else Err fault.NotThis) (is_named pings (codes "ping") e) LacksNothing (λ (v : Ping). is_named pings (codes "ping") e ≡ true) }
    ensures disco_info { (e : Elem) → IsAnswer (if is_named disco_info (codes "query") e then Ok (record {}) else Err fault.NotThis) (is_named disco_info (codes "query") e) LacksNothing (λ (v : DiscoInfo). is_named disco_info (codes "query") e ≡ true) }
    ensures roster { (e : Elem) → IsAnswer (if is_named roster (codes "query") e then Ok (record {}) else Err fault.NotThis) (is_named roster (codes "query") e) LacksNothing (λ (v : RosterGet). is_named roster (codes "query") e ≡ true) }
    ensures session { (e : Elem) → IsAnswer (if is_named sessions (codes "session") e then Ok (record {}) else Err fault.NotThis) (is_named sessions (codes "session") e) LacksNothing (λ (v : SessionSet). is_named sessions (codes "session") e ≡ true) }
{}

/// A law: what is written of the switch of carbons is read as it, and a bare element has the name that it is written
/// with.
pub fn written_requests_are_read_back()
    ensures switch { (v : CarbonsSwitch) → switch_read (carbons_switch_elem v) ≡ Ok v }
    ensures named { (ns name : List ℕ) → is_named ns name (bare ns name) ≡ true }
{}

/// A law: what is read of a `bind` is what the grammar says that it stands for, and each refusal comes exactly where
/// the grammar tells it. The address is in normal form, and stays so, where the text that spells it is UTF-8, as it is
/// in each `Element`.
pub fn binding_is_read_as_stated()
    ensures request { (e : Elem) → IsAnswer (bind_request_read e) (is_bind e) LacksNothing (IsBindRequest e) }
    ensures result { (e : Elem) → IfSome (child_text binding (codes "jid") e) IsUtf8 → IsAnswer (bind_result_read e) (is_bind e) (BindResultLacks e) (λ jid. IsBindResult e (record { jid = jid })) }
{}

/// A law: what is written of a value is read as that value. The address is in normal form, as it is in a `Jid`.
pub fn written_binding_is_read_back()
    ensures request { (v : BindRequest) → bind_request_read (bind_request_elem v) ≡ Ok v }
    ensures result { (v : BindResult) → normal v.jid ≡ Ok v.jid → bind_result_read (bind_result_elem v) ≡ Ok v.jid }
{}
