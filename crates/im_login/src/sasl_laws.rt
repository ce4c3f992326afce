//! What reading and writing SASL's elements say of each other.
ghost use Rattle.std.specs.Prelude.{◌≡◌, ◌≢◌, ℕ, List, [], codes, true};
ghost use Rattle.base64.specs.GeneralPurpose.{IsBytes};
ghost use Rattle.im_payload.specs.Faults.{IsFault};
ghost use Rattle.im_login.specs.Payloads.{IsPayload, base64_of};
ghost use Rattle.im_login.specs.Sasl.{AuthLacks, CarrierLacks, FailureLacks, IsAuth, IsCarrier, IsFailure, abort_of, auth_of, carrier, failure_of, is_sasl};
ghost use Rattle.im_payload.specs.declared.fault.ExtFault.{ExtFault};
ghost use Rattle.im_payload.specs.declared.fault.ExtFault.TheVariants.{NoMemory};
ghost use Rattle.xml_trees.specs.Trees.{Elem};

/// A law: a text stands for the bytes of one payload at most, and the base64 of bytes for those bytes.
pub fn payload_is_one()
    ensures one { (text a b : List ℕ) → IsPayload text a → IsPayload text b → a ≡ b }
    ensures written { (payload : List ℕ) → IsBytes payload → IsPayload (base64_of payload) payload }
    ensures empty { IsPayload [] [] }
{}

/// A law: what is written is read back, and as nothing else.
pub fn sasl_is_read()
    ensures auth { (mechanism payload : List ℕ) → IsBytes payload → IsAuth (auth_of mechanism payload) mechanism payload }
    ensures carrier { (name payload : List ℕ) → IsBytes payload → IsCarrier name (carrier name payload) payload }
    ensures failure { (condition : List ℕ) → condition ≢ codes "text" → IsFailure (failure_of condition) condition }
    ensures abort { is_sasl (codes "abort") abort_of ≡ true }
    ensures one_mechanism { (e : Elem) (m n p q : List ℕ) → IsAuth e m p → IsAuth e n q → m ≡ n }
    ensures one_auth { (e : Elem) (m n p q : List ℕ) → IsAuth e m p → IsAuth e n q → p ≡ q }
    ensures one_carrier { (name : List ℕ) (e : Elem) (p q : List ℕ) → IsCarrier name e p → IsCarrier name e q → p ≡ q }
    ensures one_failure { (e : Elem) (c d : List ℕ) → IsFailure e c → IsFailure e d → c ≡ d }
{}

/// A law: an element that stands for a value is refused for want of memory alone. So `read` answers `Ok` exactly for
/// these, and `NotThis` and `Bad` exactly where they are told.
pub fn sasl_is_refused()
    ensures auth { (e : Elem) (m p : List ℕ) (fault : ExtFault) → IsAuth e m p → IsFault (is_sasl (codes "auth") e) (AuthLacks e) fault → fault ≡ NoMemory }
    ensures carrier { (name : List ℕ) (e : Elem) (p : List ℕ) (fault : ExtFault) → IsCarrier name e p → IsFault (is_sasl name e) (CarrierLacks e) fault → fault ≡ NoMemory }
    ensures failure { (e : Elem) (c : List ℕ) (fault : ExtFault) → IsFailure e c → IsFault (is_sasl (codes "failure") e) (FailureLacks e) fault → fault ≡ NoMemory }
{}
