//! Laws of stream management (XEP-0198).
ghost use Rattle.std.specs.Prelude.{◌≡◌, ◌≢◌, ◌<◌, ◌^◌, ℕ, Err, IfSome, Ok, codes, if◌then◌else◌, true};
ghost use Rattle.im_extensions.specs.Readings.{enabled_read, failed_read, resumption_read};
ghost use Rattle.im_extensions.specs.StreamManagement.{AckLacks, EnabledLacks, IsAck, IsEnable, IsEnabled, IsResume, IsResumed, IsSmFailed, ResumptionLacks, SmFailedLacks, ack_elem, ack_read, enable_elem, enable_read, enabled_elem, is_management, resume_elem, resumed_elem, sm_failed_elem};
ghost use Rattle.im_extensions.specs.declared.stream_management.Ack.{Ack};
ghost use Rattle.im_extensions.specs.declared.stream_management.Enable.{Enable};
ghost use Rattle.im_extensions.specs.declared.stream_management.Enabled.{Enabled};
ghost use Rattle.im_extensions.specs.declared.stream_management.Request.{Request};
ghost use Rattle.im_extensions.specs.declared.stream_management.Resume.{Resume};
ghost use Rattle.im_extensions.specs.declared.stream_management.Resumed.{Resumed};
ghost use Rattle.im_extensions.specs.declared.stream_management.SmFailed.{SmFailed};
ghost use Rattle.im_payload.specs.Bare.{bare};
ghost use Rattle.im_payload.specs.Faults.{LacksNothing};
ghost use Rattle.im_payload.specs.Names.{management};
ghost use Rattle.im_payload.specs.declared.fault.ExtFault.TheVariants as fault;
ghost use Rattle.law_payloads.specs.Answers.{IsAnswer};
ghost use Rattle.im_stanza.specs.Conditions.{IsPlain, condition_name};
ghost use Rattle.xml_trees.specs.Readers.{is_named};
ghost use Rattle.xml_trees.specs.Trees.{Elem};

/// A law: what is read of an element of stream management is what the grammar says that it stands for, and each refusal
/// comes exactly where the grammar tells it. Of `resume` and `resumed` the id and the count are read, of `failed` the
/// condition.
pub fn stream_management_is_read_as_stated()
    ensures enable { (e : Elem) → IsAnswer (enable_read e) (is_management (codes "enable") e) LacksNothing (IsEnable e) }
    ensures enabled { (e : Elem) → IsAnswer (enabled_read e) (is_management (codes "enabled") e) (EnabledLacks e) (IsEnabled e) }
    ensures request { (e : Elem) → IsAnswer (if is_named management (codes "r") e then Ok (record {}) else Err fault.NotThis) (is_management (codes "r") e) LacksNothing (λ (v : Request). is_management (codes "r") e ≡ true) }
    ensures ack { (e : Elem) → IsAnswer (ack_read e) (is_management (codes "a") e) (AckLacks e) (IsAck e) }
    ensures resume { (e : Elem) → IsAnswer (resumption_read (codes "resume") e) (is_management (codes "resume") e) (ResumptionLacks e) (λ v. IsResume e (record { previd = v.0; h = v.1 })) }
    ensures resumed { (e : Elem) → IsAnswer (resumption_read (codes "resumed") e) (is_management (codes "resumed") e) (ResumptionLacks e) (λ v. IsResumed e (record { previd = v.0; h = v.1 })) }
    ensures failed { (e : Elem) → IsAnswer (failed_read e) (is_management (codes "failed") e) (SmFailedLacks e) (λ v. IsSmFailed e (record { condition = v })) }
{}

/// A law: what is written of a value is read as that value. The counts are numbers of 32 bits, as they are in the
/// types. Of a `failed` the condition is given as its own variant, where it has one, and isn't named `text`.
pub fn written_stream_management_is_read_back()
    ensures enable { (v : Enable) → enable_read (enable_elem v) ≡ Ok v }
    ensures enabled { (v : Enabled) → IfSome v.max (λ n. n < 2 ^ 32) → enabled_read (enabled_elem v) ≡ Ok v }
    ensures request { is_management (codes "r") (bare management (codes "r")) ≡ true }
    ensures ack { (v : Ack) → v.h < 2 ^ 32 → ack_read (ack_elem v) ≡ Ok v }
    ensures resume { (v : Resume) → v.h < 2 ^ 32 → resumption_read (codes "resume") (resume_elem v) ≡ Ok (v.previd, v.h) }
    ensures resumed { (v : Resumed) → v.h < 2 ^ 32 → resumption_read (codes "resumed") (resumed_elem v) ≡ Ok (v.previd, v.h) }
    ensures failed { (v : SmFailed) → IsPlain v.condition → condition_name v.condition ≢ codes "text" → failed_read (sm_failed_elem v) ≡ Ok v.condition }
{}
