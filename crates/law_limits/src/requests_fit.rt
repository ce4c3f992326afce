//! The law.
ghost use Rattle.std.specs.Prelude.{ℕ, ◌<◌, ◌^◌, ◌≤◌, Bool, List, Option, None, IfSome, codes, length};
ghost use Rattle.base64.specs.GeneralPurpose.{IsBytes};
ghost use Rattle.cl_login.specs.LoginRows.{client_header};
ghost use Rattle.xml_framer.specs.Limits.{server_limits};
ghost use Rattle.sm_outbox.specs.Submissions.{origin_of};
ghost use Rattle.im_replies.specs.Management.{ack_item, request_item};
ghost use Rattle.im_replies.specs.Requests.{iq_error_item, result_item};
ghost use Rattle.im_replies.specs.Streams.{too_high_item};
ghost use Rattle.im_requests.specs.Messages.{page_item, queryid_text, submission_item};
ghost use Rattle.im_requests.specs.Sessions.{available_item, bind_item, carbons_item, enable_item, resume_item};
ghost use Rattle.law_limits.specs.Bounds.{IsTextWithin, most_address, most_id, most_part, most_text};
ghost use Rattle.im_login.specs.Sasl.{auth_of, carrier};
ghost use Rattle.im_stanza.specs.declared.conditions.Condition.TheVariants.{ServiceUnavailable};
ghost use Rattle.im_stanza.specs.declared.errors.ErrorKind.TheVariants.{Cancel};
ghost use Rattle.xml_trees.specs.Trees.{no_nodes};
ghost use Rattle.xml_writer.specs.Items.{Closing, Opening, Whole};
ghost use Rattle.law_xml.specs.Puts.{OutFits};

/// A law: each thing that a client says is plain and within the limits of a server's framer as it is written, so that it is
/// read as that item. The texts that it is made of are of XML's characters, and no longer than `specs/Bounds.antt` has
/// them; counts are numbers of 32 bits, and epochs and other numbers of 64.
pub fn what_a_client_says_fits()
    ensures header { (domain : List ℕ) → IsTextWithin most_part domain → OutFits server_limits (Opening (client_header domain)) }
    ensures auth { (message : List ℕ) → IsBytes message → length message ≤ most_text → OutFits server_limits (Whole (auth_of (codes "SCRAM-SHA-256") message)) }
    ensures response { (message : List ℕ) → IsBytes message → length message ≤ most_text → OutFits server_limits (Whole (carrier (codes "response") message)) }
    ensures bind { (resource : List ℕ) → IsTextWithin most_part resource → OutFits server_limits (bind_item resource) }
    ensures enable { OutFits server_limits enable_item }
    ensures resume { (previd : List ℕ) (h : ℕ) → IsTextWithin most_id previd → h < 2 ^ 32 → OutFits server_limits (resume_item previd h) }
    ensures carbons { OutFits server_limits carbons_item }
    ensures available { OutFits server_limits available_item }
    ensures submission { (resource to text : List ℕ) (epoch n : ℕ) (private : Bool) → IsTextWithin most_part resource → epoch < 2 ^ 64 → n < 2 ^ 64
        → IsTextWithin most_address to → IsTextWithin most_text text → OutFits server_limits (submission_item (origin_of resource epoch n) to text private) }
    ensures page { (number max : ℕ) (after : Option (List ℕ)) → number < 2 ^ 64 → IfSome after (IsTextWithin most_id) → max < 2 ^ 32
        → OutFits server_limits (page_item (queryid_text number) after max) }
    ensures answer { (to : Option (List ℕ)) (id : List ℕ) → IfSome to (IsTextWithin most_address) → IsTextWithin most_id id
        → OutFits server_limits (result_item (record { from = None; to = to; id = id }) no_nodes) }
    ensures refusal { (to : Option (List ℕ)) (id : List ℕ) → IfSome to (IsTextWithin most_address) → IsTextWithin most_id id
        → OutFits server_limits (iq_error_item (record { from = None; to = to; id = id }) (record { kind = Cancel; condition = ServiceUnavailable })) }
    ensures request { OutFits server_limits request_item }
    ensures count { (h : ℕ) → h < 2 ^ 32 → OutFits server_limits (ack_item h) }
    ensures too_high { (h sent : ℕ) → h < 2 ^ 32 → sent < 2 ^ 32 → OutFits server_limits (too_high_item h sent) }
    ensures footer { OutFits server_limits Closing }
{}
